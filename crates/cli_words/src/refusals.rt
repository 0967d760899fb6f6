ghost use Rattle.std.specs.Prelude.{◌≡◌, ◌↔◌, None, Some};
ghost use Rattle.ann_key.specs.KeyRefs.{parts_of, text_of};
ghost use Rattle.cli_words.specs.Refusals.{reason_refused, refusal_in, IsTaskKey};
ghost use Rattle.cli_words.specs.Texts.{reason_word};

use ann_key::KeyRef;
use std::fmt;

/// Why a line of the input, or the key of `check`, is refused.
#[derive(Clone, Copy, Debug, PartialEq, Eq)]
pub enum Reason {
    /// Its first word is no work.
    Word,
    /// The key is none.
    Key,
    /// A byte of the key can't stand in a request.
    Unsendable,
    /// The key is that of a chunk.
    ChunkKey,
    /// The file is missing, or is no text of one line.
    File,
    /// A name, or a new name, is missing, or is no text of one line without a byte 9.
    Name,
    /// It is longer than a line may be.
    Long,
    /// It is one line more than the input may have.
    Many,
    /// In it the input passes its limit.
    Large,
    /// It can't stand in the text of a run, or in it that text passes a limit.
    Entry,
    /// After it the end of the text of a run is missing; it is 0 where the input is empty.
    Cut,
}

impl Reason {
    // The word that is printed for it.
    fn word(self) -> &'static str
        ensures { result.now ≡ reason_word self }
    {
        match self {
            Reason::Word => "word",
            Reason::Key => "key",
            Reason::Unsendable => "unsendable",
            Reason::ChunkKey => "chunkkey",
            Reason::File => "file",
            Reason::Name => "name",
            Reason::Long => "long",
            Reason::Many => "many",
            Reason::Large => "large",
            Reason::Entry => "entry",
            Reason::Cut => "cut",
        }
    }
}

impl fmt::Display for Reason {
    ghost use Rattle.std.specs.Prelude.{Some};
    ghost use Rattle.cli_words.specs.Texts.{reason_word};

    ghost output = { λ r. Some (reason_word r) };

    fn fmt<W: fmt::Write>(&self, f: &mut fmt::Formatter<W>) -> fmt::Result {
        f.write_str(self.word())
    }
}

/// Why these bytes can't be the key of a task, if they can't: they are a key, every byte of it can be sent, and it is no
/// chunk's, asked in this order. <https://git-annex.branchable.com/internals/key_format/>
pub fn refusal(key: &[u8]) -> Option<Reason>
    ensures reason { result ≡ reason_refused key.now }
    ensures fit { (result ≡ None) ↔ IsTaskKey key.now }
{
    first_reason(key)
}

fn first_reason(key: &[u8]) -> Option<Reason>
    ensures { result ≡ reason_refused key.now }
{
    match KeyRef::read(key) {
        Ok(key) => unfit(key),
        Err(_) => Some(Reason::Key),
    }
}

fn unfit(key: KeyRef<'_>) -> Option<Reason>
    ensures { result ≡ refusal_in (text_of key.entry) (Some (parts_of key.entry)) }
{
    if !key.sendable() {
        Some(Reason::Unsendable)
    } else if key.chunk().is_some() {
        Some(Reason::ChunkKey)
    } else {
        None
    }
}
