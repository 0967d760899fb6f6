// The words for a child that failed.
ghost use Rattle.std.specs.Prelude.{◌≡◌, ◌++◌};
ghost use Rattle.annex_model.specs.Messages.{remote_reading};
ghost use Rattle.annex_model.specs.Tags.{untag, without_tag};
ghost use Rattle.journal_model.specs.Output.{text_of_reading, text_at, why_words};

use journal_look::{Journal, line_at};
use journal_model::Why;
use wire_msg::{read_remote, text_of, untag};

/// Words that are always the same, and those of the child after them.
#[derive(Clone, Copy)]
pub(super) struct Words<'a> {
    pub(super) fixed: &'a [u8],
    pub(super) told: &'a [u8],
}

fn without_tag(line: &[u8]) -> &[u8]
    ensures { result.now ≡ without_tag line.now (untag line.now) }
{
    match untag(line) {
        Some((_, text)) => text,
        None => line,
    }
}

fn text_of_line(line: &[u8]) -> &[u8]
    ensures { result.now ≡ text_of_reading (remote_reading line.now) }
{
    match read_remote(line) {
        Some(message) => text_of(message),
        None => b"",
    }
}

/// The text that the line at a place ends with.
pub(super) fn text_at(journal: &Journal, at: u64) -> &[u8]
    ensures { result.now ≡ text_at journal.now.entries at }
{
    text_of_line(without_tag(line_at(journal, at)))
}

fn fixed(words: &'static [u8]) -> Words<'static>
    ensures { result.fixed.now ++ result.told.now ≡ words.entry.now }
{
    Words {
        fixed: words,
        told: b"",
    }
}

/// Why a child ended.
pub(super) fn why_words(journal: &Journal, why: Why) -> Words<'_>
    ensures { result.fixed.now ++ result.told.now ≡ why_words journal.now.entries why }
{
    match why {
        Why::Eof => fixed(b"ended eof"),
        Why::ReadFault => fixed(b"ended readfault"),
        Why::LongLine => fixed(b"ended longline"),
        Why::Full => fixed(b"ended full"),
        Why::Memory => fixed(b"memory"),
        Why::Closed => fixed(b"ended closed"),
        Why::Foul { at } => Words {
            fixed: b"foul ",
            told: line_at(journal, at),
        },
        Why::Error { at } => Words {
            fixed: b"ended error ",
            told: text_at(journal, at),
        },
        Why::Version { .. } => fixed(b"ended version"),
    }
}
