// The remote of a kit in the world.
ghost use Rattle.std.specs.Prelude.{◌≡◌, ◌++◌, ◌∷◌, [], not, Some, None, IsTrue, IfOk, IfSome, OnOk, OnErr};
ghost use Rattle.ann_key.specs.KeyRefs.{text_of};
ghost use Rattle.annex_model.specs.Lines.{has_newline};
ghost use Rattle.annex_model.specs.Messages.{is_sent_key};
ghost use Rattle.kit_serve.specs.declared.kit.call.Asked.TheVariants.{Prepare, Store, Retrieve, Check, Remove};
ghost use Rattle.kit_serve.specs.Kit.Calls.{called, are_lines, is_line_said};
ghost use Rattle.pair_kit.specs.Cues.{as_list, told_calls, settings};

use ann_key::{Key, KeyRef, NoMemory, Text};
use kit_serve::kit::{Asked, Call, Remote, Said, Values};
use std::alloc::Global;
use std::marker::Model;

/// A remote that says one word to each call, and keeps its calls. Contracts see the word and the calls.
#[derive(Drop)]
pub(crate) struct Cue {
    alloc: Global,
    word: Said,
    calls: Vec<Call>,
}

impl Model for Cue {
    ghost use Rattle.pair_kit.specs.Cues.{CueValue, IsCue};

    ghost Value = { CueValue };

    ghost view = { λ c. record { word = c.word; calls = c.calls.items } };

    ghost invariant = { λ c. IsCue c.word c.calls.items };
}

impl Cue {
    /// A cue that says this word, and had no call. It takes no memory.
    pub(crate) fn new(alloc: Global, word: Said) -> Cue
        requires { IsTrue (is_line_said word) }
        ensures { result ≡ record { word = word; calls = [] } }
    {
        Cue {
            alloc,
            word,
            calls: Vec::new(alloc),
        }
    }

    /// The last call, which is no longer kept. It takes no memory.
    pub(crate) fn take_call(&mut self) -> Option<Call>
        ensures calls { self.old.calls ≡ self.new.calls ++ as_list result }
        ensures word { self.new.word ≡ self.old.word }
        ensures none { result ≡ None → self.old.calls ≡ [] }
        ensures said { IfSome result (λ call. call.said ≡ self.old.word) }
    {
        self.calls.pop()
    }

    // Keeps the call, and says the word.
    fn answer(&mut self, asked: Asked) -> Result<Said, NoMemory>
        ensures ok { OnOk result (self.new.calls ≡ self.old.calls ++ record { asked = asked; said = self.old.word } ∷ []) }
        ensures err { OnErr result (self.new.calls ≡ self.old.calls) }
        ensures word { self.new.word ≡ self.old.word }
        ensures said { IfOk result (λ said. said ≡ self.old.word) }
        ensures line { IfOk result (λ said. IsTrue (is_line_said said)) }
    {
        let said = self.word.copy(self.alloc)?;
        let kept = self.word.copy(self.alloc)?;
        self.calls.push(Call { asked, said: kept })?;
        Ok(said)
    }
}

// Copies of a transfer's key and file.
fn both(alloc: Global, key: KeyRef<'_>, file: &str) -> Result<(Key, Text), NoMemory>
    ensures { IfOk result (λ b. (b.0 ≡ text_of key.entry) × (b.1 ≡ file.now)) }
{
    let key = Key::copy(alloc, key)?;
    let file = Text::copy(alloc, file)?;
    Ok((key, file))
}

impl Remote for Cue {
    ghost settings = { λ _. settings };

    ghost calls = { λ c. Some (told_calls c) };

    fn setting(&self, n: u32) -> Option<&str> {
        match n {
            0 => Some("directory"),
            _ => None,
        }
    }

    fn prepare(&mut self, values: &Values) -> Result<Said, NoMemory> {
        let asked = Asked::Prepare(values.copy(self.alloc)?);
        self.answer(asked)
    }

    fn store(&mut self, key: KeyRef<'_>, file: &str) -> Result<Said, NoMemory> {
        let (key, file) = both(self.alloc, key, file)?;
        self.answer(Asked::Store(key, file))
    }

    fn retrieve(&mut self, key: KeyRef<'_>, file: &str) -> Result<Said, NoMemory> {
        let (key, file) = both(self.alloc, key, file)?;
        self.answer(Asked::Retrieve(key, file))
    }

    fn check(&mut self, key: KeyRef<'_>) -> Result<Said, NoMemory> {
        let asked = Asked::Check(Key::copy(self.alloc, key)?);
        self.answer(asked)
    }

    fn remove(&mut self, key: KeyRef<'_>) -> Result<Said, NoMemory> {
        let asked = Asked::Remove(Key::copy(self.alloc, key)?);
        self.answer(asked)
    }
}
