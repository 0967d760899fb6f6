ghost use Rattle.std.specs.Prelude.{◌≡◌, ◌++◌, ◌∷◌, [], not, IsTrue, IfOk, OnOk, OnErr, Some, Ok};
ghost use Rattle.ann_key.specs.KeyRefs.{text_of};
ghost use Rattle.annex_model.specs.Lines.{has_newline};
ghost use Rattle.annex_model.specs.Messages.{is_sent_key};
ghost use Rattle.kit_serve.specs.declared.kit.call.Asked.TheVariants.{Initialize, Prepare, Store, Retrieve, Check, Remove};
ghost use Rattle.kit_serve.specs.Kit.Calls.{called, plain, are_lines, is_line_said};

use crate::kit::call::{Asked, Call, Said};
use crate::kit::lists::Values;
use crate::kit::remote::Remote;
use ann_key::{Key, KeyRef, NoMemory, Text};
use std::alloc::Global;
use std::marker::Model;

/// A remote that passes each call on to another, keeps its calls and tells them. If there is no memory to keep a call,
/// it answers so, and the other remote may have been called.
///
/// Contracts see the other remote, and the calls that are kept.
#[derive(Drop)]
pub struct Noted<R: Remote> {
    alloc: Global,
    remote: R,
    calls: Vec<Call>,
}

impl<R: Remote> Model for Noted<R> {
    ghost use Rattle.kit_serve.specs.Kit.Calls.{NotedValue};

    ghost Value = { NotedValue R };

    ghost view = { λ n. record { remote = n.remote; calls = n.calls.items } };
}

impl<R: Remote> Noted<R> {
    /// That remote, of which no call is kept yet. It takes no memory.
    pub fn new(alloc: Global, remote: R) -> Noted<R>
        ensures remote { result.remote ≡ remote }
        ensures calls { result.calls ≡ [] }
    {
        Noted {
            alloc,
            remote,
            calls: Vec::new(alloc),
        }
    }

    /// The calls that are kept, the first one first. It takes no memory.
    pub fn calls(&self) -> &[Call]
        ensures { result.now ≡ self.now.calls }
    {
        self.calls.as_slice()
    }

    /// The other remote, without the calls. It takes no memory.
    pub fn close(self) -> R
        ensures { result ≡ self.remote }
    {
        let Noted {
            alloc: _,
            remote,
            calls: _,
        } = self;
        remote
    }

    // Keeps a call that found memory, and hands back what came of it. What isn't kept is let go here, by calls: what lets it
    // go goes by its kinds.
    fn keep(&mut self, asked: Asked, said: Result<Said, NoMemory>) -> Result<Said, NoMemory>
        ensures calls { Some self.new.calls ≡ called (Some self.old.calls) asked result }
        ensures said { IfOk result (λ s. said ≡ Ok s) }
        ensures remote { self.new.remote ≡ self.old.remote }
    {
        let said = match said {
            Ok(said) => said,
            Err(e) => {
                drop(asked);
                return Err(e);
            }
        };
        match add(self.alloc, &mut self.calls, asked, &said) {
            Ok(()) => Ok(said),
            Err(e) => {
                drop(said);
                Err(e)
            }
        }
    }
}

impl<R: Remote> Remote for Noted<R> {
    ghost settings = { λ n. R.settings n.remote };

    ghost calls = { λ n. Some n.calls };

    fn setting(&self, n: u32) -> Option<&str> {
        self.remote.setting(n)
    }

    fn prepare(&mut self, values: &Values) -> Result<Said, NoMemory>
        requires lines { IsTrue (are_lines values.now) }
        ensures calls { Some self.new.calls ≡ called (Some self.old.calls) (Prepare values.now) result }
        ensures settings { R.settings self.new.remote ≡ R.settings self.old.remote }
        ensures text { IfOk result (λ said. IsTrue (is_line_said said)) }
        ensures passed { OnOk result (R.calls self.new.remote ≡ called (R.calls self.old.remote) (Prepare values.now) result) }
    {
        let asked = Asked::Prepare(values.copy(self.alloc)?);
        let said = self.remote.prepare(values);
        self.keep(asked, said)
    }

    fn initialize(&mut self, values: &Values) -> Result<Said, NoMemory>
        requires lines { IsTrue (are_lines values.now) }
        ensures calls { Some self.new.calls ≡ called (Some self.old.calls) (plain (Initialize values.now)) result }
        ensures settings { R.settings self.new.remote ≡ R.settings self.old.remote }
        ensures text { IfOk result (λ said. IsTrue (is_line_said said)) }
        ensures passed { OnOk result (R.calls self.new.remote ≡ called (R.calls self.old.remote) (plain (Initialize values.now)) result) }
    {
        let asked = Asked::Prepare(values.copy(self.alloc)?);
        let said = self.remote.initialize(values);
        self.keep(asked, said)
    }

    fn store(&mut self, key: KeyRef<'_>, file: &str) -> Result<Said, NoMemory>
        requires key { IsTrue (is_sent_key (text_of key)) }
        requires line { IsTrue (not (has_newline file.now)) }
        ensures calls { Some self.new.calls ≡ called (Some self.old.calls) (Store (text_of key.entry) file.now) result }
        ensures settings { R.settings self.new.remote ≡ R.settings self.old.remote }
        ensures text { IfOk result (λ said. IsTrue (is_line_said said)) }
        ensures passed { OnOk result (R.calls self.new.remote ≡ called (R.calls self.old.remote) (Store (text_of key.entry) file.now) result) }
    {
        let (key_copy, file_copy) = both(self.alloc, key, file)?;
        let asked = Asked::Store(key_copy, file_copy);
        let said = self.remote.store(key, file);
        self.keep(asked, said)
    }

    fn retrieve(&mut self, key: KeyRef<'_>, file: &str) -> Result<Said, NoMemory>
        requires key { IsTrue (is_sent_key (text_of key)) }
        requires line { IsTrue (not (has_newline file.now)) }
        ensures calls { Some self.new.calls ≡ called (Some self.old.calls) (Retrieve (text_of key.entry) file.now) result }
        ensures settings { R.settings self.new.remote ≡ R.settings self.old.remote }
        ensures text { IfOk result (λ said. IsTrue (is_line_said said)) }
        ensures passed { OnOk result (R.calls self.new.remote ≡ called (R.calls self.old.remote) (Retrieve (text_of key.entry) file.now) result) }
    {
        let (key_copy, file_copy) = both(self.alloc, key, file)?;
        let asked = Asked::Retrieve(key_copy, file_copy);
        let said = self.remote.retrieve(key, file);
        self.keep(asked, said)
    }

    fn check(&mut self, key: KeyRef<'_>) -> Result<Said, NoMemory>
        requires key { IsTrue (is_sent_key (text_of key)) }
        ensures calls { Some self.new.calls ≡ called (Some self.old.calls) (Check (text_of key.entry)) result }
        ensures settings { R.settings self.new.remote ≡ R.settings self.old.remote }
        ensures text { IfOk result (λ said. IsTrue (is_line_said said)) }
        ensures passed { OnOk result (R.calls self.new.remote ≡ called (R.calls self.old.remote) (Check (text_of key.entry)) result) }
    {
        let asked = Asked::Check(Key::copy(self.alloc, key)?);
        let said = self.remote.check(key);
        self.keep(asked, said)
    }

    fn remove(&mut self, key: KeyRef<'_>) -> Result<Said, NoMemory>
        requires key { IsTrue (is_sent_key (text_of key)) }
        ensures calls { Some self.new.calls ≡ called (Some self.old.calls) (Remove (text_of key.entry)) result }
        ensures settings { R.settings self.new.remote ≡ R.settings self.old.remote }
        ensures text { IfOk result (λ said. IsTrue (is_line_said said)) }
        ensures passed { OnOk result (R.calls self.new.remote ≡ called (R.calls self.old.remote) (Remove (text_of key.entry)) result) }
    {
        let asked = Asked::Remove(Key::copy(self.alloc, key)?);
        let said = self.remote.remove(key);
        self.keep(asked, said)
    }
}

// Copies of a transfer's key and file.
fn both(alloc: Global, key: KeyRef<'_>, file: &str) -> Result<(Key, Text), NoMemory>
    ensures { IfOk result (λ b. (b.0 ≡ text_of key.entry) × (b.1 ≡ file.now)) }
{
    let key = Key::copy(alloc, key)?;
    let file = Text::copy(alloc, file)?;
    Ok((key, file))
}

// Adds a call, with a copy of what was said.
fn add(alloc: Global, calls: &mut Vec<Call>, asked: Asked, said: &Said) -> Result<(), NoMemory>
    ensures ok { OnOk result (calls.new.items ≡ calls.old.items ++ record { asked = asked; said = said.now } ∷ []) }
    ensures err { OnErr result (calls.new.items ≡ calls.old.items) }
{
    match said.copy(alloc) {
        Ok(copy) => {
            calls.push(Call { asked, said: copy })?;
            Ok(())
        }
        Err(e) => {
            drop(asked);
            Err(e)
        }
    }
}
