// The mirror over the programs of this machine, as a remote.
ghost use Rattle.std.specs.Prelude.{◌≡◌, not, IfOk, IsTrue, None};
ghost use Rattle.ann_key.specs.KeyRefs.{text_of};
ghost use Rattle.annex_model.specs.Lines.{has_newline};
ghost use Rattle.annex_model.specs.Messages.{is_sent_key};
ghost use Rattle.kit_serve.specs.Kit.Calls.{are_lines, called, is_line_said};
ghost use Rattle.kit_serve.specs.declared.kit.call.Asked.TheVariants.{Prepare, Store, Retrieve, Check, Remove};
ghost use Rattle.mirror_children.specs.Plan.Settings.{names};
ghost use Rattle.mirror_remote.specs.Lasting.{Lasts, Readies};

use ann_key::{KeyRef, NoMemory};
use ann_os::{OsErrors, OsPrograms};
use ann_outside::write_all;
use kit_serve::kit::{Availability, Describe, Pair, Remote, Said, Values, Where};
use mirror_remote::{Ended, LastingMirror, unready_text};
use std::alloc::{AllocError, Global};

/// Hands each call on to the mirror. Where a remote of it isn't ready, what that remote said goes to standard error.
pub struct Mirrored<'a> {
    rt: &'a HostRuntime,
    mirror: LastingMirror<OsPrograms<&'a HostRuntime>>,
}

// The notice about a remote that isn't ready: what the mirror says of it, and why.
fn notice(alloc: Global, failure: &[u8], why: &[u8]) -> Result<Vec<u8>, AllocError> {
    let mut text = Vec::from_slice(alloc, b"annex-remote-mirror: note: ")?;
    text.extend_from_slice(failure)?;
    text.extend_from_slice(b": ")?;
    text.extend_from_slice(why)?;
    text.push(b'\n')?;
    Ok(text)
}

impl<'a> Mirrored<'a> {
    pub fn new(rt: &'a HostRuntime) -> Mirrored<'a> {
        Mirrored {
            rt,
            mirror: LastingMirror::new(rt.alloc(), OsPrograms::new(rt)),
        }
    }

    // Why the last child that was started isn't ready, as far as one was.
    fn last_words(&self) -> Option<&[u8]> {
        let mut words = None;
        for n in 0..8 {
            if let Some(journal) = self.mirror.journal(n) {
                words = Some(unready_text(journal));
            }
        }
        words
    }

    // A notice is no answer: where it can't be written nothing else changes.
    fn tell(&self, failure: &[u8]) {
        let Some(why) = self.last_words() else {
            return;
        };
        if let Ok(text) = notice(self.rt.alloc(), failure, why) {
            let _ = write_all(&mut OsErrors::new(self.rt.stderr()), &text);
        }
    }

    /// Closes the programs that it started, and waits for their ends.
    pub fn finish(self) {
        let Mirrored { rt: _, mirror } = self;
        let Ended {
            programs,
            journals,
            wires,
        } = mirror.finish();
        drop(programs);
        drop(journals);
        drop(wires);
    }
}

impl<'a> Remote for Mirrored<'a> {
    ghost settings = { λ m. names };

    ghost calls = { λ m. None };

    fn setting(&self, n: u32) -> Option<&str> {
        self.mirror.setting(n)
    }

    fn prepare(&mut self, values: &Values) -> Result<Said, NoMemory>
        requires lines { IsTrue (are_lines values.now) }
        ensures calls { None ≡ called None (Prepare values.now) result }
        ensures settings { names ≡ names }
        ensures text { IfOk result (λ said. IsTrue (is_line_said said)) }
        ensures readies { Readies values.now self.old.mirror self.new.mirror result }
    {
        let said = self.mirror.prepare(values);
        if let Ok(Said::Failure(text)) = &said {
            self.tell(text.view());
        }
        said
    }

    fn store(&mut self, key: KeyRef<'_>, file: &str) -> Result<Said, NoMemory>
        requires key { IsTrue (is_sent_key (text_of key)) }
        requires line { IsTrue (not (has_newline file.now)) }
        ensures calls { None ≡ called None (Store (text_of key.entry) file.now) result }
        ensures settings { names ≡ names }
        ensures text { IfOk result (λ said. IsTrue (is_line_said said)) }
        ensures lasts { Lasts (Store (text_of key.entry) file.now) self.old.mirror self.new.mirror result }
    {
        self.mirror.store(key, file)
    }

    fn retrieve(&mut self, key: KeyRef<'_>, file: &str) -> Result<Said, NoMemory>
        requires key { IsTrue (is_sent_key (text_of key)) }
        requires line { IsTrue (not (has_newline file.now)) }
        ensures calls { None ≡ called None (Retrieve (text_of key.entry) file.now) result }
        ensures settings { names ≡ names }
        ensures text { IfOk result (λ said. IsTrue (is_line_said said)) }
        ensures lasts { Lasts (Retrieve (text_of key.entry) file.now) self.old.mirror self.new.mirror result }
    {
        self.mirror.retrieve(key, file)
    }

    fn check(&mut self, key: KeyRef<'_>) -> Result<Said, NoMemory>
        requires key { IsTrue (is_sent_key (text_of key)) }
        ensures calls { None ≡ called None (Check (text_of key.entry)) result }
        ensures settings { names ≡ names }
        ensures text { IfOk result (λ said. IsTrue (is_line_said said)) }
        ensures lasts { Lasts (Check (text_of key.entry)) self.old.mirror self.new.mirror result }
    {
        self.mirror.check(key)
    }

    fn remove(&mut self, key: KeyRef<'_>) -> Result<Said, NoMemory>
        requires key { IsTrue (is_sent_key (text_of key)) }
        ensures calls { None ≡ called None (Remove (text_of key.entry)) result }
        ensures settings { names ≡ names }
        ensures text { IfOk result (λ said. IsTrue (is_line_said said)) }
        ensures lasts { Lasts (Remove (text_of key.entry)) self.old.mirror self.new.mirror result }
    {
        self.mirror.remove(key)
    }
}

impl<'a> Describe for Mirrored<'a> {
    ghost description = { λ m. ⟦<LastingMirror<OsPrograms<&'a HostRuntime>> as Describe>⟧.description m.mirror };

    fn configs(&self, alloc: Global) -> Result<Vec<Pair>, NoMemory> {
        self.mirror.configs(alloc)
    }

    fn cost(&self) -> Option<u64> {
        self.mirror.cost()
    }

    fn availability(&self) -> Option<Availability> {
        self.mirror.availability()
    }

    fn info(&self, alloc: Global) -> Result<Vec<Pair>, NoMemory> {
        self.mirror.info(alloc)
    }

    fn whereis(&self, alloc: Global, key: KeyRef<'_>) -> Result<Where, NoMemory> {
        self.mirror.whereis(alloc, key)
    }
}
