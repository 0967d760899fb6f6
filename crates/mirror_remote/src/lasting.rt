// A mirror that goes on where the journal of one of its children is full.
ghost use Rattle.std.specs.Prelude.{◌≡◌, [], not, IfOk, IfSome, IsTrue, None};
ghost use Rattle.std.specs.Option.{option_copied};
ghost use Rattle.std.specs.Prelude.{slice_get, option_map};
ghost use Rattle.ann_key.specs.KeyRefs.{text_of};
ghost use Rattle.annex_model.specs.Lines.{has_newline};
ghost use Rattle.annex_model.specs.Messages.{is_sent_key};
ghost use Rattle.kit_serve.specs.Kit.Calls.{are_lines, is_line_said};
ghost use Rattle.kit_serve.specs.declared.kit.call.Asked.TheVariants.{Store, Retrieve, Check, Remove};
ghost use Rattle.mirror_children.specs.Plan.Settings.{names};
ghost use Rattle.mirror_remote.specs.Lasting.{ComesTo, Lasts, Readies, Starts, wants_start};
ghost use Rattle.mirror_remote.specs.Mirrors.{Finishes, journals_of};

use crate::mirror::{Ended, MirrorRemote};
use ann_key::{KeyRef, NoMemory};
use ann_outside::Programs;
use journal_look::Journal;
use kit_serve::kit::{Said, Values};
use std::alloc::Global;
use std::marker::Model;

/// A mirror of a long session. The journal of a child has a limit; where one has ended since its journal is full, all children are
/// started anew before the next request, by the values of the last `prepare`, as if the host had asked for it. Where they don't get ready
/// that request says so, and the next one tries it again.
///
/// Contracts see the mirror, and the values of the last `prepare` where that said Yes.
pub struct LastingMirror<P: Programs> {
    alloc: Global,
    pub(super) mirror: MirrorRemote<P>,
    values: Option<Values>,
}

impl<P: Programs> Model for LastingMirror<P> {
    ghost use Rattle.std.specs.Prelude.{IfSome, IsTrue};
    ghost use Rattle.kit_serve.specs.Kit.Calls.{are_lines};
    ghost use Rattle.mirror_remote.specs.Lasting.{LastingValue};

    ghost Value = { LastingValue };

    ghost view = { λ m. record { mirror = m.mirror; values = m.values } };

    ghost invariant = { λ m. IfSome m.values (λ values. IsTrue (are_lines values)) };
}

// What a prepare comes to for the call after it.
fn goes_on(said: Result<Said, NoMemory>) -> Result<Option<Said>, NoMemory>
    requires { IfOk said (λ s. IsTrue (is_line_said s)) }
    ensures comes { ComesTo said result }
    ensures text { IfOk result (λ said. IfSome said (λ s. IsTrue (is_line_said s))) }
{
    match said {
        Ok(Said::Yes | Said::Set(_)) => Ok(None),
        Ok(said) => Ok(Some(said)),
        Err(e) => Err(e),
    }
}

impl<P: Programs> LastingMirror<P>
where
    P::Inlet: Drop,
    P::Outlet: Drop,
    P::Stub: Drop,
{
    /// A mirror that isn't prepared. It takes no memory.
    pub fn new(alloc: Global, programs: P) -> LastingMirror<P>
        ensures { result ≡ record { mirror = record { programs = P.told programs; children = []; logs = [] }; values = None } }
    {
        LastingMirror {
            alloc,
            mirror: MirrorRemote::new(alloc, programs),
            values: None,
        }
    }

    /// The journal of the nth child of the last start of them all, from 0. It takes no memory.
    pub fn journal(&self, n: usize) -> Option<&Journal>
        ensures { option_map (λ j. j.now.entries) result ≡ slice_get (journals_of self.now.mirror) n }
    {
        self.mirror.journal(n)
    }

    /// The name of the setting of that number, from 0; None ends them.
    pub fn setting(&self, n: u32) -> Option<&str>
        ensures { option_copied result ≡ slice_get names n }
    {
        self.mirror.setting(n)
    }

    /// Closes the children that are left, and waits for their programs to end. It takes no memory.
    pub fn finish(self) -> Ended<P>
        ensures { Finishes self.mirror result }
    {
        let LastingMirror {
            alloc: _,
            mirror,
            values,
        } = self;
        drop(values);
        mirror.finish()
    }

    /// Prepares the mirror, and keeps the values.
    pub fn prepare(&mut self, values: &Values) -> Result<Said, NoMemory>
        requires lines { IsTrue (are_lines values.now) }
        ensures text { IfOk result (λ said. IsTrue (is_line_said said)) }
        ensures readies { Readies values.now self.old self.new result }
    {
        let copy = values.copy(self.alloc)?;
        let said = self.mirror.prepare(values);
        self.values = match said {
            Ok(Said::Yes | Said::Set(_)) => Some(copy),
            _ => None,
        };
        said
    }

    // Whether all children are to be started anew.
    fn wants_start(&self) -> bool
        ensures { result ≡ wants_start self.now }
    {
        self.values.is_some() && self.mirror.are_spent()
    }

    // Starts all children anew, where that is wanted. None is that the call goes on.
    #[tactic(auto, using(crate::proofs::Prepared::started))]
    fn start(&mut self) -> Result<Option<Said>, NoMemory>
        ensures text { IfOk result (λ said. IfSome said (λ s. IsTrue (is_line_said s))) }
        ensures starts { Starts self.old self.new result }
    {
        if !self.wants_start() {
            return Ok(None);
        }
        let Some(values) = &self.values else {
            return Ok(None);
        };
        goes_on(self.mirror.prepare(values))
    }

    /// Stores it in each child, in order, until one doesn't.
    pub fn store(&mut self, key: KeyRef<'_>, file: &str) -> Result<Said, NoMemory>
        requires key { IsTrue (is_sent_key (text_of key)) }
        requires line { IsTrue (not (has_newline file.now)) }
        ensures text { IfOk result (λ said. IsTrue (is_line_said said)) }
        ensures lasts { Lasts (Store (text_of key.entry) file.now) self.old self.new result }
    {
        match self.start()? {
            Some(said) => Ok(said),
            None => self.mirror.store(key, file),
        }
    }

    /// Retrieves it from the first child that gives it.
    pub fn retrieve(&mut self, key: KeyRef<'_>, file: &str) -> Result<Said, NoMemory>
        requires key { IsTrue (is_sent_key (text_of key)) }
        requires line { IsTrue (not (has_newline file.now)) }
        ensures text { IfOk result (λ said. IsTrue (is_line_said said)) }
        ensures lasts { Lasts (Retrieve (text_of key.entry) file.now) self.old self.new result }
    {
        match self.start()? {
            Some(said) => Ok(said),
            None => self.mirror.retrieve(key, file),
        }
    }

    /// Whether each child has it. The first that hasn't decides.
    pub fn check(&mut self, key: KeyRef<'_>) -> Result<Said, NoMemory>
        requires key { IsTrue (is_sent_key (text_of key)) }
        ensures text { IfOk result (λ said. IsTrue (is_line_said said)) }
        ensures lasts { Lasts (Check (text_of key.entry)) self.old self.new result }
    {
        match self.start()? {
            Some(said) => Ok(said),
            None => self.mirror.check(key),
        }
    }

    /// Removes it from each child, in order, until one doesn't.
    pub fn remove(&mut self, key: KeyRef<'_>) -> Result<Said, NoMemory>
        requires key { IsTrue (is_sent_key (text_of key)) }
        ensures text { IfOk result (λ said. IsTrue (is_line_said said)) }
        ensures lasts { Lasts (Remove (text_of key.entry)) self.old self.new result }
    {
        match self.start()? {
            Some(said) => Ok(said),
            None => self.mirror.remove(key),
        }
    }
}
