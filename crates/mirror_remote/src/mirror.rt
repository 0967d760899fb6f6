// The mirror: a remote over children.
ghost use Rattle.std.specs.Prelude.{◌≡◌, [], not, true, false, slice_get, option_map, IfOk, IsTrue, None};
ghost use Rattle.ann_key.specs.KeyRefs.{text_of};
ghost use Rattle.annex_model.specs.Lines.{has_newline};
ghost use Rattle.annex_model.specs.Messages.{is_sent_key, Transfer, Checkpresent, Remove};
ghost use Rattle.kit_serve.specs.Kit.Calls.{are_lines, is_line_said};
ghost use Rattle.mirror_children.specs.Plan.Settings.{names};
ghost use Rattle.std.specs.List.{list_any};
ghost use Rattle.std.specs.Option.{option_copied};
ghost use Rattle.mirror_children.specs.Rule.{RulesAll, RulesCheck, RulesRetrieve};
ghost use Rattle.mirror_remote.specs.Starts.Outcomes.{Empties};
ghost use Rattle.mirror_remote.specs.Lasting.{are_spent, is_spent};
ghost use Rattle.mirror_remote.specs.Mirrors.{Begins, Finishes, IsSoundMirror, Prepares, Says, journals_of};

use crate::requests::{check_of, remove_of, transfer_of};
use crate::starts::{Standing, Stopped, start_all, stop_all};
use ann_key::{KeyRef, NoMemory};
use ann_outside::{Programs, Sink, Source};
use child_link::Wire;
use journal_look::{Journal, why_of};
use journal_model::Why;
use kit_serve::kit::{Said, Values};
use mirror_children::plan::{Plan, Plans, read_plans};
use mirror_children::{Child, ask_all, ask_any, ask_check, mirror_failure};
use std::alloc::Global;
use std::marker::Model;
use std::mem;

/// A remote that keeps each content in up to eight others, which are served by programs that it starts. A content is present where all
/// have it.
///
/// Contracts see its programs, the children of the last `prepare` where that said Yes, and what is left of its children where it didn't.
pub struct MirrorRemote<P: Programs> {
    alloc: Global,
    programs: P,
    children: Vec<Child<P::Inlet, P::Outlet, P::Stub>>,
    stopped: Stopped<P::Inlet, P::Outlet>,
}

impl<P: Programs> Model for MirrorRemote<P> {
    ghost use Rattle.mirror_remote.specs.Starts.Outcomes.{IsKept, MirrorValue, mirror_value};

    ghost Value = { MirrorValue };

    ghost view = { λ m. mirror_value (P.told m.programs) m.children.items m.stopped.logs };

    ghost invariant = { λ m. IsKept m.children.items m.stopped.spare m.stopped.logs };
}

/// What is left of a mirror: its programs; the journals of the children of the last `prepare`, in order; and a wire for each of them whose
/// program was started, in order.
pub struct Ended<P: Programs> {
    pub programs: P,
    pub journals: Vec<Journal>,
    pub wires: Vec<Wire<P::Inlet, P::Outlet>>,
}

impl<P: Programs> Model for Ended<P> {
    ghost use Rattle.std.specs.Prelude.{map};
    ghost use Rattle.mirror_remote.specs.Mirrors.{EndedValue};

    ghost Value = { EndedValue };

    ghost view = { λ e. record { programs = P.told e.programs; journals = map (λ j. j.entries) e.journals.items; wires = e.wires.items } };
}

impl<P: Programs> MirrorRemote<P>
where
    P::Inlet: Drop,
    P::Outlet: Drop,
    P::Stub: Drop,
{
    /// A mirror that isn't prepared. It takes no memory.
    pub fn new(alloc: Global, programs: P) -> MirrorRemote<P>
        ensures { result ≡ record { programs = P.told programs; children = []; logs = [] } }
    {
        MirrorRemote {
            alloc,
            programs,
            children: Vec::new(alloc),
            stopped: Stopped::none(alloc),
        }
    }

    /// The journal of the nth child of the last `prepare`, from 0. It takes no memory.
    pub fn journal(&self, n: usize) -> Option<&Journal>
        ensures { option_map (λ j. j.now.entries) result ≡ slice_get (journals_of self.now) n }
    {
        if self.children.is_empty() {
            return self.stopped.journal(n);
        }
        match self.children.get(n) {
            Some(child) => Some(child.journal()),
            None => None,
        }
    }

    /// Whether there is no child, or one of them has ended since its journal is full. It takes no memory.
    pub fn are_spent(&self) -> bool
        ensures { result ≡ are_spent self.now.children }
    {
        self.children.is_empty() || any_spent(&self.children)
    }

    /// Closes the children of the last `prepare`, and waits for their programs to end. It takes no memory.
    pub fn finish(self) -> Ended<P>
        ensures { Finishes self result }
    {
        let MirrorRemote {
            alloc: _,
            mut programs,
            children,
            mut stopped,
        } = self;
        stop_all(&mut programs, children, &mut stopped);
        let (journals, wires) = stopped.finish();
        Ended {
            programs,
            journals,
            wires,
        }
    }
}

// Stops the children of an earlier prepare, and drops what is left of them.
fn give_up<P: Programs>(mirror: &mut MirrorRemote<P>)
where
    P::Inlet: Drop,
    P::Outlet: Drop,
    P::Stub: Drop,
    ensures { Empties mirror.old mirror.new }
{
    let children = mem::replace(&mut mirror.children, Vec::new(mirror.alloc));
    let mut stopped = mem::replace(&mut mirror.stopped, Stopped::none(mirror.alloc));
    stop_all(&mut mirror.programs, children, &mut stopped);
    let (_journals, _wires) = stopped.finish();
}

// Whether the child has ended since its journal is full.
fn is_spent<I: Sink, O: Source, S>(child: &Child<I, O, S>) -> bool
    ensures { result ≡ is_spent child.now }
{
    matches!(why_of(child.journal(), 1), Some(Why::Full))
}

fn any_spent<I: Sink, O: Source, S>(children: &[Child<I, O, S>]) -> bool
    ensures { result ≡ list_any is_spent children.now }
{
    children.iter().any(|child| is_spent(child))
}

// What is said of a start that ended so.
fn answer(alloc: Global, standing: Standing) -> Result<Said, NoMemory>
    ensures says { Says standing result }
    ensures line { IfOk result (λ said. IsTrue (is_line_said said)) }
{
    match standing {
        Standing::Ready => Ok(Said::Yes),
        Standing::Unready(number) => mirror_failure(alloc, number, b"not ready"),
        Standing::NoMemory => Err(NoMemory),
    }
}

// Starts the children of these plans. Where one isn't ready, all are stopped.
fn begin<P: Programs>(mirror: &mut MirrorRemote<P>, plans: &[Plan]) -> Result<Said, NoMemory>
where
    P::Inlet: Drop,
    P::Outlet: Drop,
    P::Stub: Drop,
    requires empty { (mirror.old.children ≡ []) × (mirror.old.logs ≡ []) }
    ensures begins { Begins plans.now mirror.old mirror.new result }
    ensures sound { IsSoundMirror mirror.new }
    ensures line { IfOk result (λ said. IsTrue (is_line_said said)) }
{
    if plans.is_empty() {
        return Said::failure(mirror.alloc, b"no mirrors");
    }
    let standing = start_all(
        mirror.alloc,
        &mut mirror.programs,
        plans,
        &mut mirror.children,
        &mut mirror.stopped,
    );
    answer(mirror.alloc, standing)
}

// These are the calls of a remote. They aren't a `Remote`'s, since no trait's method can hand on a bound whose halves may go to a thread:
// a program makes it one over the programs that it has.
impl<P: Programs> MirrorRemote<P>
where
    P::Inlet: Drop,
    P::Outlet: Drop,
    P::Stub: Drop,
{
    /// The name of the setting of that number, from 0; None ends them.
    pub fn setting(&self, n: u32) -> Option<&str>
        ensures { option_copied result ≡ slice_get names n }
    {
        match n {
            0 => Some("mirror1"),
            1 => Some("mirror2"),
            2 => Some("mirror3"),
            3 => Some("mirror4"),
            4 => Some("mirror5"),
            5 => Some("mirror6"),
            6 => Some("mirror7"),
            7 => Some("mirror8"),
            _ => None,
        }
    }

    /// Stops the children of an earlier `prepare`, and starts those that the settings ask for. After a failure, or without memory, no child
    /// is left.
    pub fn prepare(&mut self, values: &Values) -> Result<Said, NoMemory>
        requires lines { IsTrue (are_lines values.now) }
        ensures text { IfOk result (λ said. IsTrue (is_line_said said)) }
        ensures prepares { Prepares values.now self.old self.new result }
        ensures sound { IsSoundMirror self.new }
    {
        give_up(self);
        let asked = read_plans(self.alloc, values.view())?;
        match asked {
            Plans::Bad(number) => mirror_failure(self.alloc, number, b"bad setting"),
            Plans::Asked(plans) => begin(self, &plans),
        }
    }

    /// Stores it in each child, in order, until one doesn't.
    pub fn store(&mut self, key: KeyRef<'_>, file: &str) -> Result<Said, NoMemory>
        requires key { IsTrue (is_sent_key (text_of key)) }
        requires line { IsTrue (not (has_newline file.now)) }
        ensures text { IfOk result (λ said. IsTrue (is_line_said said)) }
        ensures rule { RulesAll (Transfer true (text_of key.entry) file.now) self.old.children self.new.children result }
        ensures rest { (self.new.logs ≡ self.old.logs) × (self.new.programs ≡ self.old.programs) }
        ensures sound { IsSoundMirror self.new }
    {
        let request = transfer_of(self.alloc, true, key, file)?;
        ask_all(self.alloc, &mut self.children, &request)
    }

    /// Retrieves it from the first child that gives it.
    pub fn retrieve(&mut self, key: KeyRef<'_>, file: &str) -> Result<Said, NoMemory>
        requires key { IsTrue (is_sent_key (text_of key)) }
        requires line { IsTrue (not (has_newline file.now)) }
        ensures text { IfOk result (λ said. IsTrue (is_line_said said)) }
        ensures rule { RulesRetrieve (Transfer false (text_of key.entry) file.now) self.old.children self.new.children result }
        ensures rest { (self.new.logs ≡ self.old.logs) × (self.new.programs ≡ self.old.programs) }
        ensures sound { IsSoundMirror self.new }
    {
        let request = transfer_of(self.alloc, false, key, file)?;
        ask_any(self.alloc, &mut self.children, &request)
    }

    /// Whether each child has it. The first that hasn't decides.
    pub fn check(&mut self, key: KeyRef<'_>) -> Result<Said, NoMemory>
        requires key { IsTrue (is_sent_key (text_of key)) }
        ensures text { IfOk result (λ said. IsTrue (is_line_said said)) }
        ensures rule { RulesCheck (Checkpresent (text_of key.entry)) self.old.children self.new.children result }
        ensures rest { (self.new.logs ≡ self.old.logs) × (self.new.programs ≡ self.old.programs) }
        ensures sound { IsSoundMirror self.new }
    {
        let request = check_of(self.alloc, key)?;
        ask_check(self.alloc, &mut self.children, &request)
    }

    /// Removes it from each child, in order, until one doesn't.
    pub fn remove(&mut self, key: KeyRef<'_>) -> Result<Said, NoMemory>
        requires key { IsTrue (is_sent_key (text_of key)) }
        ensures text { IfOk result (λ said. IsTrue (is_line_said said)) }
        ensures rule { RulesAll (Remove (text_of key.entry)) self.old.children self.new.children result }
        ensures rest { (self.new.logs ≡ self.old.logs) × (self.new.programs ≡ self.old.programs) }
        ensures sound { IsSoundMirror self.new }
    {
        let request = remove_of(self.alloc, key)?;
        ask_all(self.alloc, &mut self.children, &request)
    }
}
