// Children that were stopped.
ghost use Rattle.std.specs.Prelude.{◌≡◌, ◌≤◌, ◌<◌, ◌+◌, ◌++◌, ◌∷◌, [], IfOk, length, map, option_map, slice_get, vec_capacity, vec_len};
ghost use Rattle.ann_outside.specs.Causes.{Stays};
ghost use Rattle.mirror_children.specs.Children.{AreLinked, IsLinked};
ghost use Rattle.mirror_remote.specs.Starts.Stops.{AreSoundLogs, AreWired, IsUnwired, Stops, StopsAll, log_of};

use ann_key::NoMemory;
use ann_outside::{Programs, Sink, Source};
use child_life::end::{close_child, finish, journal_of};
use child_link::Wire;
use host_core::Core;
use journal_look::Journal;
use mirror_children::Child;
use std::alloc::Global;
use std::marker::Model;

/// What is left of children that were stopped: their cores, a wire for each start that gave a child, and room for the children that
/// may be stopped yet.
#[derive(Drop)]
pub struct Stopped<I: Sink, O: Source> {
    cores: Vec<Core>,
    wires: Vec<Wire<I, O>>,
    journals: Vec<Journal>,
    spare: usize,
}

impl<I: Sink, O: Source> Model for Stopped<I, O> {
    ghost use Rattle.std.specs.Prelude.{◌≡◌, ◌≤◌, ◌+◌, map, vec_capacity, vec_len};
    ghost use Rattle.mirror_remote.specs.Starts.Stops.{AreSoundLogs, AreWired, StoppedValue, log_of};

    ghost Value = { StoppedValue };

    ghost view = { λ s. record { logs = map log_of s.cores.items; wires = s.wires.items; spare = s.spare } };

    ghost invariant = { λ s. AreSoundLogs (map log_of s.cores.items) × AreWired (map log_of s.cores.items) s.wires.items
        × (vec_len s.cores + s.spare ≤ vec_capacity s.cores) × (vec_len s.wires + s.spare ≤ vec_capacity s.wires) × (vec_len s.cores + s.spare ≤ vec_capacity s.journals) × (vec_len s.journals ≡ 0) };
}

impl<I: Sink + Drop, O: Source + Drop> Stopped<I, O> {
    /// Nothing, and room for nothing. It takes no memory.
    pub fn none(alloc: Global) -> Stopped<I, O>
        ensures { result ≡ record { logs = []; wires = []; spare = 0 } }
    {
        Stopped {
            cores: Vec::new(alloc),
            wires: Vec::new(alloc),
            journals: Vec::new(alloc),
            spare: 0,
        }
    }

    /// Nothing, and room for so many children.
    pub(crate) fn with_room(alloc: Global, children: usize) -> Result<Stopped<I, O>, NoMemory>
        ensures { IfOk result (λ s. s ≡ record { logs = []; wires = []; spare = children }) }
    {
        Ok(Stopped {
            cores: Vec::with_capacity(alloc, children)?,
            wires: Vec::with_capacity(alloc, children)?,
            journals: Vec::with_capacity(alloc, children)?,
            spare: children,
        })
    }

    /// The journal of the nth child, from 0.
    pub fn journal(&self, n: usize) -> Option<&Journal>
        ensures { option_map (λ j. j.now.entries) result ≡ slice_get (map (λ l. l.journal) self.now.logs) n }
    {
        if n < self.cores.len() {
            Some(self.cores[n].journal())
        } else {
            None
        }
    }

    /// Adds the core of a child that couldn't be started.
    pub(crate) fn add_unstarted(&mut self, core: Core)
        requires unstarted { IsUnwired (log_of core) }
        requires room { 0 < self.old.spare }
        ensures logs { self.new.logs ≡ self.old.logs ++ log_of core ∷ [] }
        ensures wires { self.new.wires ≡ self.old.wires }
    {
        self.cores.push_reserved(core);
        self.spare -= 1;
    }

    /// The journals, and the wires. It takes no memory.
    pub fn finish(self) -> (Vec<Journal>, Vec<Wire<I, O>>)
        ensures journals { map (λ j. j.entries) result.0.items ≡ map (λ l. l.journal) self.logs }
        ensures wires { result.1.items ≡ self.wires }
        ensures sound { AreSoundLogs self.logs }
        ensures wired { AreWired self.logs self.wires }
    {
        let Stopped {
            cores,
            wires,
            mut journals,
            spare: _,
        } = self;
        add_journals(cores, &mut journals);
        (journals, wires)
    }
}

// Closes the child, where it hasn't ended, and its halves, and waits for its program to end.
fn stop<P: Programs>(
    programs: &mut P,
    child: Child<P::Inlet, P::Outlet, P::Stub>,
    stopped: &mut Stopped<P::Inlet, P::Outlet>,
)
where
    P::Inlet: Drop,
    P::Outlet: Drop,
    requires linked { IsLinked child }
    requires room { 0 < stopped.old.spare }
    ensures stops { Stops child stopped.old stopped.new }
    ensures starts { Stays (P.told programs.old).starts (P.told programs.new).starts }
    ensures later { (P.told programs.old).faults ≤ (P.told programs.new).faults }
{
    let Child {
        number: _,
        mut core,
        link,
        stub,
    } = child;
    close_child(&link, &mut core);
    finish(programs, link, stub, &mut stopped.wires);
    stopped.cores.push_reserved(core);
    stopped.spare -= 1;
}

/// Stops all of them, in order.
pub fn stop_all<P: Programs>(
    programs: &mut P,
    children: Vec<Child<P::Inlet, P::Outlet, P::Stub>>,
    stopped: &mut Stopped<P::Inlet, P::Outlet>,
)
where
    P::Inlet: Drop,
    P::Outlet: Drop,
    P::Stub: Drop,
    requires linked { AreLinked children.items }
    requires room { length children.items ≤ stopped.old.spare }
    ensures stops { StopsAll children.items stopped.old stopped.new }
    ensures starts { Stays (P.told programs.old).starts (P.told programs.new).starts }
    ensures later { (P.told programs.old).faults ≤ (P.told programs.new).faults }
{
    for child in children {
        stop(programs, child, stopped);
    }
}

// Adds the journals of these cores, in order.
fn add_journals(cores: Vec<Core>, journals: &mut Vec<Journal>)
    requires room { vec_len journals.old + vec_len cores ≤ vec_capacity journals.old }
    ensures { map (λ j. j.entries) journals.new.items ≡ map (λ j. j.entries) journals.old.items ++ map (λ c. c.journal) cores.items }
{
    for core in cores {
        journals.push_reserved(journal_of(core));
    }
}
