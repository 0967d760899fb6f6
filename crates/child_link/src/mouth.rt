// A mouth writes to a child what the core has for it.
ghost use Rattle.std.specs.Prelude.{◌≡◌, ◌<◌, ℕ, true, false, take, None, IsFalse, OnOk, OnErr};
ghost use Rattle.journal_model.specs.declared.verdict.Why.TheVariants.{Memory};
ghost use Rattle.std.specs.Io.KnownBytes.{Appends};
ghost use Rattle.host_core.specs.declared.event.Event.TheVariants.{Fetch};
ghost use Rattle.host_core.specs.declared.event.Reply.TheVariants.{Wait, Over};
ghost use Rattle.journal_model.specs.Journal.{is_started, is_ended};
ghost use Rattle.child_link.specs.Doors.{Between, During, Ends, IsSameDoor};
ghost use Rattle.journal_model.specs.Halves.{IsSameMouth};
ghost use Rattle.child_link.specs.Moves.{MouthMoved};
ghost use Rattle.child_link.specs.Events.{Says, IsNextLine};
ghost use Rattle.child_link.specs.Writings.{IsSpeaking, IsWriting, mouth_value};

use crate::door::Door;
use crate::ear::Turn;
use crate::events::{self, Fetched};
use ann_key::{Bytes, NoMemory};
use ann_outside::{Failed, Sink, write_all};
use journal_model::Why;
use std::marker::Model;

// Writes the whole line to the inlet.
fn write<I: Sink>(inlet: &mut I, line: &[u8]) -> Result<(), Failed>
    requires { (I.told inlet.old).is_open ≡ true }
    ensures ok { OnOk result (Appends (I.told inlet.old).taken (I.told inlet.new).taken line.now) }
    ensures prefix { (n : ℕ) × Appends (I.told inlet.old).taken (I.told inlet.new).taken (take n line.now) }
    ensures silent { (I.told inlet.old).taken ≡ None → (I.told inlet.new).taken ≡ None }
    ensures err { OnErr result (0 < (I.told inlet.new).faults) }
    ensures open { (I.told inlet.new).is_open ≡ true }
    ensures number { (I.told inlet.new).number ≡ (I.told inlet.old).number }
{
    write_all(inlet, line)
}

// Writes the next line of the child to its inlet, and tells the core what came of it.
fn send<I: Sink, D: Door>(inlet: &mut I, door: &mut D, child: u32, line: &Bytes)
    requires open { (I.told inlet.old).is_open ≡ true }
    requires started { is_started (D.view door.old).seen child ≡ true }
    requires next { IsNextLine (D.view door.old).seen child line.now }
    ensures writing { Between IsWriting (D.view door.old) (D.view door.new)
        (mouth_value child (I.told inlet.old)) (mouth_value child (I.told inlet.new)) line.now }
    ensures moved { During MouthMoved (D.view door.old) (D.view door.new)
        (mouth_value child (I.told inlet.old)) (mouth_value child (I.told inlet.new)) }
    ensures open { (I.told inlet.new).is_open ≡ true }
    ensures number { (I.told inlet.new).number ≡ (I.told inlet.old).number }
    ensures door { IsSameDoor (D.view door.old) (D.view door.new) }
{
    let bytes = line.view();
    match write(inlet, bytes) {
        Ok(()) => events::sent(door, child),
        Err(Failed) => events::mute(door, child),
    }
}

// Ends the child for lack of memory and closes its inlet, so that it finds its input at an end: an ear may be waiting in a read for
// what it says. The end is in the journal first.
fn end_child<I: Sink, D: Door>(inlet: &mut I, door: &mut D, child: u32)
    requires open { (I.told inlet.old).is_open ≡ true }
    requires started { is_started (D.view door.old).seen child ≡ true }
    ensures closed { (I.told inlet.new).is_open ≡ false }
    ensures same { mouth_value child (I.told inlet.new) ≡ mouth_value child (I.told inlet.old) }
    ensures ends { Between Ends (D.view door.old) (D.view door.new) child Memory }
    ensures over { is_ended (D.view door.new).seen child ≡ true }
    ensures door { IsSameDoor (D.view door.old) (D.view door.new) }
{
    events::stop(door, child, Why::Memory);
    inlet.close();
}

/// What writes a child's input. Contracts see of it what was written, and not its inlet, which is open until the mouth gives up for
/// lack of memory.
#[derive(Drop)]
pub struct Mouth<I: Sink> {
    child: u32,
    inlet: I,
    // It gave up, and its inlet is closed.
    closed: bool,
}

impl<I: Sink> Model for Mouth<I> {
    ghost use Rattle.std.specs.Prelude.{◌≡◌, not};
    ghost use Rattle.journal_model.specs.Halves.{MouthValue};
    ghost use Rattle.child_link.specs.Writings.{mouth_value};

    ghost Value = { MouthValue };

    ghost view = { λ s. mouth_value s.child (I.told s.inlet) };

    ghost invariant = { λ s. (I.told s.inlet).is_open ≡ not s.closed };
}

impl<I: Sink> Mouth<I> {
    /// A mouth that has written nothing. It takes no memory.
    pub fn new(child: u32, inlet: I) -> Mouth<I>
        requires { (I.told inlet).is_open ≡ true }
        ensures { result ≡ mouth_value child (I.told inlet) }
    {
        Mouth {
            child,
            inlet,
            closed: false,
        }
    }

    /// The child's number.
    pub fn child(&self) -> u32
        ensures { result ≡ self.now.child }
    {
        self.child
    }

    /// Closes the inlet, where it is open still, and hands it out. It takes no memory.
    pub fn finish(self) -> I
        ensures taken { (I.told result).taken ≡ self.taken }
        ensures faults { (I.told result).faults ≡ self.faults }
        ensures number { (I.told result).number ≡ self.number }
        ensures closed { (I.told result).is_open ≡ false }
    {
        let Mouth {
            child: _,
            mut inlet,
            closed,
        } = self;
        if !closed {
            inlet.close();
        }
        inlet
    }
}

impl<I: Sink> Mouth<I> {
    // Ends the child for lack of memory, and closes its inlet, unless that was done before.
    fn give_up<D: Door>(&mut self, door: &mut D)
        requires started { is_started (D.view door.old).seen self.old.child ≡ true }
        ensures same { self.new ≡ self.old }
        ensures ends { Between Ends (D.view door.old) (D.view door.new) self.old.child Memory }
        ensures over { is_ended (D.view door.new).seen self.old.child ≡ true }
        ensures door { IsSameDoor (D.view door.old) (D.view door.new) }
    {
        if self.closed {
            events::stop(door, self.child, Why::Memory);
        } else {
            end_child(&mut self.inlet, door, self.child);
            self.closed = true;
        }
    }

    /// Writes the next line to the child, where there is one. Where there is no memory the child ends, and its inlet is closed.
    pub fn turn<D: Door>(&mut self, door: &mut D) -> Turn
        requires started { is_started (D.view door.old).seen self.old.child ≡ true }
        ensures moved { During MouthMoved (D.view door.old) (D.view door.new) self.old self.new }
        ensures same { IsSameMouth self.old self.new }
        ensures turned { Between IsSpeaking (D.view door.old) (D.view door.new) self.old self.new result }
        ensures rest { result ≡ Turn.Rest → Says (D.view door.old).opening (D.view door.old).number (D.view door.new).seen (Fetch self.old.child) Wait }
        ensures over { result ≡ Turn.Over → Says (D.view door.old).opening (D.view door.old).number (D.view door.new).seen (Fetch self.old.child) Over }
        ensures door { IsSameDoor (D.view door.old) (D.view door.new) }
    {
        if self.closed {
            self.give_up(door);
            return Turn::Over;
        }
        match events::fetch(door, self.child) {
            Ok(Fetched::Line(line)) => {
                send(&mut self.inlet, door, self.child, &line);
                Turn::Again
            }
            Ok(Fetched::Rest) => Turn::Rest,
            Ok(Fetched::Over) => Turn::Over,
            Err(NoMemory) => {
                self.give_up(door);
                Turn::Over
            }
        }
    }

    // One turn, and a rest where there is nothing to do.
    fn go_on<D: Door>(&mut self, door: &mut D) -> bool
        requires started { is_started (D.view door.old).seen self.old.child ≡ true }
        ensures moved { During MouthMoved (D.view door.old) (D.view door.new) self.old self.new }
        ensures same { IsSameMouth self.old self.new }
        ensures over { IsFalse result → Says (D.view door.old).opening (D.view door.old).number (D.view door.new).seen (Fetch self.old.child) Over }
        ensures door { IsSameDoor (D.view door.old) (D.view door.new) }
    {
        match self.turn(door) {
            Turn::Again => true,
            Turn::Rest => {
                door.rest();
                true
            }
            Turn::Over => false,
        }
    }

    /// Turns until there is nothing more to do. Where there is no memory the child ends, and its inlet is closed.
    pub fn run<D: Door>(&mut self, door: &mut D)
        requires started { is_started (D.view door.old).seen self.old.child ≡ true }
        ensures moved { During MouthMoved (D.view door.old) (D.view door.new) self.old self.new }
        ensures same { IsSameMouth self.old self.new }
        ensures over { Says (D.view door.old).opening (D.view door.old).number (D.view door.new).seen (Fetch self.old.child) Over }
        ensures door { IsSameDoor (D.view door.old) (D.view door.new) }
    {
        for _ in 0..u64::MAX {
            if !self.go_on(door) {
                return;
            }
        }
        self.give_up(door);
    }
}
