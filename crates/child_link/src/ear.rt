// An ear reads what a child says, and feeds it to the core line by line.
ghost use Rattle.std.specs.Prelude.{◌≡◌, ◌≢◌, ◌<◌, ◌≤◌, [], true, false, not, length, IsTrue, IsFalse, IfSome};
ghost use Rattle.journal_model.specs.declared.verdict.Why.TheVariants.{Eof, ReadFault};
ghost use Rattle.host_core.specs.declared.event.Event.TheVariants.{Listen};
ghost use Rattle.host_core.specs.declared.event.Reply.TheVariants.{Wait, Over};
ghost use Rattle.journal_model.specs.Journal.{is_started, is_ended, has_spoken};
ghost use Rattle.journal_model.specs.Limits.{longest_line};
ghost use Rattle.journal_model.specs.Wires.{may_hear};
ghost use Rattle.wire_line.specs.HeldBytes.{has_line, first_line, TakesLine};
ghost use Rattle.child_link.specs.Doors.{Between, During, IsSameDoor};
ghost use Rattle.journal_model.specs.Halves.{IsSameEar};
ghost use Rattle.child_link.specs.Firsts.{IsFirst};
ghost use Rattle.child_link.specs.Fills.{Fills, ReadsOn, ear_value, is_got, GrowsBy};
ghost use Rattle.child_link.specs.Hearings.{IsLong, by_long, IsFeeding, IsHearing, IsNextFed, IsAllFed, IsTurned};
ghost use Rattle.child_link.specs.Moves.{EarMoved, FeedMoved, TurnMoved};
ghost use Rattle.child_link.specs.Asks.{Grows};
ghost use Rattle.child_link.specs.Events.{Says};

use crate::door::Door;
use crate::events::{self, Listening};
use ann_key::{Bytes, NoMemory};
use ann_outside::{Failed, Source};
use journal_model::Why;
use std::alloc::Global;
use std::marker::Model;
use wire_line::{Next, Splitter};

/// The longest line that a child may say, in bytes.
pub const LONGEST_LINE: usize = 65536;

/// How much is read of a child at once, in bytes.
pub const READ_SIZE: usize = 4096;

/// What reads a child's output. Contracts see of it what it read, and not its outlet.
#[derive(Drop)]
pub struct Ear<O: Source> {
    alloc: Global,
    child: u32,
    pub(super) outlet: O,
    splitter: Splitter,
}

impl<O: Source> Model for Ear<O> {
    ghost use Rattle.std.specs.Prelude.{◌≡◌, true};
    ghost use Rattle.journal_model.specs.Limits.{longest_line};
    ghost use Rattle.journal_model.specs.Halves.{EarValue};
    ghost use Rattle.child_link.specs.Fills.{ear_value};

    ghost Value = { EarValue };

    ghost view = { λ s. ear_value s.child (O.told s.outlet) s.splitter.bytes };

    ghost invariant = { λ s. ((O.told s.outlet).is_open ≡ true) × (s.splitter.limit ≡ longest_line) };
}

/// What a turn of a role came to.
#[derive(Clone, Copy, PartialEq, Eq)]
pub enum Turn {
    /// There may be more to do.
    Again,
    /// There is nothing to do until the journal has grown.
    Rest,
    /// There is nothing more to do.
    Over,
}

// What stands first in what an ear holds.
enum Held {
    Line(Bytes),
    Long,
    More,
    NoRoom,
}

// What hearing came to.
#[derive(Clone, Copy, PartialEq, Eq)]
pub(super) enum Heard {
    // A line was fed.
    Fed,
    // More was read, maybe.
    Read,
    // The child has ended.
    Over,
}

// What came of one read.
#[derive(Clone, Copy, PartialEq, Eq)]
enum Fill {
    Got,
    End,
    Fault,
    NoRoom,
}

impl<O: Source> Ear<O> {
    /// An ear that has read nothing. It takes no memory.
    pub fn new(alloc: Global, child: u32, outlet: O) -> Ear<O>
        requires { (O.told outlet).is_open ≡ true }
        ensures { result ≡ ear_value child (O.told outlet) [] }
    {
        Ear {
            alloc,
            child,
            outlet,
            splitter: Splitter::new(alloc, LONGEST_LINE),
        }
    }

    /// The child's number.
    pub fn child(&self) -> u32
        ensures { result ≡ self.now.child }
    {
        self.child
    }

    pub(super) fn alloc(&self) -> Global {
        self.alloc
    }

    /// Closes the outlet, and hands it out with what was read and not fed. It takes no memory.
    pub fn finish(self) -> (O, Bytes)
        ensures given { (O.told result.0).given ≡ self.given }
        ensures left { (O.told result.0).left ≡ self.left }
        ensures faults { (O.told result.0).faults ≡ self.faults }
        ensures number { (O.told result.0).number ≡ self.number }
        ensures closed { (O.told result.0).is_open ≡ false }
        ensures rest { result.1 ≡ self.held }
    {
        let Ear {
            alloc: _,
            child: _,
            mut outlet,
            splitter,
        } = self;
        outlet.close();
        (outlet, splitter.rest())
    }
}

impl<O: Source> Ear<O> {
    // What stands first, as a copy that can be fed.
    fn first(&self) -> Held
        ensures { IsFirst self.now.held result }
    {
        match self.splitter.first() {
            Next::Line(line) => match Bytes::copy(self.alloc, line) {
                Ok(line) => Held::Line(line),
                Err(NoMemory) => Held::NoRoom,
            },
            Next::Long => Held::Long,
            Next::More => Held::More,
        }
    }

    // Takes the first line away.
    fn drop_line(&mut self)
        requires { IsTrue (has_line longest_line self.old.held) }
        ensures same { self.new ≡ record self.old { held = self.new.held } }
        ensures cut { TakesLine self.old.held (first_line self.old.held) self.new.held }
        ensures fewer { length self.new.held < length self.old.held }
    {
        self.splitter.drop_line();
    }

    // One read of the outlet.
    fn fill(&mut self) -> Fill
        ensures fills { Fills self.old self.new }
        ensures kept { is_got result ≡ false → self.new.held ≡ self.old.held }
        ensures more { result ≡ Fill.Got → GrowsBy 4096 self.old.held self.new.held }
        ensures end { result ≡ Fill.End → IfSome self.new.left (λ bytes. bytes ≡ []) }
        ensures fault { result ≡ Fill.Fault → 0 < self.new.faults }
    {
        read_into(&mut self.splitter, &mut self.outlet)
    }

    // Feeds the first line, and takes it away. Where it isn't taken, or there is no memory, the line stays and the child has ended.
    fn feed<D: Door>(&mut self, door: &mut D, line: Bytes) -> bool
        requires started { is_started (D.view door.old).seen self.old.child ≡ true }
        requires line { IsTrue (has_line longest_line self.old.held) × (line ≡ first_line self.old.held) }
        ensures moved { During EarMoved (D.view door.old) (D.view door.new) self.old self.new }
        ensures turned { During FeedMoved (D.view door.old) (D.view door.new) self.old.child }
        ensures same { IsSameEar self.old self.new }
        ensures over { IsFalse result → is_ended (D.view door.new).seen self.old.child ≡ true }
        ensures came { Between IsFeeding (D.view door.old) (D.view door.new) self.old self.new result }
        ensures door { IsSameDoor (D.view door.old) (D.view door.new) }
    {
        let child = self.child();
        match events::got(door, child, line) {
            Ok(true) => {
                self.drop_line();
                true
            }
            Ok(false) => false,
            Err(NoMemory) => {
                events::stop(door, child, Why::Memory);
                false
            }
        }
    }

    // Reads once, where no line stands first. At the end of the output, a fault, or where memory runs out, the child ends.
    fn read<D: Door>(&mut self, door: &mut D) -> Heard
        requires started { is_started (D.view door.old).seen self.old.child ≡ true }
        requires live { is_ended (D.view door.old).seen self.old.child ≡ false }
        requires more { IsTrue (not (has_line longest_line self.old.held)) × (length self.old.held ≤ longest_line) }
        ensures moved { During EarMoved (D.view door.old) (D.view door.new) self.old self.new }
        ensures turned { During TurnMoved (D.view door.old) (D.view door.new) self.old.child }
        ensures same { IsSameEar self.old self.new }
        ensures heard { Between IsHearing (D.view door.old) (D.view door.new) self.old self.new result }
        ensures over { result ≡ Heard.Over → is_ended (D.view door.new).seen self.old.child ≡ true }
        ensures door { IsSameDoor (D.view door.old) (D.view door.new) }
    {
        let child = self.child();
        match self.fill() {
            Fill::Got => return Heard::Read,
            Fill::End => events::stop(door, child, Why::Eof),
            Fill::Fault => events::stop(door, child, Why::ReadFault),
            Fill::NoRoom => events::stop(door, child, Why::Memory),
        }
        Heard::Over
    }

    // Feeds one line, or reads once where none stands first.
    pub(super) fn hear<D: Door>(&mut self, door: &mut D) -> Heard
        requires started { is_started (D.view door.old).seen self.old.child ≡ true }
        requires live { is_ended (D.view door.old).seen self.old.child ≡ false }
        requires turn { may_hear (D.view door.old).seen self.old.child ≡ true }
        ensures moved { During EarMoved (D.view door.old) (D.view door.new) self.old self.new }
        ensures turned { During TurnMoved (D.view door.old) (D.view door.new) self.old.child }
        ensures same { IsSameEar self.old self.new }
        ensures heard { Between IsHearing (D.view door.old) (D.view door.new) self.old self.new result }
        ensures over { result ≡ Heard.Over → is_ended (D.view door.new).seen self.old.child ≡ true }
        ensures fed { result ≡ Heard.Fed → has_spoken (D.view door.new).seen self.old.child ≡ true }
        ensures door { IsSameDoor (D.view door.old) (D.view door.new) }
    {
        let child = self.child();
        match self.first() {
            Held::Line(line) => {
                if self.feed(door, line) {
                    Heard::Fed
                } else {
                    Heard::Over
                }
            }
            Held::More => self.read(door),
            Held::Long => {
                events::stop(door, child, Why::LongLine);
                Heard::Over
            }
            Held::NoRoom => {
                events::stop(door, child, Why::Memory);
                Heard::Over
            }
        }
    }

    // Feeds one line where one is held whole.
    fn feed_next<D: Door>(&mut self, door: &mut D) -> bool
        requires started { is_started (D.view door.old).seen self.old.child ≡ true }
        ensures next { IsNextFed self.old self.new (D.view door.new).seen result }
        ensures moved { During EarMoved (D.view door.old) (D.view door.new) self.old self.new }
        ensures same { IsSameEar self.old self.new }
        ensures door { IsSameDoor (D.view door.old) (D.view door.new) }
    {
        let child = self.child();
        match self.first() {
            Held::Line(line) => self.feed(door, line),
            Held::More => false,
            Held::Long => false,
            Held::NoRoom => {
                events::stop(door, child, Why::Memory);
                false
            }
        }
    }

    // Feeds the lines that are held whole.
    fn feed_all<D: Door>(&mut self, door: &mut D)
        requires started { is_started (D.view door.old).seen self.old.child ≡ true }
        ensures all { IsAllFed self.old self.new (D.view door.new).seen }
        ensures moved { During EarMoved (D.view door.old) (D.view door.new) self.old self.new }
        ensures same { IsSameEar self.old self.new }
        ensures door { IsSameDoor (D.view door.old) (D.view door.new) }
    {
        while self.feed_next(door) {}
    }

    /// Where a line of the child is due or may be, feeds all lines that are held whole, or reads once where none is. Where
    /// there is no memory, or the child is at its end, the child ends.
    pub fn turn<D: Door>(&mut self, door: &mut D) -> Turn
        requires started { is_started (D.view door.old).seen self.old.child ≡ true }
        ensures moved { During EarMoved (D.view door.old) (D.view door.new) self.old self.new }
        ensures same { IsSameEar self.old self.new }
        ensures turned { IsTurned self.old self.new (D.view door.new).seen result }
        ensures long { IsLong self.old.held → Grows (D.view door.old).number (D.view door.old).alone (by_long self.old.child) (D.view door.old).seen (D.view door.new).seen }
        ensures rest { result ≡ Turn.Rest → Says (D.view door.old).opening (D.view door.old).number (D.view door.new).seen (Listen self.old.child) Wait }
        ensures over { result ≡ Turn.Over → Says (D.view door.old).opening (D.view door.old).number (D.view door.new).seen (Listen self.old.child) Over }
        ensures door { IsSameDoor (D.view door.old) (D.view door.new) }
    {
        let child = self.child();
        match events::listen(door, child) {
            Listening::Rest => Turn::Rest,
            Listening::Over => Turn::Over,
            Listening::Read => self.hear_all(door),
        }
    }

    // Feeds all lines that are held whole, or reads once where none is.
    fn hear_all<D: Door>(&mut self, door: &mut D) -> Turn
        requires started { is_started (D.view door.old).seen self.old.child ≡ true }
        requires live { is_ended (D.view door.old).seen self.old.child ≡ false }
        requires turn { may_hear (D.view door.old).seen self.old.child ≡ true }
        ensures moved { During EarMoved (D.view door.old) (D.view door.new) self.old self.new }
        ensures same { IsSameEar self.old self.new }
        ensures turned { IsTurned self.old self.new (D.view door.new).seen result }
        ensures long { IsLong self.old.held → Grows (D.view door.old).number (D.view door.old).alone (by_long self.old.child) (D.view door.old).seen (D.view door.new).seen }
        ensures rest { result ≢ Turn.Rest }
        ensures over { result ≡ Turn.Over → is_ended (D.view door.new).seen self.old.child ≡ true }
        ensures door { IsSameDoor (D.view door.old) (D.view door.new) }
    {
        match self.hear(door) {
            Heard::Fed => {
                self.feed_all(door);
                Turn::Again
            }
            Heard::Read => Turn::Again,
            Heard::Over => Turn::Over,
        }
    }

    // One turn, and a rest where there is nothing to do.
    fn go_on<D: Door>(&mut self, door: &mut D) -> bool
        requires started { is_started (D.view door.old).seen self.old.child ≡ true }
        ensures moved { During EarMoved (D.view door.old) (D.view door.new) self.old self.new }
        ensures same { IsSameEar self.old self.new }
        ensures over { IsFalse result → Says (D.view door.old).opening (D.view door.old).number (D.view door.new).seen (Listen self.old.child) Over }
        ensures door { IsSameDoor (D.view door.old) (D.view door.new) }
    {
        match self.turn(door) {
            Turn::Again => true,
            Turn::Rest => {
                door.rest();
                true
            }
            Turn::Over => false,
        }
    }

    /// Turns until there is nothing more to do.
    pub fn run<D: Door>(&mut self, door: &mut D)
        requires started { is_started (D.view door.old).seen self.old.child ≡ true }
        ensures moved { During EarMoved (D.view door.old) (D.view door.new) self.old self.new }
        ensures same { IsSameEar self.old self.new }
        ensures over { Says (D.view door.old).opening (D.view door.old).number (D.view door.new).seen (Listen self.old.child) Over }
        ensures door { IsSameDoor (D.view door.old) (D.view door.new) }
    {
        for _ in 0..u64::MAX {
            if !self.go_on(door) {
                return;
            }
        }
        let child = self.child();
        events::stop(door, child, Why::Memory);
    }
}

// Room is taken before the read for all that it may give, so that no byte is lost.
fn read_into<O: Source>(splitter: &mut Splitter, outlet: &mut O) -> Fill
    requires open { (O.told outlet.old).is_open ≡ true }
    ensures open { (O.told outlet.new).is_open ≡ true }
    ensures limit { splitter.new.limit ≡ splitter.old.limit }
    ensures reads { ReadsOn (O.told outlet.old).given (O.told outlet.new).given splitter.old.bytes splitter.new.bytes }
    ensures kept { is_got result ≡ false → splitter.new.bytes ≡ splitter.old.bytes }
    ensures more { result ≡ Fill.Got → GrowsBy 4096 splitter.old.bytes splitter.new.bytes }
    ensures end { result ≡ Fill.End → IfSome (O.told outlet.new).left (λ bytes. bytes ≡ []) }
    ensures fault { result ≡ Fill.Fault → 0 < (O.told outlet.new).faults }
    ensures number { (O.told outlet.new).number ≡ (O.told outlet.old).number }
{
    if splitter.reserve(READ_SIZE).is_err() {
        return Fill::NoRoom;
    }
    let mut buf = [0u8; READ_SIZE];
    match outlet.read(&mut buf) {
        Ok(0) => Fill::End,
        Ok(n) => match splitter.push(&buf[..n]) {
            Ok(()) => Fill::Got,
            Err(NoMemory) => unreachable!(),
        },
        Err(Failed) => Fill::Fault,
    }
}
