// The link to one child that one thread has: it asks, reads, feeds and writes.
ghost use Rattle.std.specs.Prelude.{◌≡◌, ◌≢◌, ◌<◌, ◌^◌, true, false, IsTrue, Some, None, [], OnErr, IfOk, IfNone};
ghost use Rattle.journal_model.specs.Journal.{is_started, is_ended, why_of, verdict_of};
ghost use Rattle.journal_model.specs.Legality.{Legal, said_version};
ghost use Rattle.journal_model.specs.Projection.{IsNamed};
ghost use Rattle.host_core.specs.Steps.{is_asked, is_named_well, may_request};
ghost use Rattle.host_talk.specs.Request.Requests.{message_of, name_of};
ghost use Rattle.child_link.specs.Doors.{Between, During, IsSameDoor, Passed, Ends};
ghost use Rattle.journal_model.specs.declared.verdict.Why.TheVariants.{Memory};
ghost use Rattle.child_link.specs.Asks.{HasHeardOut, HeardNext, HeardOn, IsSettling, HasBegun};
ghost use Rattle.child_link.specs.Moves.{AskMoved, LinkMoved, LoneMoved, LoneHears, IsSameLink};
ghost use Rattle.child_link.specs.Wires.{IsLeft};
ghost use Rattle.child_link.specs.Fills.{ear_value};
ghost use Rattle.child_link.specs.Writings.{mouth_value};

use crate::door::Door;
use crate::ear::{Ear, Heard, Turn};
use crate::events::{self, Asked, Listening};
use crate::mouth::Mouth;
use crate::wire::Wire;
use ann_key::NoMemory;
use ann_outside::{Sink, Source};
use host_talk::request::Request;
use journal_model::{Verdict, Why};
use std::alloc::Global;

/// The link to one child: an ear and a mouth of one thread.
#[derive(Drop)]
pub struct Lone<I: Sink, O: Source> {
    pub ear: Ear<O>,
    pub mouth: Mouth<I>,
    ghost one_child: { mouth.child ≡ ear.child },
}

impl<I: Sink, O: Source> Lone<I, O> {
    /// A link of both halves, which are of one child. It takes no memory.
    pub fn whole(ear: Ear<O>, mouth: Mouth<I>) -> Lone<I, O>
        requires { mouth.child ≡ ear.child }
        ensures { (result.ear ≡ ear) × (result.mouth ≡ mouth) }
    {
        Lone { ear, mouth }
    }

    /// Both halves. It takes no memory.
    pub fn part(self) -> (Ear<O>, Mouth<I>)
        ensures { (result.0 ≡ self.ear) × (result.1 ≡ self.mouth) × (result.1.child ≡ result.0.child) }
    {
        let Lone { ear, mouth } = self;
        (ear, mouth)
    }

    /// The child's number.
    pub fn child(&self) -> u32
        ensures { result ≡ self.now.ear.child }
    {
        self.ear.child()
    }
}

impl<I: Sink, O: Source> Lone<I, O> {
    /// A link that has read and written nothing. It takes no memory.
    pub fn new(alloc: Global, child: u32, inlet: I, outlet: O) -> Lone<I, O>
        requires inlet { (I.told inlet).is_open ≡ true }
        requires outlet { (O.told outlet).is_open ≡ true }
        ensures ear { result.ear ≡ ear_value child (O.told outlet) [] }
        ensures mouth { result.mouth ≡ mouth_value child (I.told inlet) }
    {
        Lone {
            ear: Ear::new(alloc, child, outlet),
            mouth: Mouth::new(child, inlet),
        }
    }

    /// Closes both halves, the inlet first, so that a child which still writes finds its input at an end before its output breaks.
    /// Hands them out with what was read and not fed. It takes no memory.
    pub fn finish(self) -> Wire<I, O>
        ensures { IsLeft self.ear self.mouth result }
    {
        let child = self.child();
        let Lone { ear, mouth } = self;
        let inlet = mouth.finish();
        let (outlet, rest) = ear.finish();
        Wire {
            child,
            inlet,
            outlet,
            rest,
        }
    }

    /// Why the child ended, if it did. It takes no memory.
    pub fn why_ended<D: Door>(&self, door: &mut D) -> Option<Why>
        requires started { is_started (D.view door.old).seen self.now.ear.child ≡ true }
        ensures why { result ≡ why_of (D.view door.new).seen self.now.ear.child }
        ensures passed { During Passed (D.view door.old) (D.view door.new) }
        ensures door { IsSameDoor (D.view door.old) (D.view door.new) }
    {
        events::why_ended(door, self.child())
    }
}

// Where a job stands on the way to its verdict.
enum Settling {
    Settled(Verdict),
    Again,
    Over,
}

impl<I: Sink, O: Source> Lone<I, O> {
    // Feeds one line or reads once. True where the child has said a line or has ended.
    fn hear_first<D: Door>(&mut self, door: &mut D) -> bool
        requires started { is_started (D.view door.old).seen self.old.ear.child ≡ true }
        ensures moved { During LinkMoved (D.view door.old) (D.view door.new) self.old.ear self.new.ear self.old.mouth self.new.mouth }
        ensures same { IsSameLink self.old.ear self.new.ear self.old.mouth self.new.mouth }
        ensures begun { IsTrue result → HasBegun (D.view door.new).seen self.old.ear.child }
        ensures door { IsSameDoor (D.view door.old) (D.view door.new) }
    {
        let child = self.child();
        match events::listen(door, child) {
            Listening::Rest => true,
            Listening::Over => true,
            Listening::Read => match self.ear.hear(door) {
                Heard::Read => false,
                Heard::Fed => true,
                Heard::Over => true,
            },
        }
    }

    // Reads until the child has said a line or has ended.
    fn hear_line<D: Door>(&mut self, door: &mut D)
        requires started { is_started (D.view door.old).seen self.old.ear.child ≡ true }
        ensures moved { During LinkMoved (D.view door.old) (D.view door.new) self.old.ear self.new.ear self.old.mouth self.new.mouth }
        ensures same { IsSameLink self.old.ear self.new.ear self.old.mouth self.new.mouth }
        ensures begun { HasBegun (D.view door.new).seen self.old.ear.child }
        ensures door { IsSameDoor (D.view door.old) (D.view door.new) }
    {
        for _ in 0..u64::MAX {
            if self.hear_first(door) {
                return;
            }
        }
        self.give_up(door);
    }

    /// Reads and feeds the first line alone. None where that line says `VERSION` with number 1; else the child has ended,
    /// and this is why.
    pub fn hear_version<D: Door>(&mut self, door: &mut D) -> Option<Why>
        requires started { is_started (D.view door.old).seen self.old.ear.child ≡ true }
        requires legal { Legal (D.view door.old).opening (D.view door.old).seen }
        ensures why { result ≡ why_of (D.view door.new).seen self.old.ear.child }
        ensures version { IfNone result (said_version (D.view door.new).seen self.old.ear.child ≡ true) }
        ensures moved { During LinkMoved (D.view door.old) (D.view door.new) self.old.ear self.new.ear self.old.mouth self.new.mouth }
        ensures same { IsSameLink self.old.ear self.new.ear self.old.mouth self.new.mouth }
        ensures door { IsSameDoor (D.view door.old) (D.view door.new) }
    {
        let child = self.child();
        self.hear_line(door);
        events::why_ended(door, child)
    }

    /// Ends a child that hasn't ended, for lack of memory.
    pub fn give_up<D: Door>(&mut self, door: &mut D)
        requires started { is_started (D.view door.old).seen self.old.ear.child ≡ true }
        ensures moved { During LinkMoved (D.view door.old) (D.view door.new) self.old.ear self.new.ear self.old.mouth self.new.mouth }
        ensures same { IsSameLink self.old.ear self.new.ear self.old.mouth self.new.mouth }
        ensures over { is_ended (D.view door.new).seen self.old.ear.child ≡ true }
        ensures ends { Between Ends (D.view door.old) (D.view door.new) self.old.ear.child Memory }
        ensures door { IsSameDoor (D.view door.old) (D.view door.new) }
    {
        let child = self.child();
        events::stop(door, child, Why::Memory);
    }

    // How the job was settled, if it was.
    fn look_up<D: Door>(&mut self, door: &mut D, job: u64) -> Option<Verdict>
        requires asked { is_asked (D.view door.old).seen self.old.ear.child job ≡ true }
        ensures verdict { result ≡ verdict_of (D.view door.new).seen self.old.ear.child job }
        ensures passed { During Passed (D.view door.old) (D.view door.new) }
        ensures moved { During LoneMoved (D.view door.old) (D.view door.new) self.old.ear self.new.ear self.old.mouth self.new.mouth }
        ensures same { IsSameLink self.old.ear self.new.ear self.old.mouth self.new.mouth }
        ensures door { IsSameDoor (D.view door.old) (D.view door.new) }
    {
        let child = self.child();
        events::verdict(door, child, job)
    }

    // Feeds one line or reads once, where a line of the child is due or may be.
    fn hear_next<D: Door>(&mut self, door: &mut D, job: u64) -> Settling
        requires started { is_started (D.view door.old).seen self.old.ear.child ≡ true }
        requires asked { is_asked (D.view door.old).seen self.old.ear.child job ≡ true }
        requires legal { Legal (D.view door.old).opening (D.view door.old).seen }
        ensures settling { IsSettling (D.view door.new).seen self.old.ear.child job result }
        ensures heard { During HeardNext (D.view door.old) (D.view door.new) self.old.ear.child job }
        ensures moved { During LoneHears (D.view door.old) (D.view door.new) self.old.ear self.new.ear self.old.mouth self.new.mouth }
        ensures same { IsSameLink self.old.ear self.new.ear self.old.mouth self.new.mouth }
        ensures door { IsSameDoor (D.view door.old) (D.view door.new) }
    {
        let child = self.child();
        match events::listen(door, child) {
            Listening::Rest => Settling::Over,
            Listening::Over => Settling::Over,
            Listening::Read => match self.ear.hear(door) {
                Heard::Fed => Settling::Again,
                Heard::Read => Settling::Again,
                Heard::Over => Settling::Over,
            },
        }
    }

    // One step on the way to the job's verdict, where it has none: the next line is written, or one is heard where none is to be
    // written.
    fn settle_next<D: Door>(&mut self, door: &mut D, job: u64) -> Settling
        requires started { is_started (D.view door.old).seen self.old.ear.child ≡ true }
        requires asked { is_asked (D.view door.old).seen self.old.ear.child job ≡ true }
        requires legal { Legal (D.view door.old).opening (D.view door.old).seen }
        ensures settling { IsSettling (D.view door.new).seen self.old.ear.child job result }
        ensures heard { During HeardOn (D.view door.old) (D.view door.new) self.old.ear.child job }
        ensures moved { During LoneMoved (D.view door.old) (D.view door.new) self.old.ear self.new.ear self.old.mouth self.new.mouth }
        ensures same { IsSameLink self.old.ear self.new.ear self.old.mouth self.new.mouth }
        ensures door { IsSameDoor (D.view door.old) (D.view door.new) }
    {
        if let Some(verdict) = self.look_up(door, job) {
            return Settling::Settled(verdict);
        }
        match self.mouth.turn(door) {
            Turn::Again => Settling::Again,
            Turn::Rest => self.hear_next(door, job),
            Turn::Over => self.hear_next(door, job),
        }
    }

    // The verdict of a job that was settled.
    fn settled<D: Door>(&mut self, door: &mut D, job: u64) -> Verdict
        requires asked { is_asked (D.view door.old).seen self.old.ear.child job ≡ true }
        requires settled { verdict_of (D.view door.old).seen self.old.ear.child job ≢ None }
        ensures verdict { verdict_of (D.view door.new).seen self.old.ear.child job ≡ Some result }
        ensures heard { During HeardOn (D.view door.old) (D.view door.new) self.old.ear.child job }
        ensures moved { During LoneMoved (D.view door.old) (D.view door.new) self.old.ear self.new.ear self.old.mouth self.new.mouth }
        ensures same { IsSameLink self.old.ear self.new.ear self.old.mouth self.new.mouth }
        ensures door { IsSameDoor (D.view door.old) (D.view door.new) }
    {
        match self.look_up(door, job) {
            Some(verdict) => verdict,
            None => unreachable!(),
        }
    }

    // The verdict of a job, where nothing more is heard of its child: a child that was ended has no open job.
    fn settle_last<D: Door>(&mut self, door: &mut D, job: u64) -> Verdict
        requires started { is_started (D.view door.old).seen self.old.ear.child ≡ true }
        requires asked { is_asked (D.view door.old).seen self.old.ear.child job ≡ true }
        requires legal { Legal (D.view door.old).opening (D.view door.old).seen }
        ensures verdict { verdict_of (D.view door.new).seen self.old.ear.child job ≡ Some result }
        ensures heard { During HeardOn (D.view door.old) (D.view door.new) self.old.ear.child job }
        ensures moved { During LoneMoved (D.view door.old) (D.view door.new) self.old.ear self.new.ear self.old.mouth self.new.mouth }
        ensures same { IsSameLink self.old.ear self.new.ear self.old.mouth self.new.mouth }
        ensures door { IsSameDoor (D.view door.old) (D.view door.new) }
    {
        if let Some(verdict) = self.look_up(door, job) {
            return verdict;
        }
        self.give_up(door);
        self.settled(door, job)
    }

    // Goes on until the job is settled.
    fn settle<D: Door>(&mut self, door: &mut D, job: u64) -> Verdict
        requires started { is_started (D.view door.old).seen self.old.ear.child ≡ true }
        requires asked { is_asked (D.view door.old).seen self.old.ear.child job ≡ true }
        requires legal { Legal (D.view door.old).opening (D.view door.old).seen }
        ensures small { job < 2 ^ 64 }
        ensures verdict { verdict_of (D.view door.new).seen self.old.ear.child job ≡ Some result }
        ensures heard { During HeardOn (D.view door.old) (D.view door.new) self.old.ear.child job }
        ensures moved { During LoneMoved (D.view door.old) (D.view door.new) self.old.ear self.new.ear self.old.mouth self.new.mouth }
        ensures same { IsSameLink self.old.ear self.new.ear self.old.mouth self.new.mouth }
        ensures door { IsSameDoor (D.view door.old) (D.view door.new) }
    {
        for _ in 0..u64::MAX {
            match self.settle_next(door, job) {
                Settling::Settled(verdict) => return verdict,
                Settling::Over => return self.settled(door, job),
                Settling::Again => {}
            }
        }
        self.settle_last(door, job)
    }

    /// Asks one request, writes its lines, and goes on until it is settled. Nothing is heard while a line is to be written, nor
    /// after the verdict. `NoMemory` comes only before it is asked; later running out of memory ends the child.
    pub fn ask<D: Door>(
        &mut self,
        door: &mut D,
        task: u32,
        request: &Request,
    ) -> Result<Verdict, NoMemory>
        requires started { is_started (D.view door.old).seen self.old.ear.child ≡ true }
        requires legal { Legal (D.view door.old).opening (D.view door.old).seen }
        requires may { (D.view door.old).alone ≡ true → may_request (D.view door.old).seen (D.view door.old).number task self.old.ear.child (message_of request.now) ≡ true }
        requires named { is_named_well (name_of request.now) ≡ true }
        ensures asked { IfOk result (Between HasHeardOut (D.view door.old) (D.view door.new) self.old.ear.child task (name_of request.now) (message_of request.now)) }
        ensures named { IfOk result (IsNamed (message_of request.now)) }
        ensures none { OnErr result (During Passed (D.view door.old) (D.view door.new)) }
        ensures moved { During AskMoved (D.view door.old) (D.view door.new) self.old.ear self.new.ear self.old.mouth self.new.mouth }
        ensures same { IsSameLink self.old.ear self.new.ear self.old.mouth self.new.mouth }
        ensures door { IsSameDoor (D.view door.old) (D.view door.new) }
    {
        let child = self.child();
        let request = request.copy(self.ear.alloc())?;
        match events::ask(door, child, task, request)? {
            Asked::Job(job) => Ok(self.settle(door, job)),
            Asked::Lost(Some(why)) => Ok(Verdict::Ended { why }),
            Asked::Lost(None) => Ok(Verdict::Unsent),
            Asked::Odd => Err(NoMemory),
        }
    }
}
