// A link over a door that nobody else steps the core beside.
ghost use Rattle.std.specs.Prelude.{◌≡◌, true, false, Some, IfOk, IfNone, OnErr};
ghost use Rattle.journal_model.specs.declared.verdict.Why.TheVariants.{Memory, Closed};
ghost use Rattle.journal_model.specs.Journal.{is_started, is_ended, why_of};
ghost use Rattle.journal_model.specs.Legality.{Legal, said_version, may_stop};
ghost use Rattle.journal_model.specs.Projection.{IsNamed};
ghost use Rattle.host_core.specs.Steps.{is_named_well, may_request};
ghost use Rattle.host_talk.specs.Request.Requests.{message_of, name_of};
ghost use Rattle.child_link.specs.Doors.{IsSameDoor};
ghost use Rattle.child_link.specs.Alone.{GoesOn, Closes, AsksAlone, HearsLink, KeepsLink};

use crate::door::Door;
use crate::events;
use crate::lone::Lone;
use ann_key::NoMemory;
use ann_outside::{Sink, Source};
use host_talk::request::Request;
use journal_model::{Verdict, Why};

impl<I: Sink, O: Source> Lone<I, O> {
    /// Asks one request, as [`Lone::ask`] does.
    pub fn ask_alone<D: Door>(
        &mut self,
        door: &mut D,
        task: u32,
        request: &Request,
    ) -> Result<Verdict, NoMemory>
        requires alone { (D.view door.old).alone ≡ true }
        requires started { is_started (D.view door.old).seen self.old.ear.child ≡ true }
        requires legal { Legal (D.view door.old).opening (D.view door.old).seen }
        requires may { may_request (D.view door.old).seen (D.view door.old).number task self.old.ear.child (message_of request.now) ≡ true }
        requires named { is_named_well (name_of request.now) ≡ true }
        ensures asked { IfOk result (AsksAlone (D.view door.old) (D.view door.new) self.old.ear.child task (name_of request.now) (message_of request.now)) }
        ensures named { IfOk result (IsNamed (message_of request.now)) }
        ensures none { OnErr result ((D.view door.new).seen ≡ (D.view door.old).seen) }
        ensures link { KeepsLink (D.view door.old).seen (D.view door.new).seen self.old.ear self.new.ear self.old.mouth self.new.mouth }
        ensures door { IsSameDoor (D.view door.old) (D.view door.new) }
    {
        self.ask(door, task, request)
    }

    /// Hears the first line, as [`Lone::hear_version`] does.
    pub fn hear_version_alone<D: Door>(&mut self, door: &mut D) -> Option<Why>
        requires alone { (D.view door.old).alone ≡ true }
        requires started { is_started (D.view door.old).seen self.old.ear.child ≡ true }
        requires legal { Legal (D.view door.old).opening (D.view door.old).seen }
        ensures why { result ≡ why_of (D.view door.new).seen self.old.ear.child }
        ensures version { IfNone result (said_version (D.view door.new).seen self.old.ear.child ≡ true) }
        ensures goes { GoesOn (D.view door.old).number self.old.ear.child (D.view door.old).seen (D.view door.new).seen }
        ensures link { HearsLink (D.view door.old).seen (D.view door.new).seen self.old.ear self.new.ear self.old.mouth self.new.mouth }
        ensures door { IsSameDoor (D.view door.old) (D.view door.new) }
    {
        self.hear_version(door)
    }

    /// Why the child ended, if it did.
    pub fn why_ended_alone<D: Door>(&self, door: &mut D) -> Option<Why>
        requires alone { (D.view door.old).alone ≡ true }
        requires started { is_started (D.view door.old).seen self.now.ear.child ≡ true }
        ensures why { result ≡ why_of (D.view door.old).seen self.now.ear.child }
        ensures seen { (D.view door.new).seen ≡ (D.view door.old).seen }
        ensures door { IsSameDoor (D.view door.old) (D.view door.new) }
    {
        self.why_ended(door)
    }

    /// Ends a child that hasn't ended, for lack of memory.
    pub fn give_up_alone<D: Door>(&mut self, door: &mut D)
        requires alone { (D.view door.old).alone ≡ true }
        requires started { is_started (D.view door.old).seen self.old.ear.child ≡ true }
        ensures goes { GoesOn (D.view door.old).number self.old.ear.child (D.view door.old).seen (D.view door.new).seen }
        ensures memory { is_ended (D.view door.old).seen self.old.ear.child ≡ false → why_of (D.view door.new).seen self.old.ear.child ≡ Some Memory }
        ensures over { is_ended (D.view door.new).seen self.old.ear.child ≡ true }
        ensures link { KeepsLink (D.view door.old).seen (D.view door.new).seen self.old.ear self.new.ear self.old.mouth self.new.mouth }
        ensures door { IsSameDoor (D.view door.old) (D.view door.new) }
    {
        self.give_up(door)
    }

    /// Ends the child as closed, unless it has ended. It has no open job and no busy task.
    pub fn close_alone<D: Door>(&self, door: &mut D)
        requires alone { (D.view door.old).alone ≡ true }
        requires started { is_started (D.view door.old).seen self.now.ear.child ≡ true }
        requires idle { may_stop (D.view door.old).seen self.now.ear.child Closed ≡ true }
        ensures closes { Closes (D.view door.old).number self.now.ear.child (D.view door.old).seen (D.view door.new).seen }
        ensures over { is_ended (D.view door.new).seen self.now.ear.child ≡ true }
        ensures link { KeepsLink (D.view door.old).seen (D.view door.new).seen self.now.ear self.now.ear self.now.mouth self.now.mouth }
        ensures door { IsSameDoor (D.view door.old) (D.view door.new) }
    {
        events::close(door, self.child());
    }
}
