// Asking over a link of one's own.
ghost use Rattle.std.specs.Prelude.{◌≡◌, true, IfOk};
ghost use Rattle.journal_model.specs.Journal.{is_started};
ghost use Rattle.journal_model.specs.Projection.{IsNamed};
ghost use Rattle.journal_model.specs.Shares.{Moved, is_of_child};
ghost use Rattle.child_link.specs.Writings.{LoneWired};
ghost use Rattle.host_core.specs.Steps.{is_named_well, may_request};
ghost use Rattle.host_talk.specs.Request.Requests.{message_of, name_of};
ghost use Rattle.child_link.specs.Doors.{IsSameDoor};
ghost use Rattle.child_link.specs.Moves.{IsSameLink};
ghost use Rattle.crew_work.specs.Worker.AtTasks.{AtTask, AskedFor};
ghost use Rattle.crew_work.specs.Worker.Servings.{HasTurn, by_server};

use ann_key::NoMemory;
use ann_outside::{Sink, Source};
use child_link::{Door, Lone};
use host_talk::request::Request;
use journal_model::Verdict;

/// Asks one request of a task that the door's number holds, over a link to its child.
pub fn ask_by_link<I: Sink, O: Source, D: Door>(
    link: &mut Lone<I, O>,
    door: &mut D,
    task: u32,
    request: &Request,
) -> Result<Verdict, NoMemory>
    requires at { AtTask (D.view door.old).opening (D.view door.old).number task (D.view door.old).seen }
    requires started { is_started (D.view door.old).seen link.old.ear.child ≡ true }
    requires may { (D.view door.old).alone ≡ true → may_request (D.view door.old).seen (D.view door.old).number task link.old.ear.child (message_of request.now) ≡ true }
    requires named { is_named_well (name_of request.now) ≡ true }
    ensures asked { AskedFor (D.view door.old).opening (D.view door.old).number task (D.view door.old).seen (D.view door.new).seen (name_of request.now) (message_of request.now) result }
    ensures named { IfOk result (IsNamed (message_of request.now)) }
    ensures turn { (D.view door.old).alone ≡ true → HasTurn (D.view door.old).seen link.old.ear.child task → HasTurn (D.view door.new).seen link.old.ear.child task }
    ensures moved { Moved (D.view door.old).number (D.view door.old).alone (by_server link.old.ear.child task) (is_of_child link.old.ear.child) (D.view door.old).seen (D.view door.new).seen
        (LoneWired (D.view door.old).seen link.old.ear link.old.mouth) (LoneWired (D.view door.new).seen link.new.ear link.new.mouth) }
    ensures same { IsSameLink link.old.ear link.new.ear link.old.mouth link.new.mouth }
    ensures door { IsSameDoor (D.view door.old) (D.view door.new) }
{
    link.ask(door, task, request)
}
