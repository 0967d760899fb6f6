// The events of a worker: a claim, and an answer.
ghost use Rattle.std.specs.Prelude.{◌≡◌};
ghost use Rattle.child_link.specs.Doors.{Between, IsSameDoor};
ghost use Rattle.crew_work.specs.Worker.AtTasks.{AtTask};
ghost use Rattle.crew_work.specs.Worker.Works.{CanClaim, Given, HasClaimed, claimed_of};

use ann_key::NoMemory;
use child_link::Door;
use host_core::{Event, Reply};
use journal_model::Answer;
use task_model::TaskTurn;

// What a claim came to.
pub(crate) enum Claimed {
    Task(TaskTurn),
    // Others hold what is left, and there may be more to do after them.
    Wait,
    // There is nothing more to do for the child.
    Over,
}

fn claimed_of(reply: Reply) -> Claimed
    ensures { result ≡ claimed_of reply }
{
    match reply {
        Reply::Task { task, turn } => Claimed::Task(TaskTurn { task, turn }),
        Reply::Wait => Claimed::Wait,
        _ => Claimed::Over,
    }
}

/// Claims the next task for the child, for the turn of it that comes next.
pub(crate) fn claim<D: Door>(door: &mut D, child: u32) -> Claimed
    requires { CanClaim (D.view door.old) child }
    ensures claims { Between HasClaimed (D.view door.old) (D.view door.new) child result }
    ensures door { IsSameDoor (D.view door.old) (D.view door.new) }
{
    match door.step(Event::Claim { child }) {
        Ok(reply) => claimed_of(reply),
        Err(NoMemory) => unreachable!(),
    }
}

/// Gives the answer of a task that the door's number holds, which may be run again in its place.
pub(crate) fn give<D: Door>(door: &mut D, task: u32, answer: Answer)
    requires { AtTask (D.view door.old).opening (D.view door.old).number task (D.view door.old).seen }
    ensures given { Between Given (D.view door.old) (D.view door.new) task answer }
    ensures door { IsSameDoor (D.view door.old) (D.view door.new) }
{
    let _done = door.step(Event::Answer { task, answer });
}
