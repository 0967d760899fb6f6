// One task that was claimed: it is run on the worker's way, and answered.
ghost use Rattle.std.specs.Prelude.{◌≡◌, ◌≤◌, ◌<◌, ◌-◌, Some, true, false, length, slice_get};
ghost use Rattle.annex_model.specs.Lines.{has_newline};
ghost use Rattle.task_model.specs.Ran.{answered};
ghost use Rattle.child_link.specs.Doors.{IsSameDoor};
ghost use Rattle.crew_work.specs.Worker.Works.{AreTasks, BegunAt, CanClaim, DidTurn};

use crate::worker::claims::give;
use crate::worker::way::Way;
use ann_key::NoMemory;
use ann_outside::Desk;
use child_link::Door;
use journal_model::Answer;
use std::alloc::Global;
use task_model::{Setup, TaskTurn};
use task_text::Task;

// The task of that number, counted from 1.
fn task_at(tasks: &[Task], number: u32) -> &Task
    requires { (0 < number) × (number ≤ length tasks.now) }
    ensures { slice_get tasks.now (number - 1) ≡ Some result.now }
{
    &tasks[number as usize - 1]
}

// Running out of memory is an answer as well.
fn answer_of(outcome: Result<Answer, NoMemory>) -> Answer
    ensures { result ≡ answered outcome }
{
    match outcome {
        Ok(answer) => answer,
        Err(NoMemory) => Answer::Memory,
    }
}

/// Runs a task that was just claimed for the child, and answers it, or leaves it to be run again.
pub(crate) fn do_task<W: Way, D: Door, K: Desk>(
    alloc: Global,
    tasks: &[Task],
    turn: TaskTurn,
    setup: &Setup,
    way: &mut W,
    door: &mut D,
    desk: &mut K,
)
    requires tasks { ((D.view door.old).opening.tasks ≡ tasks.now) × AreTasks tasks.now }
    requires folder { has_newline setup.now.work ≡ false }
    requires owns { (D.view door.old).alone ≡ true → W.owns way.old ≡ true }
    requires begun { BegunAt (D.view door.old) (W.serves way.old) turn }
    ensures does { DidTurn setup.now (W.owns way.old) (W.serves way.old) turn (D.view door.old) (D.view door.new) (W.wired way.old) (W.wired way.new) (K.told desk.old) (K.told desk.new) }
    ensures can { CanClaim (D.view door.new) (W.serves way.new) }
    ensures way { (W.serves way.new ≡ W.serves way.old) × (W.owns way.new ≡ W.owns way.old) × W.same way.old way.new }
    ensures door { IsSameDoor (D.view door.old) (D.view door.new) }
{
    let task = task_at(tasks, turn.task);
    let outcome = way.run(alloc, task, turn, setup, door, desk);
    give(door, turn.task, answer_of(outcome));
}
