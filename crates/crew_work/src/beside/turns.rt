// The worker over a core that others step too: it takes turns, rests while others hold what is left, and ends when there is nothing more
// to do.
ghost use Rattle.std.specs.Prelude.{◌≡◌, false};
ghost use Rattle.annex_model.specs.Lines.{has_newline};
ghost use Rattle.crew_work.specs.Laws.Tasks.{IsThrough};
ghost use Rattle.child_link.specs.Doors.{IsSameDoor};
ghost use Rattle.crew_work.specs.Worker.Works.{AreTasks, CanServe, WorkedAt};

use crate::worker::{Way, take_turn};
use ann_outside::Desk;
use child_link::{Door, Turn};
use std::alloc::Global;
use std::sync::Wait;
use task_model::Setup;
use task_text::Task;

/// Does tasks for the child, one after the other, until all are claimed or the child is gone. While others hold tasks that keep
/// the rest from being claimed, it waits.
pub fn work<W: Way, D: Door, K: Desk, R: Wait>(
    rt: &R,
    alloc: Global,
    tasks: &[Task],
    setup: &Setup,
    way: &mut W,
    door: &mut D,
    desk: &mut K,
)
    requires shared { (D.view door.old).alone ≡ false }
    requires tasks { ((D.view door.old).opening.tasks ≡ tasks.now) × AreTasks tasks.now }
    requires folder { has_newline setup.now.work ≡ false }
    requires can { CanServe (D.view door.old).opening (W.serves way.old) (D.view door.old).seen }
    ensures worked { WorkedAt setup.now (W.owns way.old) (W.serves way.old) (D.view door.old) (D.view door.new) (W.wired way.old) (W.wired way.new) (K.told desk.old) (K.told desk.new) }
    ensures can { CanServe (D.view door.new).opening (W.serves way.new) (D.view door.new).seen }
    ensures through { IsThrough (D.view door.old).opening (D.view door.new).seen (W.serves way.old) }
    ensures way { (W.serves way.new ≡ W.serves way.old) × (W.owns way.new ≡ W.owns way.old) × W.same way.old way.new }
    ensures door { IsSameDoor (D.view door.old) (D.view door.new) }
{
    for _ in rt.forever() {
        match take_turn(alloc, tasks, setup, way, door, desk) {
            Turn::Again => {}
            Turn::Rest => door.rest(),
            Turn::Over => return,
        }
    }
    unreachable!()
}
