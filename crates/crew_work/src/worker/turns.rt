// The worker: it claims, runs and answers. One turn of it, which every worker takes, and the whole of one that is alone.
ghost use Rattle.std.specs.Prelude.{◌≡◌, true, false};
ghost use Rattle.annex_model.specs.Lines.{has_newline};
ghost use Rattle.crew_work.specs.Laws.Tasks.{IsThrough};
ghost use Rattle.child_link.specs.Alone.{KeepsLink};
ghost use Rattle.child_link.specs.Doors.{Between, IsSameDoor};
ghost use Rattle.crew_work.specs.Worker.Works.{AreTasks, CanClaim, CanWork, GoesOn, WorkedAlone, WorkedAt};

use crate::worker::claims::{Claimed, claim};
use crate::worker::task::do_task;
use crate::worker::way::Way;
use ann_outside::{Desk, Sink, Source};
use child_link::{Door, Lone, Turn};
use std::alloc::Global;
use task_model::Setup;
use task_text::Task;

/// One task, where there is one. A worker rests where others hold what is left; one that is alone never does.
pub fn take_turn<W: Way, D: Door, K: Desk>(
    alloc: Global,
    tasks: &[Task],
    setup: &Setup,
    way: &mut W,
    door: &mut D,
    desk: &mut K,
) -> Turn
    requires tasks { ((D.view door.old).opening.tasks ≡ tasks.now) × AreTasks tasks.now }
    requires folder { has_newline setup.now.work ≡ false }
    requires owns { (D.view door.old).alone ≡ true → W.owns way.old ≡ true }
    requires can { CanClaim (D.view door.old) (W.serves way.old) }
    ensures worked { WorkedAt setup.now (W.owns way.old) (W.serves way.old) (D.view door.old) (D.view door.new) (W.wired way.old) (W.wired way.new) (K.told desk.old) (K.told desk.new) }
    ensures can { CanClaim (D.view door.new) (W.serves way.new) }
    ensures on { Between GoesOn (D.view door.old) (D.view door.new) (W.serves way.old) result }
    ensures way { (W.serves way.new ≡ W.serves way.old) × (W.owns way.new ≡ W.owns way.old) × W.same way.old way.new }
    ensures door { IsSameDoor (D.view door.old) (D.view door.new) }
{
    let child = way.child();
    match claim(door, child) {
        Claimed::Task(turn) => {
            do_task(alloc, tasks, turn, setup, way, door, desk);
            Turn::Again
        }
        Claimed::Wait => Turn::Rest,
        Claimed::Over => Turn::Over,
    }
}

/// Does tasks over the child's link, over a core that nobody else steps, one after the other, until all are claimed or the child is
/// gone.
pub fn work_alone<I: Sink, O: Source, D: Door, K: Desk>(
    alloc: Global,
    tasks: &[Task],
    setup: &Setup,
    link: &mut Lone<I, O>,
    door: &mut D,
    desk: &mut K,
)
    requires alone { (D.view door.old).alone ≡ true }
    requires tasks { ((D.view door.old).opening.tasks ≡ tasks.now) × AreTasks tasks.now }
    requires folder { has_newline setup.now.work ≡ false }
    requires can { CanWork (D.view door.old).opening link.old.ear.child (D.view door.old).seen }
    ensures worked { WorkedAlone (D.view door.old).opening setup.now (D.view door.old).number link.old.ear.child (D.view door.old).seen (D.view door.new).seen (K.told desk.old) (K.told desk.new) }
    ensures can { CanWork (D.view door.new).opening link.new.ear.child (D.view door.new).seen }
    ensures through { IsThrough (D.view door.old).opening (D.view door.new).seen link.old.ear.child }
    ensures link { KeepsLink (D.view door.old).seen (D.view door.new).seen link.old.ear link.new.ear link.old.mouth link.new.mouth }
    ensures door { IsSameDoor (D.view door.old) (D.view door.new) }
{
    'turns: loop {
        match take_turn(alloc, tasks, setup, link, door, desk) {
            Turn::Again => {}
            Turn::Rest => unreachable!(),
            Turn::Over => return,
        }
    }
}
