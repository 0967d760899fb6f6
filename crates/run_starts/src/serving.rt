// What a child that was greeted does, up to its closing.
ghost use Rattle.std.specs.Prelude.{◌≡◌, ℕ, [], true, false};
ghost use Rattle.annex_model.specs.Lines.{has_newline};
ghost use Rattle.journal_model.specs.Journal.{is_started, open_jobs};
ghost use Rattle.journal_model.specs.Legality.{Legal, is_busy};
ghost use Rattle.child_link.specs.Writings.{LoneWired};
ghost use Rattle.crew_work.specs.Laws.Tasks.{IsThrough};
ghost use Rattle.child_link.specs.Alone.{KeepsLink};
ghost use Rattle.child_life.specs.Start.Cores.{IsSameCore};
ghost use Rattle.crew_work.specs.Worker.Works.{AreTasks, CanWork, WorkedAlone};
ghost use Rattle.run_starts.specs.Stints.{HasServed, TurnsAway};

use crate::zero::answer_one;
use ann_outside::{Desk, Sink, Source};
use child_life::end::close_child;
use child_link::{Lone, OwnDoor};
use crew_work::worker::work_alone;
use host_core::Core;
use journal_model::Answer;
use std::alloc::Global;
use task_model::Setup;
use task_text::Task;

// Does tasks over the child's link through the main thread's own door.
fn work_over<I: Sink, O: Source, K: Desk>(
    alloc: Global,
    tasks: &[Task],
    setup: &Setup,
    link: &mut Lone<I, O>,
    core: &mut Core,
    desk: &mut K,
)
    requires tasks { (core.old.opening.tasks ≡ tasks.now) × AreTasks tasks.now }
    requires folder { has_newline setup.now.work ≡ false }
    requires can { CanWork core.old.opening link.old.ear.child core.old.journal }
    ensures worked { WorkedAlone core.old.opening setup.now 0 link.old.ear.child core.old.journal core.new.journal (K.told desk.old) (K.told desk.new) }
    ensures can { CanWork core.old.opening link.old.ear.child core.new.journal }
    ensures through { IsThrough core.old.opening core.new.journal link.old.ear.child }
    ensures link { KeepsLink core.old.journal core.new.journal link.old.ear link.new.ear link.old.mouth link.new.mouth }
    ensures core { IsSameCore core.old core.new }
{
    let mut door = OwnDoor { core };
    work_alone(alloc, tasks, setup, link, &mut door, desk);
    let OwnDoor { core: _ } = door;
}

/// Does tasks over a child that is ready until it is gone or all tasks are claimed, and closes it.
pub fn serve<I: Sink, O: Source, K: Desk>(
    alloc: Global,
    tasks: &[Task],
    setup: &Setup,
    link: &mut Lone<I, O>,
    core: &mut Core,
    desk: &mut K,
)
    requires tasks { (core.old.opening.tasks ≡ tasks.now) × AreTasks tasks.now }
    requires folder { has_newline setup.now.work ≡ false }
    requires can { CanWork core.old.opening link.old.ear.child core.old.journal }
    ensures serves { HasServed core.old.opening setup.now link.old.ear.child core.old.journal core.new.journal (K.told desk.old) (K.told desk.new) }
    ensures link { KeepsLink core.old.journal core.new.journal link.old.ear link.new.ear link.old.mouth link.new.mouth }
    ensures core { IsSameCore core.old core.new }
{
    work_over(alloc, tasks, setup, link, core, desk);
    close_child(link, core);
}

/// Answers one task for a child that isn't ready, and closes it.
pub fn turn_away<I: Sink, O: Source>(link: &Lone<I, O>, core: &mut Core, answer: Answer)
    requires legal { Legal core.old.opening core.old.journal }
    requires rest { (t : ℕ) → is_busy core.old.journal t ≡ false }
    requires started { is_started core.old.journal link.now.ear.child ≡ true }
    requires idle { open_jobs core.old.journal link.now.ear.child ≡ [] }
    ensures away { TurnsAway core.old.opening link.now.ear.child core.old.journal core.new.journal answer }
    ensures wired { LoneWired core.old.journal link.now.ear link.now.mouth → LoneWired core.new.journal link.now.ear link.now.mouth }
    ensures core { IsSameCore core.old core.new }
{
    answer_one(core, answer);
    close_child(link, core);
}
