// A worker's way to a child that others read and write.
ghost use Rattle.std.specs.Prelude.{◌≡◌, false, Some};
ghost use Rattle.annex_model.specs.Lines.{has_newline};
ghost use Rattle.task_text.specs.TaskLines.{IsTask};
ghost use Rattle.journal_model.specs.Legality.{task_of};
ghost use Rattle.task_model.specs.Ran.{HasTaskCauses};
ghost use Rattle.child_link.specs.Doors.{Between, IsSameDoor};
ghost use Rattle.crew_work.specs.Worker.Works.{RanAt};
ghost use Rattle.crew_work.specs.Beside.Jobs.{JobsOn, MayAsk};

use crate::beside::job_asker::JobAsker;
use crate::worker::Way;
use ann_key::NoMemory;
use ann_outside::Desk;
use child_link::Door;
use journal_model::Answer;
use std::alloc::Global;
use std::sync::Wait;
use task_model::{Setup, TaskTurn};
use task_run::run_task;
use task_text::Task;

/// The way to a child that other threads read and write.
#[derive(Drop)]
pub struct Shared<'r, R: Wait> {
    pub rt: &'r R,
    pub child: u32,
}

// Runs the task over a child that others read and write.
fn run_jobs<D: Door, K: Desk, R: Wait>(
    way: &Shared<'_, R>,
    alloc: Global,
    task: &Task,
    turn: TaskTurn,
    setup: &Setup,
    door: &mut D,
    desk: &mut K,
) -> Result<Answer, NoMemory>
    requires task { IsTask task.now }
    requires folder { has_newline setup.now.work ≡ false }
    requires named { task_of (D.view door.old).opening turn.task ≡ Some task.now }
    requires may { MayAsk (D.view door.old).opening (D.view door.old).number turn.task (D.view door.old).seen }
    ensures ran { RanAt task.now turn setup.now (D.view door.old) (D.view door.new) (K.told desk.old) (K.told desk.new) result }
    ensures causes { HasTaskCauses (K.told desk.old).counts (K.told desk.new).counts result }
    ensures on { Between JobsOn (D.view door.old) (D.view door.new) way.now.child turn.task }
    ensures door { IsSameDoor (D.view door.old) (D.view door.new) }
{
    let mut asker = JobAsker {
        rt: way.rt,
        child: way.child,
        door,
        task: turn.task,
    };
    run_task(alloc, task, turn.task, turn.turn, setup, &mut asker, desk)
}

impl<'r, R: Wait> Way for Shared<'r, R> {
    ghost use Rattle.std.proofs.Common.{refl, ◌∙◌};

    ghost serves = { λ s. s.child };

    ghost owns = { λ s. false };

    ghost wired = { λ s journal. Unit {0} };

    ghost same = { λ a b. b.child ≡ a.child };

    ghost apart = { λ s past more none w. tt };

    ghost still = { λ s. refl };

    ghost both = { λ a b d s r. r ∙ s };

    fn child(&self) -> u32 {
        self.child
    }

    fn run<D: Door, K: Desk>(
        &mut self,
        alloc: Global,
        task: &Task,
        turn: TaskTurn,
        setup: &Setup,
        door: &mut D,
        desk: &mut K,
    ) -> Result<Answer, NoMemory> {
        run_jobs(self, alloc, task, turn, setup, door, desk)
    }
}
