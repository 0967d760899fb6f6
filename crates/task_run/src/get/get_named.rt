// A get under a name.
ghost use Rattle.std.specs.Prelude.{◌≡◌, true, false};
ghost use Rattle.annex_model.specs.Lines.{has_newline};
ghost use Rattle.task_model.specs.Askers.{IsSameTask};
ghost use Rattle.task_model.specs.Ran.{HasQuietCauses, RanGet};
ghost use Rattle.task_text.specs.TaskLines.{IsTask};
ghost use Rattle.task_text.specs.declared.task.Work.TheVariants as W;

use crate::get::taking::take_whole;
use ann_key::NoMemory;
use ann_outside::Desk;
use journal_model::Answer;
use std::alloc::Global;
use task_model::names::{fetch_name, part_name};
use task_model::{Asker, Setup, TaskTurn, ask};
use task_text::Task;

/// Fetches what is there under the task's name, and keeps it as the file where it fits the key.
pub fn get_export<A: Asker, D: Desk>(
    alloc: Global,
    task: &Task,
    turn: TaskTurn,
    setup: &Setup,
    asker: &mut A,
    desk: &mut D,
) -> Result<Answer, NoMemory>
    requires task { IsTask task.now }
    requires work { task.now.work ≡ W.XGet }
    requires folder { has_newline setup.now.work ≡ false }
    requires number { turn.task ≡ (A.told asker.old).task }
    requires ready { A.ready asker.old }
    ensures ran { RanGet task.now turn setup.now (A.told asker.old).current (A.told asker.old).pairs (A.told asker.new).pairs (D.told desk.old).log (D.told desk.new).log result }
    ensures notes { (A.told asker.new).notes ≡ (A.told asker.old).notes }
    ensures same { IsSameTask (A.told asker.old) (A.told asker.new) }
    ensures on { A.goes_on asker.old asker.new }
    ensures causes { HasQuietCauses (D.told desk.old).counts (D.told desk.new).counts result }
{
    let key = task.key.view();
    let file = task.file.view();
    let name = task.name.view();
    let part = part_name(alloc, file)?;
    let fetch = fetch_name(alloc, setup, turn, 1)?;
    let part = part.view();
    let fetch = fetch.view();
    let verdict = ask::transfer_named(alloc, asker, turn.task, false, key, fetch, name)?;
    take_whole(alloc, desk, key, file, part, fetch, verdict)
}
