// Storing content under a name.
ghost use Rattle.std.specs.Prelude.{◌≡◌, ℕ, List, true};
ghost use Rattle.task_text.specs.TaskLines.{IsTask};
ghost use Rattle.task_text.specs.declared.task.Work.TheVariants as W;
ghost use Rattle.task_model.specs.Ran.{RanGet, HasQuietCauses};
ghost use Rattle.task_model.specs.Askers.{IsSameTask};
ghost use Rattle.task_model.specs.declared.setup.Setup.{Setup};

use ann_key::NoMemory;
use ann_outside::Desk;
use journal_model::Answer;
use std::alloc::Global;
use task_model::answers::{change_answer, is_size, refused};
use task_model::{Asker, TaskTurn, ask};
use task_text::Task;

/// Has the file stored as the key under the task's name, if it has the key's size.
pub fn store_export<A: Asker, D: Desk>(
    alloc: Global,
    task: &Task,
    turn: TaskTurn,
    asker: &mut A,
    desk: &mut D,
) -> Result<Answer, NoMemory>
    requires task { IsTask task.now }
    requires work { task.now.work ≡ W.XStore }
    requires number { turn.task ≡ (A.told asker.old).task }
    requires ready { A.ready asker.old }
    ensures ran { (setup : Setup) (layouts : List (ℕ × ℕ)) → RanGet task.now turn setup layouts (A.told asker.old).pairs (A.told asker.new).pairs (D.told desk.old).log (D.told desk.new).log result }
    ensures notes { (A.told asker.new).notes ≡ (A.told asker.old).notes }
    ensures same { IsSameTask (A.told asker.old) (A.told asker.new) }
    ensures on { A.goes_on asker.old asker.new }
    ensures causes { HasQuietCauses (D.told desk.old).counts (D.told desk.new).counts result }
{
    let key = task.key.view();
    let file = task.file.view();
    match desk.size(file) {
        Ok(n) => {
            if is_size(key.size(), n) {
                let name = task.name.view();
                let verdict = ask::transfer_named(alloc, asker, turn.task, true, key, file, name)?;
                Ok(change_answer(Answer::Stored, verdict))
            } else {
                Ok(Answer::Size { bytes: n })
            }
        }
        Err(error) => refused(error),
    }
}
