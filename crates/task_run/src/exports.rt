// Checking, removing and renaming what is there under a name.
ghost use Rattle.std.specs.Prelude.{◌≡◌, true, false, Ok, IfOk};
ghost use Rattle.task_text.specs.TaskLines.{IsTask};
ghost use Rattle.task_text.specs.declared.task.Work.TheVariants as W;
ghost use Rattle.task_model.specs.Askers.{IsSameTask};
ghost use Rattle.task_model.specs.Ran.{RanAsking, may_follow_refusal};

use ann_key::NoMemory;
use journal_model::Answer;
use std::alloc::Global;
use task_model::answers::change_answer;
use task_model::{Asker, TaskTurn, ask, check_answer};
use task_text::Task;

/// Whether the key is there under the task's name.
pub fn check_export<A: Asker>(
    alloc: Global,
    task: &Task,
    turn: TaskTurn,
    asker: &mut A,
) -> Result<Answer, NoMemory>
    requires task { IsTask task.now }
    requires work { task.now.work ≡ W.XCheck }
    requires number { turn.task ≡ (A.told asker.old).task }
    requires ready { A.ready asker.old }
    ensures ran { RanAsking task.now turn (A.told asker.old).current (A.told asker.old).pairs (A.told asker.new).pairs result }
    ensures notes { (A.told asker.new).notes ≡ (A.told asker.old).notes }
    ensures same { IsSameTask (A.told asker.old) (A.told asker.new) }
    ensures on { A.goes_on asker.old asker.new }
    ensures content { IfOk result (λ answer. may_follow_refusal (Ok answer) ≡ false) }
{
    let key = task.key.view();
    let name = task.name.view();
    let verdict = ask::present_named(alloc, asker, turn.task, key, name)?;
    Ok(check_answer(verdict))
}

/// Removes what is there under the task's name.
pub fn drop_export<A: Asker>(
    alloc: Global,
    task: &Task,
    turn: TaskTurn,
    asker: &mut A,
) -> Result<Answer, NoMemory>
    requires task { IsTask task.now }
    requires work { task.now.work ≡ W.XDrop }
    requires number { turn.task ≡ (A.told asker.old).task }
    requires ready { A.ready asker.old }
    ensures ran { RanAsking task.now turn (A.told asker.old).current (A.told asker.old).pairs (A.told asker.new).pairs result }
    ensures notes { (A.told asker.new).notes ≡ (A.told asker.old).notes }
    ensures same { IsSameTask (A.told asker.old) (A.told asker.new) }
    ensures on { A.goes_on asker.old asker.new }
    ensures content { IfOk result (λ answer. may_follow_refusal (Ok answer) ≡ false) }
{
    let key = task.key.view();
    let name = task.name.view();
    let verdict = ask::remove_named(alloc, asker, turn.task, key, name)?;
    Ok(change_answer(Answer::Dropped, verdict))
}

/// Gives what is there under the task's name the name that the task has for it.
pub fn rename_export<A: Asker>(
    alloc: Global,
    task: &Task,
    turn: TaskTurn,
    asker: &mut A,
) -> Result<Answer, NoMemory>
    requires task { IsTask task.now }
    requires work { task.now.work ≡ W.XRename }
    requires number { turn.task ≡ (A.told asker.old).task }
    requires ready { A.ready asker.old }
    ensures ran { RanAsking task.now turn (A.told asker.old).current (A.told asker.old).pairs (A.told asker.new).pairs result }
    ensures notes { (A.told asker.new).notes ≡ (A.told asker.old).notes }
    ensures same { IsSameTask (A.told asker.old) (A.told asker.new) }
    ensures on { A.goes_on asker.old asker.new }
    ensures content { IfOk result (λ answer. may_follow_refusal (Ok answer) ≡ false) }
{
    let key = task.key.view();
    let name = task.name.view();
    let onto = task.onto.view();
    let verdict = ask::rename_named(alloc, asker, turn.task, key, name, onto)?;
    Ok(change_answer(Answer::Renamed, verdict))
}
