// Removing content in each layout.
ghost use Rattle.std.specs.Prelude.{◌≡◌, true, false, Ok, IfOk, length};
ghost use Rattle.task_text.specs.TaskLines.{IsTask};
ghost use Rattle.task_text.specs.declared.task.Work.TheVariants as W;
ghost use Rattle.task_model.specs.Askers.{IsSameTask};
ghost use Rattle.task_model.specs.Ran.{may_follow_refusal};
ghost use Rattle.task_run.specs.Rounds.{NotesNone, RanNoting};

use crate::layouts::{Query, ask_layout, sizes_tried};
use ann_key::NoMemory;
use journal_model::Answer;
use std::alloc::Global;
use task_model::answers::undone_answer;
use task_model::{Asker, TaskTurn};
use task_text::Task;

// Notes that the remote has no chunks of this size. The plain layout has none to note.
fn note_none<A: Asker>(asker: &mut A, number: u32, chunk: u64) -> Result<(), NoMemory>
    requires number { number ≡ (A.told asker.old).task }
    requires ready { A.ready asker.old }
    requires may_note { (A.told asker.old).may_note ≡ true }
    ensures notes { NotesNone (A.told asker.old).notes (A.told asker.new).notes (length (A.told asker.old).pairs) chunk result }
    ensures pairs { (A.told asker.new).pairs ≡ (A.told asker.old).pairs }
    ensures same { IsSameTask (A.told asker.old) (A.told asker.new) }
    ensures on { A.goes_on asker.old asker.new }
{
    if chunk > 0 {
        asker.note(number, chunk, 0)
    } else {
        Ok(())
    }
}

/// Removes the key from the remote, in each layout that is tried.
pub fn drop_key<A: Asker>(
    alloc: Global,
    task: &Task,
    turn: TaskTurn,
    asker: &mut A,
) -> Result<Answer, NoMemory>
    requires task { IsTask task.now }
    requires work { task.now.work ≡ W.Drop }
    requires number { turn.task ≡ (A.told asker.old).task }
    requires ready { A.ready asker.old }
    requires may_note { (A.told asker.old).may_note ≡ true }
    ensures ran { RanNoting task.now turn (A.told asker.old).current (A.told asker.old).pairs (A.told asker.new).pairs (A.told asker.old).notes (A.told asker.new).notes result }
    ensures same { IsSameTask (A.told asker.old) (A.told asker.new) }
    ensures on { A.goes_on asker.old asker.new }
    ensures content { IfOk result (λ answer. may_follow_refusal (Ok answer) ≡ false) }
{
    let key = task.key.view();
    let layouts = asker.layouts(alloc, turn.task)?;
    let sizes = sizes_tried(alloc, key.size(), &layouts)?;
    for chunk in &sizes {
        match ask_layout(alloc, asker, turn.task, Query::Remove, key, *chunk)? {
            None => note_none(asker, turn.task, *chunk)?,
            Some(verdict) => return Ok(undone_answer(verdict)),
        }
    }
    Ok(Answer::Dropped)
}
