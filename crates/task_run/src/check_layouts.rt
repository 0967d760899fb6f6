// Checking whether content is there, in any layout.
ghost use Rattle.std.specs.Prelude.{◌≡◌, true, false, Some, Ok, IfOk, is_some};
ghost use Rattle.task_text.specs.TaskLines.{IsTask};
ghost use Rattle.task_text.specs.declared.task.Work.TheVariants as W;
ghost use Rattle.task_model.specs.Askers.{IsSameTask};
ghost use Rattle.task_model.specs.Ran.{RanAsking, may_follow_refusal};
ghost use Rattle.task_run.specs.Rounds.{missing_more};
ghost use Rattle.task_model.specs.Stops.{verdict_stop};

use crate::layouts::{Query, ask_layout, sizes_tried};
use ann_key::NoMemory;
use journal_model::{Answer, Verdict};
use std::alloc::Global;
use task_model::{Asker, TaskTurn, check_answer};
use task_text::Task;

// Whether the verdict ends the check, whatever layouts are left.
fn is_stop(verdict: Verdict) -> bool
    ensures { result ≡ is_some (verdict_stop false verdict) }
{
    match verdict {
        Verdict::Unsupported { .. } | Verdict::Ended { .. } | Verdict::Unsent => true,
        _ => false,
    }
}

// What is answered where one more layout lacks a key: the first Unknown, or else Absent.
fn missing_more(missing: Answer, verdict: Verdict) -> Answer
    ensures { result ≡ missing_more missing verdict }
{
    match (missing, verdict) {
        (Answer::Absent, Verdict::Unknown { at }) => Answer::Unknown { at },
        _ => missing,
    }
}

/// Whether the remote has the key in one of the layouts that are tried.
pub fn check<A: Asker>(
    alloc: Global,
    task: &Task,
    turn: TaskTurn,
    asker: &mut A,
) -> Result<Answer, NoMemory>
    requires task { IsTask task.now }
    requires work { task.now.work ≡ W.Check }
    requires number { turn.task ≡ (A.told asker.old).task }
    requires ready { A.ready asker.old }
    ensures ran { RanAsking task.now turn (A.told asker.old).current (A.told asker.old).pairs (A.told asker.new).pairs result }
    ensures notes { (A.told asker.new).notes ≡ (A.told asker.old).notes }
    ensures same { IsSameTask (A.told asker.old) (A.told asker.new) }
    ensures on { A.goes_on asker.old asker.new }
    ensures content { IfOk result (λ answer. may_follow_refusal (Ok answer) ≡ false) }
{
    let key = task.key.view();
    let layouts = asker.layouts(alloc, turn.task)?;
    let sizes = sizes_tried(alloc, key.size(), &layouts)?;
    let mut missing = Answer::Absent;
    for chunk in &sizes {
        let Some(verdict) = ask_layout(alloc, asker, turn.task, Query::Present, key, *chunk)? else {
            return Ok(Answer::Present);
        };
        if is_stop(verdict) {
            return Ok(check_answer(verdict));
        }
        missing = missing_more(missing, verdict);
    }
    Ok(missing)
}
