// One task.
ghost use Rattle.std.specs.Prelude.{◌≡◌, true, false, IfSome};
ghost use Rattle.ann_key.specs.Keys.{key_reading};
ghost use Rattle.annex_model.specs.Lines.{has_newline};
ghost use Rattle.task_model.specs.Askers.{IsSameTask};
ghost use Rattle.task_model.specs.Ran.{Ran, HasTaskCauses, HasQuietCauses, RanStore, may_note};
ghost use Rattle.task_model.specs.Runs.{is_chunked};
ghost use Rattle.task_text.specs.TaskLines.{IsTask};
ghost use Rattle.task_text.specs.declared.task.Work.TheVariants as W;

use crate::check_layouts::check;
use crate::drop_layouts::drop_key;
use crate::exports::{check_export, drop_export, rename_export};
use crate::get::{get_export, get_key};
use crate::store::{store_chunks, store_export, store_whole};
use ann_key::NoMemory;
use ann_outside::Desk;
use journal_model::Answer;
use std::alloc::Global;
use task_model::{Asker, Setup, TaskTurn};
use task_text::{Task, Work};

// Whether the content is stored in chunks.
fn is_chunked(task: &Task, setup: &Setup) -> bool
    ensures { IfSome (key_reading task.now.key) (λ key. result ≡ is_chunked setup.now key) }
{
    setup.chunk != 0 && task.key.view().size().is_some()
}

// Stores the content, whole or in chunks.
fn store<A: Asker, D: Desk>(
    alloc: Global,
    task: &Task,
    turn: TaskTurn,
    setup: &Setup,
    asker: &mut A,
    desk: &mut D,
) -> Result<Answer, NoMemory>
    requires task { IsTask task.now }
    requires work { task.now.work ≡ W.Store }
    requires folder { has_newline setup.now.work ≡ false }
    requires number { turn.task ≡ (A.told asker.old).task }
    requires ready { A.ready asker.old }
    requires may { (A.told asker.old).may_note ≡ true }
    ensures ran { RanStore task.now turn setup.now (A.told asker.old).pairs (A.told asker.new).pairs (A.told asker.old).notes (A.told asker.new).notes
        (D.told desk.old).log (D.told desk.new).log result }
    ensures same { IsSameTask (A.told asker.old) (A.told asker.new) }
    ensures on { A.goes_on asker.old asker.new }
    ensures causes { HasQuietCauses (D.told desk.old).counts (D.told desk.new).counts result }
{
    if is_chunked(task, setup) {
        store_chunks(alloc, task, turn, setup, asker, desk)
    } else {
        store_whole(alloc, task, turn, asker, desk)
    }
}

/// Does the task by what its child is asked and what stands on the desk.
pub fn run_task<A: Asker, D: Desk>(
    alloc: Global,
    task: &Task,
    number: u32,
    turn: u32,
    setup: &Setup,
    asker: &mut A,
    desk: &mut D,
) -> Result<Answer, NoMemory>
    requires task { IsTask task.now }
    requires folder { has_newline setup.now.work ≡ false }
    requires number { number ≡ (A.told asker.old).task }
    requires ready { A.ready asker.old }
    requires notes { may_note task.now.work ≡ true → (A.told asker.old).may_note ≡ true }
    ensures ran { Ran task.now (record { task = number; turn = turn }) setup.now (A.told asker.old).current (A.told asker.old).pairs (A.told asker.new).pairs
        (A.told asker.old).notes (A.told asker.new).notes (D.told desk.old).log (D.told desk.new).log result }
    ensures same { IsSameTask (A.told asker.old) (A.told asker.new) }
    ensures on { A.goes_on asker.old asker.new }
    ensures causes { HasTaskCauses (D.told desk.old).counts (D.told desk.new).counts result }
{
    let turn = TaskTurn { task: number, turn };
    match task.work {
        Work::Store => store(alloc, task, turn, setup, asker, desk),
        Work::Get => get_key(alloc, task, turn, setup, asker, desk),
        Work::Check => check(alloc, task, turn, asker),
        Work::Drop => drop_key(alloc, task, turn, asker),
        Work::XStore => store_export(alloc, task, turn, asker, desk),
        Work::XGet => get_export(alloc, task, turn, setup, asker, desk),
        Work::XCheck => check_export(alloc, task, turn, asker),
        Work::XDrop => drop_export(alloc, task, turn, asker),
        Work::XRename => rename_export(alloc, task, turn, asker),
    }
}
