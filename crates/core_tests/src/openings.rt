// What runs begin with: tasks as their lines say, how often they may be run again, and the remote without a UUID.
ghost use Rattle.std.specs.Prelude.{◌≤◌, All, IfOk, OnOk, length};
ghost use Rattle.task_text.specs.TaskLines.{IsTask};
ghost use Rattle.task_text.specs.ChunkLog.ChunkLines.{IsWrittenUuid};
ghost use Rattle.journal_model.specs.Limits.{most_tasks};
ghost use Rattle.journal_model.specs.Replies.{IsLineIdentity};
ghost use Rattle.journal_model.specs.Beginnings.{MayBegin};

use ann_key::{NoMemory, Text};
use journal_model::{Identity, Opening};
use registers::Registers;
use std::alloc::Global;
use task_text::chunk_log::NoteBook;
use task_text::{Task, TaskError, Tasks, read_task};

pub(crate) const CHECK: &str =
    "check SHA256E-s0--e3b0c44298fc1c149afbf4c8996fb92427ae41e4649b934ca495991b7852b855";

/// What a run of the tasks begins with that the lines spell. They may be run again so often, but for the limit.
pub(crate) fn opening(alloc: Global, lines: &[String], again: u32) -> Result<Opening, NoMemory>
    ensures { IfOk result MayBegin }
{
    let list = tasks(alloc, lines)?;
    let identity = identity(alloc)?;
    Ok(Opening {
        tasks: Tasks::new(list),
        registers: Registers::new(alloc),
        notes: NoteBook::new(alloc),
        identity,
        stamp: 1_700_000_000_000_000,
        again: again.min(8),
    })
}

#[tactic(auto, using(task_text::proofs::ChunkLogLemmas::Uuids::nil_written))]
fn identity(alloc: Global) -> Result<Identity, NoMemory>
    ensures lines { IfOk result IsLineIdentity }
    ensures uuid { IfOk result (λ i. IsWrittenUuid i.uuid) }
{
    Ok(Identity {
        uuid: Text::copy(alloc, "00000000-0000-0000-0000-000000000000")?,
        name: Text::copy(alloc, "remote")?,
        gitdir: Text::copy(alloc, ".git")?,
    })
}

fn tasks(alloc: Global, lines: &[String]) -> Result<Vec<Task>, NoMemory>
    ensures few { IfOk result (λ v. length v.items ≤ most_tasks) }
    ensures fit { IfOk result (λ v. All IsTask v.items) }
{
    let mut list = Vec::new(alloc);
    for line in lines {
        add(alloc, &mut list, line.as_bytes())?;
    }
    Ok(list)
}

// Adds the task that the line spells, if it spells one and there is place.
fn add(alloc: Global, list: &mut Vec<Task>, line: &[u8]) -> Result<(), NoMemory>
    requires few { length list.old.items ≤ most_tasks }
    requires fit { All IsTask list.old.items }
    ensures few { OnOk result (length list.new.items ≤ most_tasks) }
    ensures fit { OnOk result (All IsTask list.new.items) }
{
    if list.len() >= 65_536 {
        return Ok(());
    }
    match read_task(alloc, line) {
        Ok(task) => {
            list.push(task)?;
            Ok(())
        }
        Err(TaskError::NoMemory) => Err(NoMemory),
        Err(_) => Ok(()),
    }
}
