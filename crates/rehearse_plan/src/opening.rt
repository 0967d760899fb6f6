// What the run of a rehearsal begins with.
ghost use Rattle.std.specs.Prelude.{◌≡◌, ◌≤◌, IfOk};
ghost use Rattle.journal_model.specs.Beginnings.{MayBegin};
ghost use Rattle.rehearse_plan.specs.Plans.{opening_of};
ghost use Rattle.rehearse_plan.specs.declared.tasks.TheConstants.{MOST_TASKS};

use crate::tasks::tasks_of;
use ann_key::NoMemory;
use cli_words::nobody;
use journal_model::Opening;
use registers::Registers;
use std::alloc::Global;
use task_text::chunk_log::NoteBook;

// The registers in which the remote's directory is set, and nothing else.
fn registers(alloc: Global) -> Result<Registers, NoMemory>
    ensures { IfOk result (λ r. r ≡ (opening_of 0 0).registers) }
{
    let mut registers = Registers::new(alloc);
    registers.set_config(b"directory", b"d")?;
    Ok(registers)
}

/// What the run of so many tasks by that seed begins with.
pub fn opening_of(alloc: Global, seed: u32, tasks: u32) -> Result<Opening, NoMemory>
    requires { tasks ≤ MOST_TASKS }
    ensures opening { IfOk result (λ o. o ≡ opening_of seed tasks) }
    ensures may { IfOk result MayBegin }
{
    Ok(Opening {
        tasks: tasks_of(alloc, seed, tasks)?,
        registers: registers(alloc)?,
        notes: NoteBook::new(alloc),
        identity: nobody(alloc)?,
        stamp: 0,
        again: 0,
    })
}
