ghost use Rattle.std.specs.Prelude.{◌≡◌, IfOk};
ghost use Rattle.ann_key.specs.KeyRefs.{text_of};
ghost use Rattle.run_and_check.specs.Check.Checks.{check_opening};

use ann_key::{Key, KeyRef, NoMemory, Text};
use cli_words::nobody;
use journal_model::Opening;
use registers::Registers;
use std::alloc::Global;
use task_text::chunk_log::NoteBook;
use task_text::{Task, Tasks, Work};

// The one task of a check.
fn check_tasks(alloc: Global, key: KeyRef<'_>) -> Result<Tasks, NoMemory>
    ensures { IfOk result (λ tasks. tasks ≡ (check_opening (text_of key.entry) 0).tasks) }
{
    let task = Task {
        work: Work::Check,
        key: Key::copy(alloc, key)?,
        file: Text::copy(alloc, "")?,
        name: Text::copy(alloc, "")?,
        onto: Text::copy(alloc, "")?,
    };
    let mut list = Vec::new(alloc);
    list.push(task)?;
    Ok(Tasks::new(list))
}

/// What a check of one key begins with: its one task, and the stamp.
pub(crate) fn check_opening(alloc: Global, key: KeyRef<'_>, stamp: u64) -> Result<Opening, NoMemory>
    ensures { IfOk result (λ o. o ≡ check_opening (text_of key.entry) stamp) }
{
    let identity = nobody(alloc)?;
    Ok(Opening {
        tasks: check_tasks(alloc, key)?,
        registers: Registers::new(alloc),
        notes: NoteBook::new(alloc),
        identity,
        stamp,
        again: 0,
    })
}
