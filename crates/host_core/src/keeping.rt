// What the core keeps of a group beside its entries: what is set, and what is noted.
ghost use Rattle.std.specs.Prelude.{◌≡◌, ◌<◌, [], true, IfOk, OnOk, OnErr, IsOk};
ghost use Rattle.std.specs.List.{cons_option, list_any};
ghost use Rattle.task_text.specs.ChunkLog.ChunkLines.{is_space, IsWritable, IsWrittenUuid};
ghost use Rattle.task_text.specs.ChunkLog.NoteBooks.{inserted};
ghost use Rattle.journal_model.specs.Beginnings.{MayBegin};
ghost use Rattle.journal_model.specs.Notes.{note_of, stamp_of, with_notes};
ghost use Rattle.journal_model.specs.Replies.{set_by_all};
ghost use Rattle.host_core.specs.Books.{noted_in, is_note, IsSized};
ghost use Rattle.host_core.specs.Moves.{first_room};
ghost use Rattle.host_core.specs.Settings.{IsLine, set_in};

use crate::due::Due;
use crate::serving::set_by_group;
use ann_key::{NoMemory, Text};
use journal_look::{Journal, task_of};
use journal_model::{Opening, What};
use registers::Registers;
use std::alloc::Global;
use task_text::Task;
use task_text::chunk_log::{ChunkLine, NoteBook, Stamp};

fn stamp_of(micros: u64) -> Stamp
    ensures { result ≡ stamp_of micros }
{
    Stamp {
        seconds: micros / 1_000_000,
        nanos: (micros % 1_000_000 * 1_000) as u32,
    }
}

/// The line that says so of the remote.
#[tactic(auto, using(journal_model::proofs::Noting::writable))]
fn line_of(
    alloc: Global,
    opening: &Opening,
    task: &Task,
    chunk: u64,
    count: u64,
) -> Result<ChunkLine, NoMemory>
    requires uuid { IsWrittenUuid opening.now.identity.uuid }
    requires size { 0 < chunk }
    ensures line { IfOk result (λ line. line ≡ (note_of opening.now chunk count task.now).line) }
    ensures writable { IfOk result IsWritable }
{
    let uuid = Text::copy(alloc, opening.identity.uuid.view())?;
    Ok(ChunkLine {
        stamp: stamp_of(opening.stamp),
        uuid,
        chunk,
        count,
    })
}

/// Takes the note of the task's chunks into the book.
fn note(
    alloc: Global,
    notes: &mut NoteBook,
    opening: &Opening,
    task: &Task,
    chunk: u64,
    count: u64,
) -> Result<(), NoMemory>
    requires key { list_any is_space task.now.key ≡ true → ⊥ }
    requires uuid { IsWrittenUuid opening.now.identity.uuid }
    requires size { 0 < chunk }
    ensures noted { OnOk result (notes.new ≡ inserted (note_of opening.now chunk count task.now) notes.old) }
    ensures err { OnErr result (notes.new ≡ notes.old) }
{
    let line = line_of(alloc, opening, task, chunk, count)?;
    notes.add(task.key.view(), line)
}

/// Takes the note of a group's first entry into the book, where it is one. Where memory runs out the book is as before.
#[tactic(auto, using(journal_model::proofs::Beginning::key_spaceless))]
fn note_by_group(
    alloc: Global,
    notes: &mut NoteBook,
    opening: &Opening,
    what: &Option<What>,
) -> Result<(), NoMemory>
    requires begins { MayBegin opening.now }
    requires sized { IsSized what.now }
    ensures noted { OnOk result (notes.new ≡ with_notes notes.old (cons_option (noted_in opening.now what.now) [])) }
    ensures err { OnErr result (notes.new ≡ notes.old) }
    ensures note { OnErr result (is_note what.now ≡ true) }
{
    match what {
        Some(What::Note { task, chunk, count }) => match task_of(opening, *task) {
            Some(task) => note(alloc, notes, opening, task, *chunk, *count),
            None => Ok(()),
        },
        _ => Ok(()),
    }
}

/// Sets and notes what the first entry of a group sets or notes. Where memory runs out all is as before.
pub(super) fn keep_group(
    alloc: Global,
    registers: &mut Registers,
    notes: &mut NoteBook,
    opening: &Opening,
    journal: &Journal,
    what: &Option<What>,
    due: &Due,
) -> Result<(), NoMemory>
    requires begins { MayBegin opening.now }
    requires line { IsLine what.now }
    requires sized { IsSized what.now }
    ensures set { OnOk result (registers.new ≡ set_by_all registers.old (cons_option (set_in journal.now.entries what.now due.now) [])) }
    ensures noted { OnOk result (notes.new ≡ with_notes notes.old (cons_option (noted_in opening.now what.now) [])) }
    ensures registers { OnErr result (registers.new ≡ registers.old) }
    ensures notes { OnErr result (notes.new ≡ notes.old) }
    ensures free { first_room what.now ≡ 0 → IsOk result }
{
    set_by_group(registers, journal, what, due)?;
    note_by_group(alloc, notes, opening, what)
}
