// Printing the text of a run, line by line.
ghost use Rattle.std.specs.Prelude.{◌≡◌, ◌++◌, ◌∷◌, [], ◌<◌, IfOk, Some, decimal, length, map, slice_get};
ghost use Rattle.registers.specs.RegLines.{line_of, lines_of};
ghost use Rattle.task_text.specs.ChunkLog.NoteBooks.{IsNote};
ghost use Rattle.kept_file.specs.Text.KeptFiles.{written_note};
ghost use Rattle.journal_text.specs.Entries.Entries.{entry_line};
ghost use Rattle.journal_text.specs.Lines.JournalTexts.{worded, first_lines, last_lines, task_line, keep_line, kept_lines, journal_lines, told, end_line};

use crate::entries::print_lent;
use ann_key::{Bytes, NoMemory};
use journal_look::Journal;
use journal_model::Opening;
use kept_file::text::{note_line, register_line};
use registers::RegLine;
use std::alloc::Global;
use task_text::chunk_log::Note;
use task_text::write_task;

/// What is kept, as it is looked up once where all lines are printed.
#[derive(Clone, Copy)]
pub struct Kept<'a> {
    /// The lines of the registers.
    pub registers: &'a [RegLine<'a>],
    /// The notes.
    pub notes: &'a [&'a Note],
}

/// A line of the text, counted from 0, without byte 10; None exactly past the last.
pub fn print_line(
    alloc: Global,
    opening: &Opening,
    journal: &Journal,
    n: u64,
) -> Result<Option<Bytes>, NoMemory>
    ensures { IfOk result (λ line. line ≡ slice_get (journal_lines opening.now journal.now.entries) n) }
{
    let registers = opening.registers.lines()?;
    let notes = opening.notes.lines()?;
    let kept = Kept {
        registers: registers.as_slice(),
        notes: notes.as_slice(),
    };
    print_kept(alloc, opening, kept, journal, n)
}

/// The same line as `print_line` gives, where what is kept is looked up already.
pub fn print_kept(
    alloc: Global,
    opening: &Opening,
    kept: Kept<'_>,
    journal: &Journal,
    n: u64,
) -> Result<Option<Bytes>, NoMemory>
    requires registers { map line_of kept.registers.now ≡ lines_of opening.now.registers }
    requires notes { map (λ note. note.now) kept.notes.now ≡ opening.now.notes }
    ensures { IfOk result (λ line. line ≡ slice_get (journal_lines opening.now journal.now.entries) n) }
{
    if n < 6 {
        let line = first_line(alloc, opening, n)?;
        Ok(Some(line))
    } else {
        after_first(alloc, opening, kept, journal, n - 6)
    }
}

// One of the first six lines.
fn first_line(alloc: Global, opening: &Opening, n: u64) -> Result<Bytes, NoMemory>
    requires { n < 6 }
    ensures { IfOk result (λ line. Some line ≡ slice_get (first_lines (told opening.now [])) n) }
{
    let identity = &opening.identity;
    match n {
        0 => Bytes::copy(alloc, b"annex-journal 2"),
        1 => worded(alloc, b"uuid", identity.uuid.view().as_bytes()),
        2 => worded(alloc, b"name", identity.name.view().as_bytes()),
        3 => worded(alloc, b"gitdir", identity.gitdir.view().as_bytes()),
        4 => numbered(alloc, b"stamp", opening.stamp),
        _ => numbered(alloc, b"again", opening.again as u64),
    }
}

// A word, a space, and a number.
fn numbered(alloc: Global, word: &[u8], n: u64) -> Result<Bytes, NoMemory>
    ensures { IfOk result (λ line. line ≡ worded word.now (decimal n)) }
{
    let digits = format!(in alloc; "{n}")?;
    worded(alloc, word, digits.as_bytes())
}

// A word, a space, and a text.
fn worded(alloc: Global, word: &[u8], text: &[u8]) -> Result<Bytes, NoMemory>
    ensures { IfOk result (λ line. line ≡ worded word.now text.now) }
{
    let mut line = Vec::from_slice(alloc, word)?;
    line.push(b' ')?;
    line.extend_from_slice(text)?;
    Ok(Bytes::from_vec(line))
}

fn after_first(
    alloc: Global,
    opening: &Opening,
    kept: Kept<'_>,
    journal: &Journal,
    n: u64,
) -> Result<Option<Bytes>, NoMemory>
    requires registers { map line_of kept.registers.now ≡ lines_of opening.now.registers }
    requires notes { map (λ note. note.now) kept.notes.now ≡ opening.now.notes }
    ensures { IfOk result (λ line. line ≡ slice_get (map task_line opening.now.tasks ++ (map keep_line (kept_lines opening.now.registers opening.now.notes) ++ last_lines journal.now.entries)) n) }
{
    let tasks = opening.tasks.view();
    let count = tasks.len() as u64;
    if n < count {
        let spelled = write_task(alloc, &tasks[n as usize])?;
        let line = worded(alloc, b"task", spelled.view())?;
        Ok(Some(line))
    } else {
        behind_tasks(alloc, opening, kept, journal, n - count)
    }
}

fn behind_tasks(
    alloc: Global,
    opening: &Opening,
    kept: Kept<'_>,
    journal: &Journal,
    n: u64,
) -> Result<Option<Bytes>, NoMemory>
    requires registers { map line_of kept.registers.now ≡ lines_of opening.now.registers }
    requires notes { map (λ note. note.now) kept.notes.now ≡ opening.now.notes }
    ensures { IfOk result (λ line. line ≡ slice_get (map keep_line (kept_lines opening.now.registers opening.now.notes) ++ last_lines journal.now.entries) n) }
{
    let count = kept.registers.len() as u64;
    if n < count {
        let written = register_line(alloc, kept.registers[n as usize])?;
        let line = worded(alloc, b"keep", written.view())?;
        Ok(Some(line))
    } else {
        behind_registers(alloc, opening, kept.notes, journal, n - count)
    }
}

fn behind_registers(
    alloc: Global,
    opening: &Opening,
    notes: &[&Note],
    journal: &Journal,
    n: u64,
) -> Result<Option<Bytes>, NoMemory>
    requires { map (λ note. note.now) notes.now ≡ opening.now.notes }
    ensures { IfOk result (λ line. line ≡ slice_get (map keep_line (map written_note opening.now.notes) ++ last_lines journal.now.entries) n) }
{
    let _known = opening.notes.line(0);
    let count = notes.len() as u64;
    if n < count {
        let line = noted_line(alloc, notes[n as usize])?;
        Ok(Some(line))
    } else {
        last_line(alloc, journal, n - count)
    }
}

fn noted_line(alloc: Global, note: &Note) -> Result<Bytes, NoMemory>
    requires { IsNote note.now }
    ensures { IfOk result (λ line. line ≡ keep_line (written_note note.now)) }
{
    let written = note_line(alloc, note.key(), note.line())?;
    worded(alloc, b"keep", written.view())
}

// `begin`, a line for each entry, and their number.
fn last_line(alloc: Global, journal: &Journal, n: u64) -> Result<Option<Bytes>, NoMemory>
    ensures { IfOk result (λ line. line ≡ slice_get (last_lines journal.now.entries) n) }
{
    if n == 0 {
        let line = Bytes::copy(alloc, b"begin")?;
        Ok(Some(line))
    } else {
        behind_begin(alloc, journal, n - 1)
    }
}

fn behind_begin(alloc: Global, journal: &Journal, n: u64) -> Result<Option<Bytes>, NoMemory>
    ensures { IfOk result (λ line. line ≡ slice_get (map entry_line journal.now.entries ++ end_line (length journal.now.entries) ∷ []) n) }
{
    match journal.entry(n) {
        Some(entry) => {
            let line = print_lent(alloc, entry)?;
            Ok(Some(line))
        }
        None => {
            let count = journal.len();
            if n > count {
                return Ok(None);
            }
            let line = numbered(alloc, b"end", count)?;
            Ok(Some(line))
        }
    }
}
