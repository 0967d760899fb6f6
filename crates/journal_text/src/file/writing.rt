// Writes the text of a run at a desk, in pieces of whole lines.
ghost use Rattle.std.specs.Prelude.{◌≡◌, ◌+◌, ◌<◌, ◌≤◌, ◌⊎◌, [], Err, IfErr, IfOk, IsTrue, OnOk, None, Some, length, map, option_map, slice_get};
ghost use Rattle.ann_outside.specs.DeskCauses.{HasCauses};
ghost use Rattle.ann_outside.specs.Files.{WhereTold};
ghost use Rattle.ann_outside.specs.TextFile.Writes.{GrowsBy};
ghost use Rattle.registers.specs.RegLines.{line_of, lines_of};
ghost use Rattle.journal_text.specs.Lines.JournalTexts.{journal_lines};
ghost use Rattle.journal_text.specs.File.JournalDesks.{AppendsLines, HasWriteCauses, IsMadeAs, IsWrittenBy, IsWrittenIn, MakesLines, MakesSynced, RefusesPiece, TakesUp, journal_text, with_end};

use crate::lines::{Kept, print_kept};
use ann_key::NoMemory;
use ann_outside::{Desk, DeskError};
use journal_look::Journal;
use journal_model::Opening;
use std::alloc::Global;

// The most bytes of a piece of several lines.
const MOST: usize = 65536;

/// What came of writing a journal file.
#[derive(Clone, Copy, Debug, PartialEq, Eq)]
pub enum JournalWritten {
    Done,
    /// A call of the desk failed or missed a file, and that was counted. The file may be there with less than the text.
    Fault,
}

/// Makes the file anew, and adds the text of the run to it in pieces of whole lines, of up to 64 KiB. It takes memory for a piece,
/// and for the lists of the registers' lines and of the notes. At `Done` the text is on the disk.
pub fn write_journal<D: Desk>(
    alloc: Global,
    desk: &mut D,
    name: &str,
    opening: &Opening,
    journal: &Journal,
) -> Result<JournalWritten, NoMemory>
    ensures calls { IsWrittenBy (D.told desk.old).log (D.told desk.new).log name.now (journal_lines opening.now journal.now.entries) result }
    ensures files { WhereTold (D.told desk.old).files (D.told desk.new).files (IsWrittenIn name.now (journal_text opening.now journal.now.entries) result) }
    ensures causes { HasWriteCauses (D.told desk.old).files (D.told desk.old).counts (D.told desk.new).counts result }
{
    match make_synced(alloc, desk, name, opening, journal) {
        Ok(()) => Ok(JournalWritten::Done),
        Err(DeskError::Failed | DeskError::Missing) => Ok(JournalWritten::Fault),
        Err(DeskError::NoMemory) => Err(NoMemory),
    }
}

// Makes the file, adds all lines to it, and waits until they are on the disk.
fn make_synced<D: Desk>(
    alloc: Global,
    desk: &mut D,
    name: &str,
    opening: &Opening,
    journal: &Journal,
) -> Result<(), DeskError>
    ensures calls { MakesSynced (D.told desk.old).log (D.told desk.new).log name.now (journal_lines opening.now journal.now.entries) result }
    ensures files { WhereTold (D.told desk.old).files (D.told desk.new).files (IsMadeAs name.now (journal_text opening.now journal.now.entries) result) }
    ensures causes { HasCauses (D.told desk.old).counts (D.told desk.new).counts result }
    ensures found { result ≡ Err DeskError.Missing → (D.told desk.old).files ≡ None }
{
    make_text(alloc, desk, name, opening, journal)?;
    desk.sync(name)
}

// Makes the file, and adds all lines to it.
fn make_text<D: Desk>(
    alloc: Global,
    desk: &mut D,
    name: &str,
    opening: &Opening,
    journal: &Journal,
) -> Result<(), DeskError>
    ensures calls { MakesLines (D.told desk.old).log (D.told desk.new).log name.now (journal_lines opening.now journal.now.entries) result }
    ensures files { WhereTold (D.told desk.old).files (D.told desk.new).files (IsMadeAs name.now (journal_text opening.now journal.now.entries) result) }
    ensures causes { HasCauses (D.told desk.old).counts (D.told desk.new).counts result }
    ensures found { result ≡ Err DeskError.Missing → (D.told desk.old).files ≡ None }
{
    let Ok(registers) = opening.registers.lines() else {
        return Err(DeskError::NoMemory);
    };
    let Ok(notes) = opening.notes.lines() else {
        return Err(DeskError::NoMemory);
    };
    let kept = Kept {
        registers: registers.as_slice(),
        notes: notes.as_slice(),
    };
    let Ok(lines) = line_count(opening, kept, journal) else {
        return Err(DeskError::NoMemory);
    };
    if let Err(error) = desk.create(name) {
        return Err(error);
    }
    append_lines(alloc, desk, name, opening, kept, journal, lines)
}

// How many lines the text has.
fn line_count(opening: &Opening, kept: Kept<'_>, journal: &Journal) -> Result<u64, NoMemory>
    requires registers { map line_of kept.registers.now ≡ lines_of opening.now.registers }
    requires notes { map (λ note. note.now) kept.notes.now ≡ opening.now.notes }
    ensures { IfOk result (λ count. count ≡ length (journal_lines opening.now journal.now.entries)) }
{
    let tasks = opening.tasks.view().len() as u64;
    let registers = kept.registers.len() as u64;
    let notes = kept.notes.len() as u64;
    let listed = registers.checked_add(notes).ok_or(NoMemory)?;
    let given = tasks.checked_add(listed).ok_or(NoMemory)?;
    let entries = journal.len().checked_add(8).ok_or(NoMemory)?;
    given.checked_add(entries).ok_or(NoMemory)
}

// Adds the lines at the end of the file. They are counted before, and none past the last is asked for: running out of memory for it
// would come after the last piece was full, and an error says that some call was not made.
fn append_lines<D: Desk>(
    alloc: Global,
    desk: &mut D,
    name: &str,
    opening: &Opening,
    kept: Kept<'_>,
    journal: &Journal,
    lines: u64,
) -> Result<(), DeskError>
    requires registers { map line_of kept.registers.now ≡ lines_of opening.now.registers }
    requires notes { map (λ note. note.now) kept.notes.now ≡ opening.now.notes }
    requires lines { lines ≡ length (journal_lines opening.now journal.now.entries) }
    ensures calls { AppendsLines (D.told desk.old).log (D.told desk.new).log name.now (journal_lines opening.now journal.now.entries) result }
    ensures files { WhereTold (D.told desk.old).files (D.told desk.new).files (GrowsBy name.now (journal_text opening.now journal.now.entries) result) }
    ensures causes { HasCauses (D.told desk.old).counts (D.told desk.new).counts result }
{
    let mut piece = Vec::new(alloc);
    for n in 0..lines {
        let Ok(line) = ended_line(alloc, opening, kept, journal, n) else {
            return Err(DeskError::NoMemory);
        };
        if let Err(error) = take_up(desk, name, &mut piece, line) {
            return Err(error);
        }
    }
    desk.append(name, piece.as_slice())
}

// Puts the line after the piece. Where that would make it too long, the piece is added to the file, and the line is the next piece.
fn take_up<D: Desk>(
    desk: &mut D,
    name: &str,
    piece: &mut Vec<u8>,
    line: Vec<u8>,
) -> Result<(), DeskError>
    ensures ok { OnOk result (TakesUp (D.told desk.old).log (D.told desk.new).log (D.told desk.old).files (D.told desk.new).files name.now piece.old.items line.items piece.new.items) }
    ensures err { IfErr result (λ e. RefusesPiece (D.told desk.old).log (D.told desk.new).log (D.told desk.old).files (D.told desk.new).files name.now piece.old.items e) }
    ensures causes { HasCauses (D.told desk.old).counts (D.told desk.new).counts result }
{
    if joins(piece.as_slice(), line.as_slice()) {
        return match piece.extend_from_slice(line.as_slice()) {
            Ok(()) => Ok(()),
            Err(_) => Err(DeskError::NoMemory),
        };
    }
    if let Err(error) = desk.append(name, piece.as_slice()) {
        return Err(error);
    }
    *piece = line;
    Ok(())
}

// Whether the line may join the piece: an empty piece takes any line.
fn joins(piece: &[u8], line: &[u8]) -> bool
    ensures { IsTrue result → piece.now ≡ [] ⊎ length piece.now + length line.now ≤ 65536 }
{
    piece.is_empty() || piece.len() <= MOST && line.len() <= MOST - piece.len()
}

// A line of the text with its end. There is such a line, so any other answer is out of memory.
fn ended_line(
    alloc: Global,
    opening: &Opening,
    kept: Kept<'_>,
    journal: &Journal,
    n: u64,
) -> Result<Vec<u8>, NoMemory>
    requires registers { map line_of kept.registers.now ≡ lines_of opening.now.registers }
    requires notes { map (λ note. note.now) kept.notes.now ≡ opening.now.notes }
    requires within { n < length (journal_lines opening.now journal.now.entries) }
    ensures { IfOk result (λ line. Some line.items ≡ option_map with_end (slice_get (journal_lines opening.now journal.now.entries) n)) }
{
    match print_kept(alloc, opening, kept, journal, n) {
        Ok(Some(line)) => {
            let mut bytes = line.into_vec();
            bytes.push(b'\n')?;
            Ok(bytes)
        }
        _ => Err(NoMemory),
    }
}
