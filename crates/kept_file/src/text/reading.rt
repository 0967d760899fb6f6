// Reading a kept file.
ghost use Rattle.std.specs.Prelude.{◌≡◌, ◌++◌, ◌∷◌, [], not, None, Some, IfOk, IfErr, OnOk, IsTrue, is_some, bytes_eq};
ghost use Rattle.std.specs.List.{cons_option};
ghost use Rattle.ann_key.specs.KeyRefs.{text_of};
ghost use Rattle.annex_model.specs.Lines.{has_newline};
ghost use Rattle.registers.specs.Registers.{is_word, nothing_set};
ghost use Rattle.registers.specs.RegLines.{set_by_lines};
ghost use Rattle.kept_file.specs.Text.KeptLines.{Chunks, KeptFits, chunk_in, is_kept_line, setting_of, note_of};
ghost use Rattle.kept_file.specs.Text.KeptFiles.{head, lines_in, first_bad, bad_line, settings_in, notes_in, registers_of, notes_of, CountsAs, IsFaultOf, IsLineFault, IsFirstFault};
ghost use Rattle.kept_file.specs.Text.Shown.{kept_shown};

use crate::text::error::KeepError;
use crate::text::kept::{Kept, read_kept};
use ann_key::{KeyRef, NoMemory, cut_at};
use registers::Registers;
use std::alloc::Global;
use task_text::chunk_log::{ChunkError, NoteBook, read_line};

/// What the text of a kept file hands on; an empty one hands on nothing.
pub fn read_keep(alloc: Global, text: &[u8]) -> Result<(Registers, NoteBook), KeepError>
    ensures whole { OnOk result (bad_line text.now ≡ None) }
    ensures registers { IfOk result (λ kept. kept.0 ≡ registers_of text.now) }
    ensures notes { IfOk result (λ kept. CountsAs kept.1 (notes_of text.now)) }
    ensures fault { IfErr result (λ fault. IsFaultOf text.now fault) }
{
    let mut registers = Registers::new(alloc);
    let mut notes = NoteBook::new(alloc);
    match take_text(alloc, &mut registers, &mut notes, text) {
        Ok(()) => Ok((registers, notes)),
        Err(error) => {
            // By calls, since what lets them go goes by their kinds.
            drop(registers);
            drop(notes);
            Err(error)
        }
    }
}

// Takes the text where nothing is taken yet.
fn take_text(
    alloc: Global,
    registers: &mut Registers,
    notes: &mut NoteBook,
    text: &[u8],
) -> Result<(), KeepError>
    requires registers { registers.old ≡ nothing_set }
    requires notes { notes.old ≡ [] }
    ensures whole { OnOk result (bad_line text.now ≡ None) }
    ensures registers { OnOk result (registers.new ≡ registers_of text.now) }
    ensures notes { OnOk result (CountsAs notes.new (notes_of text.now)) }
    ensures fault { IfErr result (λ fault. IsFaultOf text.now fault) }
{
    if text.is_empty() {
        return Ok(());
    }
    let (head, lines) = cut_at(text, b'\n');
    if !is_head(head) {
        return Err(KeepError::BadLine { line: 1 });
    }
    take_lines(alloc, registers, notes, lines)
}

fn is_head(line: &[u8]) -> bool
    ensures { result ≡ bytes_eq line.now head }
{
    line == b"annex-keep 1".as_slice()
}

// Takes the lines after the head, which is line 1.
fn take_lines(
    alloc: Global,
    registers: &mut Registers,
    notes: &mut NoteBook,
    text: &[u8],
) -> Result<(), KeepError>
    ensures whole { OnOk result (first_bad 2 (lines_in text.now) ≡ None) }
    ensures registers { OnOk result (registers.new ≡ set_by_lines registers.old (settings_in (lines_in text.now))) }
    ensures notes { OnOk result (CountsAs notes.new (notes.old ++ notes_in (lines_in text.now))) }
    ensures fault { IfErr result (λ fault. IsFirstFault (lines_in text.now) fault) }
{
    let mut rest = text;
    let mut number: u64 = 1;
    while !rest.is_empty() {
        let (line, more) = cut_at(rest, b'\n');
        number += 1;
        take_line(alloc, registers, notes, line, number)?;
        rest = more;
    }
    Ok(())
}

// Takes one line, which has that number.
fn take_line(
    alloc: Global,
    registers: &mut Registers,
    notes: &mut NoteBook,
    line: &[u8],
    number: u64,
) -> Result<(), KeepError>
    requires { IsTrue (not (has_newline line.now)) }
    ensures right { OnOk result (IsTrue (is_kept_line line.now)) }
    ensures registers { OnOk result (registers.new ≡ set_by_lines registers.old (settings_in (line.now ∷ []))) }
    ensures notes { OnOk result (CountsAs notes.new (notes.old ++ notes_in (line.now ∷ []))) }
    ensures fault { IfErr result (λ fault. IsLineFault (is_kept_line line.now) number fault) }
{
    match read_kept(line) {
        None => Err(KeepError::BadLine { line: number }),
        Some(Kept::Chunks(key, log)) => take_chunks(alloc, notes, key, log, number),
        Some(kept) => {
            set(registers, kept)?;
            Ok(())
        }
    }
}

fn set(registers: &mut Registers, kept: Kept<'_>) -> Result<(), NoMemory>
    requires { KeptFits (kept_shown kept) }
    ensures { OnOk result (registers.new ≡ set_by_lines registers.old (cons_option (setting_of (Some (kept_shown kept.entry))) [])) }
{
    match kept {
        Kept::Setting(name, value) => registers.set_config(name, value),
        Kept::Expression(expression) => registers.set_wanted(expression),
        Kept::State(key, value) => registers.set_state(key.text(), value),
        Kept::Url(key, url) => registers.set_url(key.text(), url, true),
        Kept::Chunks(_, _) => Ok(()),
    }
}

// Adds a line of the key's chunk log.
fn take_chunks(
    alloc: Global,
    notes: &mut NoteBook,
    key: KeyRef<'_>,
    log: &[u8],
    number: u64,
) -> Result<(), KeepError>
    requires { IsTrue (is_word (text_of key)) }
    ensures right { OnOk result (IsTrue (is_some (chunk_in log.now))) }
    ensures notes { OnOk result (CountsAs notes.new (notes.old ++ cons_option (note_of (Some (Chunks (text_of key.entry) log.now))) [])) }
    ensures fault { IfErr result (λ fault. IsLineFault (is_some (chunk_in log.now)) number fault) }
{
    match read_line(alloc, log) {
        Ok(line) => {
            notes.add(key, line)?;
            Ok(())
        }
        Err(ChunkError::NoMemory) => Err(KeepError::NoMemory),
        Err(_) => Err(KeepError::BadLine { line: number }),
    }
}
