// Writing a kept file.
ghost use Rattle.std.specs.Prelude.{◌≡◌, ◌++◌, ◌∷◌, [], All, IfOk, OnOk, map, filter};
ghost use Rattle.ann_key.specs.KeyRefs.{text_of};
ghost use Rattle.annex_model.specs.Lines.{text as text_of_lines};
ghost use Rattle.registers.specs.RegLines.{line_of as register_line, lines_of};
ghost use Rattle.task_text.specs.ChunkLog.ChunkLines.{IsWritable, line_text};
ghost use Rattle.task_text.specs.ChunkLog.NoteBooks.{IsNote};
ghost use Rattle.kept_file.specs.Text.KeptLines.{Chunks, line_of as kept_line};
ghost use Rattle.kept_file.specs.Text.KeptFiles.{kept_text, is_config, is_of_kind, lines_of_kind, written_line, written_note};

use ann_key::{Bytes, KeyRef, NoMemory};
use registers::{RegLine, Registers};
use std::alloc::Global;
use task_text::chunk_log::{ChunkLine, Note, NoteBook, write_line};

/// The text of a kept file: the config values of the first registers, all else of the second, and the notes.
pub fn write_keep(
    alloc: Global,
    config: &Registers,
    now: &Registers,
    notes: &NoteBook,
) -> Result<Bytes, NoMemory>
    ensures { IfOk result (λ bytes. bytes ≡ kept_text config.now now.now notes.now) }
{
    let mut text = Vec::from_slice(alloc, b"annex-keep 1\n")?;
    push_registers(&mut text, config, true)?;
    push_registers(&mut text, now, false)?;
    push_notes(alloc, &mut text, notes)?;
    Ok(Bytes::from_vec(text))
}

// The lines of the registers that are config lines, or the others.
fn push_registers(text: &mut Vec<u8>, registers: &Registers, config: bool) -> Result<(), NoMemory>
    ensures { OnOk result (text.new.items ≡ text.old.items ++ text_of_lines (lines_of_kind config registers.now)) }
{
    let lines = registers.lines()?;
    push_kind(text, lines.as_slice(), config)
}

fn push_kind(text: &mut Vec<u8>, lines: &[RegLine<'_>], config: bool) -> Result<(), NoMemory>
    ensures { OnOk result (text.new.items ≡ text.old.items ++ text_of_lines (map written_line (filter (is_of_kind config) (map register_line lines.now)))) }
{
    for line in lines {
        push_if(text, line, config)?;
    }
    Ok(())
}

fn push_if(text: &mut Vec<u8>, line: &RegLine<'_>, config: bool) -> Result<(), NoMemory>
    ensures { OnOk result (text.new.items ≡ text.old.items ++ text_of_lines (map written_line (filter (is_of_kind config) (register_line line.now ∷ [])))) }
{
    if is_config(line) == config {
        push_register(text, *line)
    } else {
        Ok(())
    }
}

fn is_config(line: &RegLine<'_>) -> bool
    ensures { result ≡ is_config (register_line line.now) }
{
    match line {
        RegLine::Config { .. } => true,
        RegLine::Wanted { .. } | RegLine::State { .. } | RegLine::Url { .. } => false,
    }
}

fn push_register(text: &mut Vec<u8>, line: RegLine<'_>) -> Result<(), NoMemory>
    ensures { OnOk result (text.new.items ≡ text.old.items ++ text_of_lines (written_line (register_line line.entry) ∷ [])) }
{
    match line {
        RegLine::Config { name, value } => push_two(text, b"config", name, value),
        RegLine::Wanted { value } => push_one(text, b"wanted", value),
        RegLine::State { key, value } => push_two(text, b"state", key, value),
        RegLine::Url { key, url } => push_two(text, b"url", key, url),
    }
}

// The word and a field after a space.
fn push_one(text: &mut Vec<u8>, word: &[u8], field: &[u8]) -> Result<(), NoMemory>
    ensures { OnOk result (text.new.items ≡ text.old.items ++ ((word.now ++ 32 ∷ field.now) ++ 10 ∷ [])) }
{
    text.extend_from_slice(word)?;
    push_field(text, field)?;
    text.push(b'\n')?;
    Ok(())
}

// A space, and the field.
fn push_field(text: &mut Vec<u8>, field: &[u8]) -> Result<(), NoMemory>
    ensures { OnOk result (text.new.items ≡ text.old.items ++ 32 ∷ field.now) }
{
    text.push(b' ')?;
    text.extend_from_slice(field)?;
    Ok(())
}

// The word and two fields, each after a space.
fn push_two(text: &mut Vec<u8>, word: &[u8], first: &[u8], second: &[u8]) -> Result<(), NoMemory>
    ensures { OnOk result (text.new.items ≡ text.old.items ++ ((word.now ++ 32 ∷ (first.now ++ 32 ∷ second.now)) ++ 10 ∷ [])) }
{
    text.extend_from_slice(word)?;
    push_field(text, first)?;
    push_field(text, second)?;
    text.push(b'\n')?;
    Ok(())
}

fn push_notes(alloc: Global, text: &mut Vec<u8>, notes: &NoteBook) -> Result<(), NoMemory>
    ensures { OnOk result (text.new.items ≡ text.old.items ++ text_of_lines (map written_note notes.now)) }
{
    let lines = note_lines(alloc, notes)?;
    push_lines(text, lines.as_slice())
}

fn note_lines(alloc: Global, notes: &NoteBook) -> Result<Vec<Bytes>, NoMemory>
    ensures { IfOk result (λ lines. lines.items ≡ map written_note notes.now) }
{
    let noted = notes.lines()?;
    noted_lines(alloc, noted.as_slice())
}

fn noted_lines(alloc: Global, notes: &[&Note]) -> Result<Vec<Bytes>, NoMemory>
    requires { All (λ note. IsNote note.now) notes.now }
    ensures { IfOk result (λ lines. lines.items ≡ map (λ note. written_note note.now) notes.now) }
{
    let mut lines = Vec::new(alloc);
    for note in notes {
        push_note(alloc, &mut lines, note)?;
    }
    Ok(lines)
}

fn push_note(alloc: Global, lines: &mut Vec<Bytes>, note: &Note) -> Result<(), NoMemory>
    requires { IsNote note.now }
    ensures { OnOk result (lines.new.items ≡ lines.old.items ++ written_note note.now ∷ []) }
{
    let line = note_line(alloc, note.key(), note.line())?;
    lines.push(line)?;
    Ok(())
}

/// The line of a key's note, without its end.
pub fn note_line(alloc: Global, key: KeyRef<'_>, line: &ChunkLine) -> Result<Bytes, NoMemory>
    requires { IsWritable line.now }
    ensures { IfOk result (λ bytes. bytes ≡ kept_line (Chunks (text_of key.entry) (line_text line.now))) }
{
    let log = write_line(alloc, line)?;
    written_two(alloc, b"chunks", key.text(), log.view())
}

fn push_lines(text: &mut Vec<u8>, lines: &[Bytes]) -> Result<(), NoMemory>
    ensures { OnOk result (text.new.items ≡ text.old.items ++ text_of_lines lines.now) }
{
    for line in lines {
        push_line(text, line.view())?;
    }
    Ok(())
}

fn push_line(text: &mut Vec<u8>, line: &[u8]) -> Result<(), NoMemory>
    ensures { OnOk result (text.new.items ≡ (text.old.items ++ line.now) ++ 10 ∷ []) }
{
    text.extend_from_slice(line)?;
    text.push(b'\n')?;
    Ok(())
}

/// The line of a register, without its end.
pub fn register_line(alloc: Global, line: RegLine<'_>) -> Result<Bytes, NoMemory>
    ensures { IfOk result (λ bytes. bytes ≡ written_line (register_line line.entry)) }
{
    match line {
        RegLine::Config { name, value } => written_two(alloc, b"config", name, value),
        RegLine::Wanted { value } => written_one(alloc, b"wanted", value),
        RegLine::State { key, value } => written_two(alloc, b"state", key, value),
        RegLine::Url { key, url } => written_two(alloc, b"url", key, url),
    }
}

// A word and a field after a space.
pub(crate) fn written_one(alloc: Global, word: &[u8], field: &[u8]) -> Result<Bytes, NoMemory>
    ensures { IfOk result (λ bytes. bytes ≡ word.now ++ 32 ∷ field.now) }
{
    let mut line = Vec::from_slice(alloc, word)?;
    push_field(&mut line, field)?;
    Ok(Bytes::from_vec(line))
}

// A word and two fields, each after a space.
pub(crate) fn written_two(
    alloc: Global,
    word: &[u8],
    first: &[u8],
    second: &[u8],
) -> Result<Bytes, NoMemory>
    ensures { IfOk result (λ bytes. bytes ≡ word.now ++ 32 ∷ (first.now ++ 32 ∷ second.now)) }
{
    let mut line = Vec::from_slice(alloc, word)?;
    push_field(&mut line, first)?;
    push_field(&mut line, second)?;
    Ok(Bytes::from_vec(line))
}
