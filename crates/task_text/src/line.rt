ghost use Rattle.std.specs.Prelude.{◌≡◌, ◌+◌, ◌++◌, ◌∷◌, ◌&&◌, [], false, true, not, if◌then◌else◌, IfErr, IfOk, OnOk, IsTrue, MatchResult, None, ◌↔◌};
ghost use Rattle.std.specs.List.{after_first, before_first};
ghost use Rattle.ann_key.specs.KeyRefs.{text_of};
ghost use Rattle.task_text.specs.TaskLines.{behind_key, file_in, is_file, is_name, is_space, is_tab, is_task_key, key_in, name_in, onto_in};
ghost use Rattle.task_text.specs.TaskLines.{fault_of, line_of, IsKeyFault, IsReading, IsTask, SpellsTask};
ghost use Rattle.task_text.specs.declared.task.Task.{Task};

use crate::error::TaskError;
use crate::task::{Task, Work};
use ann_key::{Bytes, Key, KeyRef, NoMemory, Text, cut_at, has_byte};
use std::alloc::Global;
use std::str;

/// The task that the line spells, or the first thing that is wrong with it.
pub fn read_task(alloc: Global, line: &[u8]) -> Result<Task, TaskError>
    ensures reading { IsReading line.now result }
    ensures back { (task : Task) → SpellsTask task line.now → MatchResult result (λ read. read ≡ task) (λ fault. fault ≡ TaskError.NoMemory) }
    ensures at_most_one { (task other : Task) → SpellsTask task line.now → SpellsTask other line.now → task ≡ other }
    ensures right { (fault_of line.now ≡ None) ↔ ((task : Task) × SpellsTask task line.now) }
{
    read_parts(alloc, line)
}

fn read_parts(alloc: Global, line: &[u8]) -> Result<Task, TaskError>
    ensures { IsReading line.now result }
{
    let (word, rest) = split_at_space(line);
    let Some(work) = Work::read(word) else {
        return Err(TaskError::Word);
    };
    let parts = parts_of(work, rest);
    let key = read_key(parts.key)?;
    let file = read_file(work.names_file(), parts.file)?;
    let name = read_name(work.has_name(), parts.name)?;
    let onto = read_name(work.has_onto(), parts.onto)?;
    make_task(alloc, work, key, file, name, onto)
}

fn make_task(
    alloc: Global,
    work: Work,
    key: KeyRef<'_>,
    file: &str,
    name: &str,
    onto: &str,
) -> Result<Task, TaskError>
    ensures { MatchResult result (λ task. task ≡ record { work = work; key = text_of key.entry; file = file.now; name = name.now; onto = onto.now }) (λ fault. fault ≡ TaskError.NoMemory) }
{
    let key = Key::copy(alloc, key)?;
    let file = Text::copy(alloc, file)?;
    let name = Text::copy(alloc, name)?;
    let onto = Text::copy(alloc, onto)?;
    Ok(Task {
        work,
        key,
        file,
        name,
        onto,
    })
}

// The parts of what follows a line's word. Those that the work hasn't are empty.
#[derive(Clone, Copy)]
struct Parts<'a> {
    key: &'a [u8],
    file: &'a [u8],
    name: &'a [u8],
    onto: &'a [u8],
}

fn parts_of(work: Work, rest: &[u8]) -> Parts<'_>
    ensures key { result.key.now ≡ key_in work rest.now }
    ensures file { result.file.now ≡ file_in work (after_first is_space rest.now) }
    ensures name { result.name.now ≡ name_in work (after_first is_space rest.now) }
    ensures onto { result.onto.now ≡ onto_in work (after_first is_space rest.now) }
{
    let (key, words) = split_at_space(rest);
    let (first, second) = split_at_tab(words);
    match work {
        Work::Check | Work::Drop => Parts {
            key: rest,
            file: &[],
            name: &[],
            onto: &[],
        },
        Work::Store | Work::Get => Parts {
            key,
            file: words,
            name: &[],
            onto: &[],
        },
        Work::XStore | Work::XGet => Parts {
            key,
            file: first,
            name: second,
            onto: &[],
        },
        Work::XCheck | Work::XDrop => Parts {
            key,
            file: &[],
            name: words,
            onto: &[],
        },
        Work::XRename => Parts {
            key,
            file: &[],
            name: first,
            onto: second,
        },
    }
}

// What stands before the first space, or all, and what follows it.
fn split_at_space(bytes: &[u8]) -> (&[u8], &[u8])
    ensures before { result.0.now ≡ before_first is_space bytes.now }
    ensures behind { result.1.now ≡ after_first is_space bytes.now }
{
    cut_at(bytes, b' ')
}

// The same at the first byte 9.
fn split_at_tab(bytes: &[u8]) -> (&[u8], &[u8])
    ensures before { result.0.now ≡ before_first is_tab bytes.now }
    ensures behind { result.1.now ≡ after_first is_tab bytes.now }
{
    cut_at(bytes, b'\t')
}

// The key, where a request can carry it and it is no chunk's.
fn read_key(bytes: &[u8]) -> Result<KeyRef<'_>, TaskError>
    ensures ok { IfOk result (λ key. (text_of key ≡ bytes.now) × IsTrue (is_task_key bytes.now)) }
    ensures err { IfErr result (λ fault. IsKeyFault bytes.now fault) }
{
    let Ok(key) = KeyRef::read(bytes) else {
        return Err(TaskError::Key);
    };
    if !key.sendable() {
        return Err(TaskError::Unsendable);
    }
    if key.chunk().is_some() {
        return Err(TaskError::ChunkKey);
    }
    Ok(key)
}

// The file that the bytes name, or none where none is wanted.
fn read_file(wanted: bool, bytes: &[u8]) -> Result<&str, TaskError>
    ensures ok { IfOk result (λ file. (file.now ≡ (if wanted then bytes.now else [])) × ((wanted && not (is_file bytes.now)) ≡ false)) }
    ensures err { IfErr result (λ fault. (fault ≡ TaskError.File) × ((wanted && not (is_file bytes.now)) ≡ true)) }
{
    if !wanted {
        return Ok("");
    }
    text_of_file(bytes)
}

// The same of a name.
fn read_name(wanted: bool, bytes: &[u8]) -> Result<&str, TaskError>
    ensures ok { IfOk result (λ name. (name.now ≡ (if wanted then bytes.now else [])) × ((wanted && not (is_name bytes.now)) ≡ false)) }
    ensures err { IfErr result (λ fault. (fault ≡ TaskError.Name) × ((wanted && not (is_name bytes.now)) ≡ true)) }
{
    if !wanted {
        return Ok("");
    }
    text_of_name(bytes)
}

fn text_of_file(bytes: &[u8]) -> Result<&str, TaskError>
    ensures ok { IfOk result (λ file. (file.now ≡ bytes.now) × IsTrue (is_file bytes.now)) }
    ensures err { IfErr result (λ fault. (fault ≡ TaskError.File) × (is_file bytes.now ≡ false)) }
{
    if bytes.is_empty() || has_byte(bytes, b'\n') {
        return Err(TaskError::File);
    }
    match str::from_utf8(bytes) {
        Ok(file) => Ok(file),
        Err(_) => Err(TaskError::File),
    }
}

fn text_of_name(bytes: &[u8]) -> Result<&str, TaskError>
    ensures ok { IfOk result (λ name. (name.now ≡ bytes.now) × IsTrue (is_name bytes.now)) }
    ensures err { IfErr result (λ fault. (fault ≡ TaskError.Name) × (is_name bytes.now ≡ false)) }
{
    if has_byte(bytes, b'\t') {
        return Err(TaskError::Name);
    }
    match text_of_file(bytes) {
        Ok(name) => Ok(name),
        Err(_) => Err(TaskError::Name),
    }
}

/// The line of the task, without its end.
pub fn write_task(alloc: Global, task: &Task) -> Result<Bytes, NoMemory>
    ensures line { IfOk result (λ line. line ≡ line_of task.now) }
    ensures spelled { IfOk result (λ line. IsTask task.now → SpellsTask task.now line) }
{
    let mut line = Vec::from_slice(alloc, task.work.word())?;
    line.push(b' ')?;
    line.extend_from_slice(task.key.view().text())?;
    push_words(&mut line, task)?;
    Ok(Bytes::from_vec(line))
}

// What follows the key.
fn push_words(line: &mut Vec<u8>, task: &Task) -> Result<(), NoMemory>
    ensures { OnOk result (line.new.items ≡ line.old.items ++ behind_key task.now.work task.now.file task.now.name task.now.onto) }
{
    match task.work {
        Work::Check | Work::Drop => Ok(()),
        Work::Store | Work::Get => push_word(line, b' ', &task.file),
        Work::XCheck | Work::XDrop => push_word(line, b' ', &task.name),
        Work::XStore | Work::XGet => {
            push_word(line, b' ', &task.file)?;
            push_word(line, b'\t', &task.name)
        }
        Work::XRename => {
            push_word(line, b' ', &task.name)?;
            push_word(line, b'\t', &task.onto)
        }
    }
}

fn push_word(line: &mut Vec<u8>, mark: u8, word: &Text) -> Result<(), NoMemory>
    ensures { OnOk result (line.new.items ≡ line.old.items ++ mark ∷ word.now) }
{
    line.push(mark)?;
    line.extend_from_slice(word.view().as_bytes())?;
    Ok(())
}
