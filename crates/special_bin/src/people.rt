// What goes on standard error for people, after what the command itself said there.
ghost use Rattle.std.specs.Prelude.{◌≡◌, ◌++◌, ℕ, map, take, true, is_some, IfOk, OnOk};
ghost use Rattle.std.specs.Io.KnownBytes.{Appends};
ghost use Rattle.special_bin.specs.People.{has_hint, line_of, people_text, shown_byte, AreForPeople};

use crate::ended::Ended;
use crate::hints::hint;
use crate::notes::notes;
use ann_key::{Bytes, NoMemory, Text};
use ann_outside::{Failed, Sink, write_all};
use std::alloc::{AllocError, Global};

/// A text for people wasn't written whole: a write failed, or no memory was found.
#[derive(Clone, Copy, Debug, PartialEq, Eq)]
pub(crate) struct Unsaid;

impl From<NoMemory> for Unsaid {
    fn from(_: NoMemory) -> Unsaid {
        Unsaid
    }
}

impl From<Failed> for Unsaid {
    fn from(_: Failed) -> Unsaid {
        Unsaid
    }
}

// The words, with a space in the place of each line end.
fn shown(alloc: Global, words: &[u8]) -> Result<Vec<u8>, AllocError>
    ensures { IfOk result (λ shown. shown.items ≡ map shown_byte words.now) }
{
    words
        .iter()
        .map(|byte| if *byte == b'\n' { b' ' } else { *byte })
        .collect(alloc)
}

fn push_line(alloc: Global, lines: &mut Vec<u8>, start: &[u8], words: &str) -> Result<(), NoMemory>
    ensures { IfOk result (λ _. lines.new.items ≡ lines.old.items ++ line_of start.now words.now) }
{
    let shown = shown(alloc, words.as_bytes())?;
    lines.extend_from_slice(start)?;
    lines.extend_from_slice(shown.as_slice())?;
    lines.push(b'\n')?;
    Ok(())
}

// The second line and the notices.
fn text_of(alloc: Global, hint: &Option<Text>, notes: &[Text]) -> Result<Bytes, NoMemory>
    ensures { IfOk result (λ text. text ≡ people_text hint.now notes.now) }
{
    let mut lines = Vec::new(alloc);
    if let Some(words) = hint {
        push_line(alloc, &mut lines, b"special: ", words.view())?;
    }
    for note in notes {
        push_line(alloc, &mut lines, b"special: note: ", note.view())?;
    }
    Ok(Bytes::from_vec(lines))
}

/// Writes the second line, where there is one, and the notices. Where that isn't done whole, the first bytes of them were written, which
/// may be none.
pub(crate) fn say_lines<E: Sink>(
    alloc: Global,
    hint: &Option<Text>,
    notes: &[Text],
    err: &mut E,
) -> Result<(), Unsaid>
    requires { (E.told err.old).is_open ≡ true }
    ensures whole { OnOk result (Appends (E.told err.old).taken (E.told err.new).taken (people_text hint.now notes.now)) }
    ensures prefix { (n : ℕ) × Appends (E.told err.old).taken (E.told err.new).taken (take n (people_text hint.now notes.now)) }
    ensures open { (E.told err.new).is_open ≡ true }
{
    let text = text_of(alloc, hint, notes)?;
    write_all(err, text.view())?;
    Ok(())
}

// What is to be said.
#[derive(Drop)]
struct Lines {
    hint: Option<Text>,
    notes: Vec<Text>,
}

fn lines_of(alloc: Global, words: &[String], ended: &Ended<'_>) -> Result<Lines, NoMemory>
    ensures { IfOk result (λ lines. is_some lines.hint ≡ has_hint ended.now.status) }
{
    let hint = hint(alloc, words, ended)?;
    let notes = notes(alloc, words, ended)?;
    Ok(Lines { hint, notes })
}

#[tactic(auto, using(crate::proofs::Said::nothing_said, crate::proofs::Said::lines_said))]
fn say_ended<E: Sink>(
    alloc: Global,
    words: &[String],
    ended: &Ended<'_>,
    err: &mut E,
) -> Result<(), Unsaid>
    requires { (E.told err.old).is_open ≡ true }
    ensures { AreForPeople ended.now.status (E.told err.old) (E.told err.new) }
{
    match lines_of(alloc, words, ended) {
        Ok(lines) => say_lines(alloc, &lines.hint, lines.notes.as_slice(), err),
        Err(NoMemory) => Err(Unsaid),
    }
}

/// Says for people what is to be said of a command that ended so: what is wrong where its status is 2, 3, 4, 6 or 7, and notices. Where
/// a write to standard output or standard error has failed nothing is said. Which words these are no clause says: tests do.
#[tactic(auto, using(crate::proofs::Said::nothing_said))]
pub(crate) fn tell_people<E: Sink>(
    alloc: Global,
    words: &[String],
    ended: &Ended<'_>,
    err: &mut E,
) -> Result<(), Unsaid>
    requires { (E.told err.old).is_open ≡ true }
    ensures silent { ended.now.status ≡ 5 → E.told err.new ≡ E.told err.old }
    ensures said { AreForPeople ended.now.status (E.told err.old) (E.told err.new) }
{
    if ended.status == 5 {
        return Ok(());
    }
    say_ended(alloc, words, ended, err)
}
