// What happened, as the fields of a line say it.
ghost use Rattle.std.specs.Prelude.{◌≡◌, IfOk, drop};
ghost use Rattle.journal_text.specs.Entries.Entries.{what_at, what_rows, ask_at, lead_at, put_at, got_at, verdict_what, note_at, answer_what, again_what, entry_at};
ghost use Rattle.journal_text.specs.Entries.Fields.{by_rows};

use crate::entries::answers::answer_at;
use crate::entries::fields::{first_of, number_at, numbers_at, rest_of, small_at, smalls_at};
use crate::entries::verdicts::verdict_at;
use crate::entries::whys::why_at;
use ann_key::{Bytes, NoMemory};
use journal_model::{Entry, What};
use std::alloc::Global;

/// The entry that the line says, if it says one. It may say it in another way than it is written.
pub(crate) fn entry_at(alloc: Global, text: &[u8]) -> Result<Option<Entry>, NoMemory>
    ensures { IfOk result (λ entry. entry ≡ entry_at text.now) }
{
    let Some(by) = small_at(text) else {
        return Ok(None);
    };
    match what_at(alloc, rest_of(text))? {
        Some(what) => Ok(Some(Entry { by, what })),
        None => Ok(None),
    }
}

fn what_at(alloc: Global, text: &[u8]) -> Result<Option<What>, NoMemory>
    ensures { IfOk result (λ what. what ≡ what_at text.now) }
{
    by_word(alloc, first_of(text), rest_of(text))
}

// The kinds that hold a line, and then the others.
fn by_word(alloc: Global, word: &[u8], text: &[u8]) -> Result<Option<What>, NoMemory>
    ensures { IfOk result (λ what. what ≡ by_rows what_rows word.now text.now) }
{
    if word == b"ask".as_slice() {
        ask_at(alloc, text)
    } else if word == b"put".as_slice() {
        put_at(alloc, text)
    } else if word == b"lead".as_slice() {
        lead_at(alloc, text)
    } else if word == b"got".as_slice() {
        got_at(alloc, text)
    } else if word == b"answer".as_slice() {
        answered(alloc, text)
    } else if word == b"again".as_slice() {
        again_at(alloc, text)
    } else {
        Ok(of_run(word, text))
    }
}

fn ask_at(alloc: Global, text: &[u8]) -> Result<Option<What>, NoMemory>
    ensures { IfOk result (λ what. what ≡ ask_at text.now) }
{
    let Some((child, job)) = numbers_at(text) else {
        return Ok(None);
    };
    let text = rest_of(rest_of(text));
    let Some(task) = small_at(text) else {
        return Ok(None);
    };
    let line = Bytes::copy(alloc, rest_of(text))?;
    Ok(Some(What::Ask {
        child,
        job,
        task,
        line,
    }))
}

fn put_at(alloc: Global, text: &[u8]) -> Result<Option<What>, NoMemory>
    ensures { IfOk result (λ what. what ≡ put_at text.now) }
{
    let Some((child, job)) = numbers_at(text) else {
        return Ok(None);
    };
    let line = Bytes::copy(alloc, rest_of(rest_of(text)))?;
    Ok(Some(What::Put { child, job, line }))
}

fn lead_at(alloc: Global, text: &[u8]) -> Result<Option<What>, NoMemory>
    ensures { IfOk result (λ what. what ≡ lead_at text.now) }
{
    let Some((child, job)) = numbers_at(text) else {
        return Ok(None);
    };
    let line = Bytes::copy(alloc, rest_of(rest_of(text)))?;
    Ok(Some(What::Lead { child, job, line }))
}

fn got_at(alloc: Global, text: &[u8]) -> Result<Option<What>, NoMemory>
    ensures { IfOk result (λ what. what ≡ got_at text.now) }
{
    let Some(child) = small_at(text) else {
        return Ok(None);
    };
    let line = Bytes::copy(alloc, rest_of(text))?;
    Ok(Some(What::Got { child, line }))
}

fn answered(alloc: Global, text: &[u8]) -> Result<Option<What>, NoMemory>
    ensures { IfOk result (λ what. what ≡ answer_what text.now) }
{
    let Some(task) = small_at(text) else {
        return Ok(None);
    };
    match answer_at(alloc, rest_of(text))? {
        Some(answer) => Ok(Some(What::Answer { task, answer })),
        None => Ok(None),
    }
}

fn again_at(alloc: Global, text: &[u8]) -> Result<Option<What>, NoMemory>
    ensures { IfOk result (λ what. what ≡ again_what text.now) }
{
    let Some(task) = small_at(text) else {
        return Ok(None);
    };
    match answer_at(alloc, rest_of(text))? {
        Some(answer) => Ok(Some(What::Again { task, answer })),
        None => Ok(None),
    }
}

// Starts, claims and what becomes of them.
fn of_run(word: &[u8], text: &[u8]) -> Option<What>
    ensures { result ≡ by_rows (drop 6 what_rows) word.now text.now }
{
    if word == b"claim".as_slice() {
        let (task, child) = smalls_at(text)?;
        Some(What::Claim { task, child })
    } else if word == b"start".as_slice() {
        let (child, slot) = smalls_at(text)?;
        let offer = rest_of(rest_of(text)) == b"async".as_slice();
        Some(What::Start { child, slot, offer })
    } else if word == b"nostart".as_slice() {
        let slot = small_at(text)?;
        Some(What::NoStart { slot })
    } else if word == b"lost".as_slice() {
        let (child, task) = smalls_at(text)?;
        Some(What::Lost { child, task })
    } else {
        of_child(word, text)
    }
}

// What happens with a child.
fn of_child(word: &[u8], text: &[u8]) -> Option<What>
    ensures { result ≡ by_rows (drop 10 what_rows) word.now text.now }
{
    if word == b"sent".as_slice() {
        let child = small_at(text)?;
        Some(What::Sent { child })
    } else if word == b"mute".as_slice() {
        let child = small_at(text)?;
        Some(What::Mute { child })
    } else if word == b"end".as_slice() {
        let child = small_at(text)?;
        let why = why_at(rest_of(text))?;
        Some(What::End { child, why })
    } else if word == b"verdict".as_slice() {
        verdict_what(text)
    } else if word == b"note".as_slice() {
        note_at(text)
    } else {
        None
    }
}

fn verdict_what(text: &[u8]) -> Option<What>
    ensures { result ≡ verdict_what text.now }
{
    let (child, job) = numbers_at(text)?;
    let verdict = verdict_at(rest_of(rest_of(text)))?;
    Some(What::Verdict {
        child,
        job,
        verdict,
    })
}

fn note_at(text: &[u8]) -> Option<What>
    ensures { result ≡ note_at text.now }
{
    let (task, chunk) = numbers_at(text)?;
    let count = number_at(rest_of(rest_of(text)))?;
    Some(What::Note { task, chunk, count })
}
