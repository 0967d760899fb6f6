// A journal as text, for tests to compare and print: a line for each entry, its pass first.
use ann_key::NoMemory;
use journal_look::{Journal, WhatRef};
use std::alloc::Global;
use std::fmt::Debug;
use std::str;

/// The lines of all entries, each with its byte 10.
pub fn text_of(alloc: Global, journal: &Journal) -> Result<String, NoMemory> {
    let mut text = String::new(alloc);
    for at in 0..journal.len() {
        let Some(entry) = journal.entry(at) else {
            break;
        };
        let by = told(alloc, "", &[u64::from(entry.by)], None)?;
        let what = what_text(alloc, entry.what)?;
        text.push_str(by.trim_start())?;
        text.push_str(" ")?;
        text.push_str(what.as_str())?;
        text.push_str("\n")?;
    }
    Ok(text)
}

// A word, numbers, and what stands after them.
fn told(
    alloc: Global,
    word: &str,
    numbers: &[u64],
    rest: Option<&str>,
) -> Result<String, NoMemory> {
    let mut text = String::from_str(alloc, word)?;
    for number in numbers {
        let number = format!(in alloc; " {number}")?;
        text.push_str(number.as_str())?;
    }
    if let Some(rest) = rest {
        text.push_str(" ")?;
        text.push_str(rest)?;
    }
    Ok(text)
}

fn named(alloc: Global, value: &impl Debug) -> Result<String, NoMemory> {
    Ok(format!(in alloc; "{value:?}")?)
}

fn what_text(alloc: Global, what: WhatRef<'_>) -> Result<String, NoMemory> {
    match what {
        WhatRef::Claim { task, child } => {
            told(alloc, "claim", &[u64::from(task), u64::from(child)], None)
        }
        WhatRef::Start { child, slot, offer } => {
            let mode = if offer { "async" } else { "plain" };
            let numbers = [u64::from(child), u64::from(slot)];
            told(alloc, "start", &numbers, Some(mode))
        }
        WhatRef::NoStart { slot } => told(alloc, "nostart", &[u64::from(slot)], None),
        WhatRef::Lost { child, task } => {
            told(alloc, "lost", &[u64::from(child), u64::from(task)], None)
        }
        WhatRef::Answer { task, answer } => {
            let answer = named(alloc, &answer)?;
            told(alloc, "answer", &[u64::from(task)], Some(answer.as_str()))
        }
        WhatRef::Again { task, answer } => {
            let answer = named(alloc, &answer)?;
            told(alloc, "again", &[u64::from(task)], Some(answer.as_str()))
        }
        WhatRef::Note { task, chunk, count } => {
            told(alloc, "note", &[u64::from(task), chunk, count], None)
        }
        _ => child_text(alloc, what),
    }
}

// What is said to a child and by it, and what becomes of it.
fn child_text(alloc: Global, what: WhatRef<'_>) -> Result<String, NoMemory> {
    match what {
        WhatRef::Ask {
            child,
            job,
            task,
            line,
        } => {
            let numbers = [u64::from(child), job, u64::from(task)];
            told(alloc, "ask", &numbers, Some(said(line)))
        }
        WhatRef::Lead { child, job, line } => {
            told(alloc, "lead", &[u64::from(child), job], Some(said(line)))
        }
        WhatRef::Put { child, job, line } => {
            told(alloc, "put", &[u64::from(child), job], Some(said(line)))
        }
        WhatRef::Got { child, line } => told(alloc, "got", &[u64::from(child)], Some(said(line))),
        WhatRef::Sent { child } => told(alloc, "sent", &[u64::from(child)], None),
        WhatRef::Mute { child } => told(alloc, "mute", &[u64::from(child)], None),
        WhatRef::End { child, why } => {
            let why = named(alloc, &why)?;
            told(alloc, "end", &[u64::from(child)], Some(why.as_str()))
        }
        WhatRef::Verdict {
            child,
            job,
            verdict,
        } => {
            let verdict = named(alloc, &verdict)?;
            told(
                alloc,
                "verdict",
                &[u64::from(child), job],
                Some(verdict.as_str()),
            )
        }
        _ => told(alloc, "another", &[], None),
    }
}

/// A line of the wire; one that isn't UTF-8 has no text.
pub fn said(line: &[u8]) -> &str {
    match str::from_utf8(line) {
        Ok(text) => text,
        Err(_) => "(no text)",
    }
}
