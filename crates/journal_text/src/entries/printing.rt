// Printing an entry.
ghost use Rattle.std.specs.Prelude.{◌≡◌, ◌++◌, OnOk, IfOk};
ghost use Rattle.journal_scan.specs.Shown.{what_shown, entry_shown};
ghost use Rattle.journal_text.specs.Entries.Entries.{entry_line, what_fields, offer_word};
ghost use Rattle.journal_text.specs.Entries.Fields.{followed};

use crate::entries::answers::push_answer;
use crate::entries::fields::{push_field, push_number, push_one, push_three, push_two};
use crate::entries::verdicts::push_verdict;
use crate::entries::whys::push_why;
use ann_key::{Bytes, NoMemory};
use journal_look::{EntryRef, WhatRef};
use journal_model::Entry;
use std::alloc::Global;

/// The line of the entry, without byte 10.
pub fn print_entry(alloc: Global, entry: &Entry) -> Result<Bytes, NoMemory>
    ensures { IfOk result (λ line. line ≡ entry_line entry.now) }
{
    print_lent(alloc, EntryRef::of(entry))
}

/// The same of an entry that is lent.
pub fn print_lent(alloc: Global, entry: EntryRef<'_>) -> Result<Bytes, NoMemory>
    ensures { IfOk result (λ line. line ≡ entry_line (entry_shown entry.entry)) }
{
    let by = entry.by;
    let digits = format!(in alloc; "{by}")?;
    let mut line = Vec::from_slice(alloc, digits.as_bytes())?;
    push_what(alloc, &mut line, entry.what)?;
    Ok(Bytes::from_vec(line))
}

fn push_what(alloc: Global, line: &mut Vec<u8>, what: WhatRef<'_>) -> Result<(), NoMemory>
    ensures { OnOk result (line.new.items ≡ line.old.items ++ followed (what_fields (what_shown what.entry))) }
{
    match what {
        WhatRef::Claim { task, child } => push_two(
            alloc,
            line,
            b"claim",
            task as u64,
            child as u64,
        ),
        WhatRef::Start { child, slot, offer } => {
            push_two(alloc, line, b"start", child as u64, slot as u64)?;
            push_field(line, offer_word(offer))
        }
        WhatRef::NoStart { slot } => push_one(alloc, line, b"nostart", slot as u64),
        WhatRef::Lead {
            child,
            job,
            line: said,
        } => {
            push_two(alloc, line, b"lead", child as u64, job)?;
            push_field(line, said)
        }
        WhatRef::Ask {
            child,
            job,
            task,
            line: said,
        } => {
            push_three(alloc, line, b"ask", child as u64, job, task as u64)?;
            push_field(line, said)
        }
        WhatRef::Put {
            child,
            job,
            line: said,
        } => {
            push_two(alloc, line, b"put", child as u64, job)?;
            push_field(line, said)
        }
        WhatRef::Sent { child } => push_one(alloc, line, b"sent", child as u64),
        WhatRef::Mute { child } => push_one(alloc, line, b"mute", child as u64),
        WhatRef::Got { child, line: said } => {
            push_one(alloc, line, b"got", child as u64)?;
            push_field(line, said)
        }
        WhatRef::End { child, why } => {
            push_one(alloc, line, b"end", child as u64)?;
            push_why(alloc, line, why)
        }
        WhatRef::Verdict {
            child,
            job,
            verdict,
        } => {
            push_two(alloc, line, b"verdict", child as u64, job)?;
            push_verdict(alloc, line, verdict)
        }
        WhatRef::Lost { child, task } => push_two(alloc, line, b"lost", child as u64, task as u64),
        WhatRef::Answer { task, answer } => {
            push_one(alloc, line, b"answer", task as u64)?;
            push_answer(alloc, line, &answer)
        }
        WhatRef::Note { task, chunk, count } => {
            push_three(alloc, line, b"note", task as u64, chunk, count)
        }
        WhatRef::Again { task, answer } => {
            push_one(alloc, line, b"again", task as u64)?;
            push_answer(alloc, line, &answer)
        }
    }
}

fn offer_word(offer: bool) -> &'static [u8]
    ensures { result.now ≡ offer_word offer }
{
    if offer { b"async" } else { b"plain" }
}
