// Whether two entries are equal.
ghost use Rattle.std.specs.Prelude.{◌≡◌, ◌↔◌, IsTrue};
ghost use Rattle.journal_model.specs.declared.entry.What.TheVariants.{Claim, Start, NoStart, Lead, Ask, Put, Sent, Mute, Got, End, Verdict as Settled, Lost, Answer as Answered, Note, Again};
ghost use Rattle.journal_scan.specs.Shown.{what_shown, entry_shown};

use ann_digest::Digest;
use journal_look::{EntryRef, WhatRef};
use journal_model::{Answer, Verdict, Why};

fn is_claim(what: WhatRef<'_>, t: u32, c: u32) -> bool
    ensures { IsTrue result ↔ (what_shown what.entry ≡ Claim t c) }
{
    match what {
        WhatRef::Claim { task, child } => task == t && child == c,
        _ => false,
    }
}

fn is_start(what: WhatRef<'_>, c: u32, s: u32, o: bool) -> bool
    ensures { IsTrue result ↔ (what_shown what.entry ≡ Start c s o) }
{
    match what {
        WhatRef::Start { child, slot, offer } => child == c && slot == s && offer == o,
        _ => false,
    }
}

fn is_no_start(what: WhatRef<'_>, s: u32) -> bool
    ensures { IsTrue result ↔ (what_shown what.entry ≡ NoStart s) }
{
    match what {
        WhatRef::NoStart { slot } => slot == s,
        _ => false,
    }
}

fn is_ask(what: WhatRef<'_>, c: u32, j: u64, t: u32, l: &[u8]) -> bool
    ensures { IsTrue result ↔ (what_shown what.entry ≡ Ask c j t l.now) }
{
    match what {
        WhatRef::Ask {
            child,
            job,
            task,
            line,
        } => child == c && job == j && task == t && line == l,
        _ => false,
    }
}

fn is_lead(what: WhatRef<'_>, c: u32, j: u64, l: &[u8]) -> bool
    ensures { IsTrue result ↔ (what_shown what.entry ≡ Lead c j l.now) }
{
    match what {
        WhatRef::Lead { child, job, line } => child == c && job == j && line == l,
        _ => false,
    }
}

fn is_put(what: WhatRef<'_>, c: u32, j: u64, l: &[u8]) -> bool
    ensures { IsTrue result ↔ (what_shown what.entry ≡ Put c j l.now) }
{
    match what {
        WhatRef::Put { child, job, line } => child == c && job == j && line == l,
        _ => false,
    }
}

fn is_sent(what: WhatRef<'_>, c: u32) -> bool
    ensures { IsTrue result ↔ (what_shown what.entry ≡ Sent c) }
{
    match what {
        WhatRef::Sent { child } => child == c,
        _ => false,
    }
}

fn is_mute(what: WhatRef<'_>, c: u32) -> bool
    ensures { IsTrue result ↔ (what_shown what.entry ≡ Mute c) }
{
    match what {
        WhatRef::Mute { child } => child == c,
        _ => false,
    }
}

fn is_got(what: WhatRef<'_>, c: u32, l: &[u8]) -> bool
    ensures { IsTrue result ↔ (what_shown what.entry ≡ Got c l.now) }
{
    match what {
        WhatRef::Got { child, line } => child == c && line == l,
        _ => false,
    }
}

fn is_end(what: WhatRef<'_>, c: u32, w: Why) -> bool
    ensures { IsTrue result ↔ (what_shown what.entry ≡ End c w) }
{
    match what {
        WhatRef::End { child, why } => child == c && why == w,
        _ => false,
    }
}

fn is_verdict(what: WhatRef<'_>, c: u32, j: u64, v: Verdict) -> bool
    ensures { IsTrue result ↔ (what_shown what.entry ≡ Settled c j v) }
{
    match what {
        WhatRef::Verdict {
            child,
            job,
            verdict,
        } => child == c && job == j && verdict == v,
        _ => false,
    }
}

fn is_lost(what: WhatRef<'_>, c: u32, t: u32) -> bool
    ensures { IsTrue result ↔ (what_shown what.entry ≡ Lost c t) }
{
    match what {
        WhatRef::Lost { child, task } => child == c && task == t,
        _ => false,
    }
}

fn is_digest(digest: &Digest, other: &Digest) -> bool
    ensures { IsTrue result ↔ (digest.now ≡ other.now) }
{
    digest.len == other.len && digest.bytes == other.bytes
}

fn is_hash(answer: &Answer, other: &Digest) -> bool
    ensures { IsTrue result ↔ (answer.now ≡ Answer.Hash other.now) }
{
    match answer {
        Answer::Hash { digest } => is_digest(digest, other),
        _ => false,
    }
}

// One arm for each: the digest's array is compared by its elements.
fn is_same_answer(answer: &Answer, other: &Answer) -> bool
    ensures { IsTrue result ↔ (answer.now ≡ other.now) }
{
    match other {
        Answer::Stored => matches!(answer, Answer::Stored),
        Answer::Got => matches!(answer, Answer::Got),
        Answer::Present => matches!(answer, Answer::Present),
        Answer::Dropped => matches!(answer, Answer::Dropped),
        Answer::Renamed => matches!(answer, Answer::Renamed),
        Answer::Absent => matches!(answer, Answer::Absent),
        Answer::Unsupported => matches!(answer, Answer::Unsupported),
        Answer::Unsent => matches!(answer, Answer::Unsent),
        Answer::StartFault => matches!(answer, Answer::StartFault),
        Answer::NoChild => matches!(answer, Answer::NoChild),
        Answer::FileFault => matches!(answer, Answer::FileFault),
        Answer::NoFile => matches!(answer, Answer::NoFile),
        Answer::Memory => matches!(answer, Answer::Memory),
        Answer::Failed { at: place } => matches!(answer, Answer::Failed { at } if at == place),
        Answer::Unknown { at: place } => matches!(answer, Answer::Unknown { at } if at == place),
        Answer::NotPrepared { at: place } => {
            matches!(answer, Answer::NotPrepared { at } if at == place)
        }
        Answer::Ended { why: end } => matches!(answer, Answer::Ended { why } if why == end),
        Answer::Size { bytes: length } => {
            matches!(answer, Answer::Size { bytes } if bytes == length)
        }
        Answer::Hash { digest } => is_hash(answer, digest),
    }
}

fn is_answer(what: WhatRef<'_>, t: u32, a: Answer) -> bool
    ensures { IsTrue result ↔ (what_shown what.entry ≡ Answered t a) }
{
    match what {
        WhatRef::Answer { task, answer } => task == t && is_same_answer(&answer, &a),
        _ => false,
    }
}

fn is_note(what: WhatRef<'_>, t: u32, s: u64, n: u64) -> bool
    ensures { IsTrue result ↔ (what_shown what.entry ≡ Note t s n) }
{
    match what {
        WhatRef::Note { task, chunk, count } => task == t && chunk == s && count == n,
        _ => false,
    }
}

fn is_again(what: WhatRef<'_>, t: u32, a: Answer) -> bool
    ensures { IsTrue result ↔ (what_shown what.entry ≡ Again t a) }
{
    match what {
        WhatRef::Again { task, answer } => task == t && is_same_answer(&answer, &a),
        _ => false,
    }
}

fn is_what(what: WhatRef<'_>, other: WhatRef<'_>) -> bool
    ensures { IsTrue result ↔ (what_shown what.entry ≡ what_shown other.entry) }
{
    match other {
        WhatRef::Claim { task, child } => is_claim(what, task, child),
        WhatRef::Start { child, slot, offer } => is_start(what, child, slot, offer),
        WhatRef::NoStart { slot } => is_no_start(what, slot),
        WhatRef::Ask {
            child,
            job,
            task,
            line,
        } => is_ask(what, child, job, task, line),
        WhatRef::Lead { child, job, line } => is_lead(what, child, job, line),
        WhatRef::Put { child, job, line } => is_put(what, child, job, line),
        WhatRef::Sent { child } => is_sent(what, child),
        WhatRef::Mute { child } => is_mute(what, child),
        WhatRef::Got { child, line } => is_got(what, child, line),
        WhatRef::End { child, why } => is_end(what, child, why),
        WhatRef::Verdict {
            child,
            job,
            verdict,
        } => is_verdict(what, child, job, verdict),
        WhatRef::Lost { child, task } => is_lost(what, child, task),
        WhatRef::Answer { task, answer } => is_answer(what, task, answer),
        WhatRef::Note { task, chunk, count } => is_note(what, task, chunk, count),
        WhatRef::Again { task, answer } => is_again(what, task, answer),
    }
}

/// Whether the two are equal.
pub(super) fn is_entry(entry: EntryRef<'_>, other: EntryRef<'_>) -> bool
    ensures { IsTrue result ↔ (entry_shown entry.entry ≡ entry_shown other.entry) }
{
    entry.by == other.by && is_what(entry.what, other.what)
}
