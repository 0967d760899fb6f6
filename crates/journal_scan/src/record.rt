// How an entry is kept: its line stands in a store and its digest in a vector, and a record has their numbers.
ghost use Rattle.std.specs.Prelude.{◌≡◌, ◌+◌, ◌<◌, ◌≤◌, ◌++◌, ◌∷◌, [], length, slice_get, vec_capacity, vec_len};
ghost use Rattle.journal_scan.specs.Tables.Lines.{total};
ghost use Rattle.journal_model.specs.Journal.{line_bytes};
ghost use Rattle.journal_scan.specs.Kept.{IsAnswerWithin, IsKept, answer_kept, by_digest, line_kept, what_kept, with_digest, with_digest_of, with_line};
ghost use Rattle.journal_scan.specs.Shown.{what_shown};

use crate::entry::WhatRef;
use crate::tables::LineStore;
use ann_digest::Digest;
use journal_model::{Answer, Verdict, What, Why};

/// The answer of a task, as in `Answer`, where a digest has a number.
#[derive(Clone, Copy)]
pub(super) enum KeptAnswer {
    Stored,
    Got,
    Present,
    Dropped,
    Renamed,
    Absent,
    Unsupported,
    Unsent,
    StartFault,
    NoChild,
    FileFault,
    NoFile,
    Memory,
    Failed { at: u64 },
    Unknown { at: u64 },
    NotPrepared { at: u64 },
    Ended { why: Why },
    Size { bytes: u64 },
    Hash { digest: u64 },
}

/// What happened, as in `What`, where a line and a digest have numbers.
#[derive(Clone, Copy)]
pub(super) enum Kept {
    Claim {
        task: u32,
        child: u32,
    },
    Start {
        child: u32,
        slot: u32,
        offer: bool,
    },
    NoStart {
        slot: u32,
    },
    Lead {
        child: u32,
        job: u64,
        line: u64,
    },
    Ask {
        child: u32,
        job: u64,
        task: u32,
        line: u64,
    },
    Put {
        child: u32,
        job: u64,
        line: u64,
    },
    Sent {
        child: u32,
    },
    Mute {
        child: u32,
    },
    Got {
        child: u32,
        line: u64,
    },
    End {
        child: u32,
        why: Why,
    },
    Verdict {
        child: u32,
        job: u64,
        verdict: Verdict,
    },
    Lost {
        child: u32,
        task: u32,
    },
    Answer {
        task: u32,
        answer: KeptAnswer,
    },
    Note {
        task: u32,
        chunk: u64,
        count: u64,
    },
    Again {
        task: u32,
        answer: KeptAnswer,
    },
}

/// An entry, and the number of the pass that made it. It has 48 bytes.
#[derive(Clone, Copy)]
pub(super) struct Record {
    pub by: u32,
    pub what: Kept,
}

// The number of the line, which is appended within room that was taken.
fn keep_line(lines: &mut LineStore, line: &[u8]) -> u64
    requires room { length lines.old.lines < lines.old.room }
    requires space { total lines.old.lines + length line.now ≤ lines.old.space }
    ensures number { result ≡ length lines.old.lines }
    ensures lines { lines.new.lines ≡ lines.old.lines ++ line.now ∷ [] }
    ensures room { (lines.new.room ≡ lines.old.room) × (lines.new.space ≡ lines.old.space) }
{
    let number = lines.len();
    lines.push_within(line);
    number
}

// The number of the digest, which is appended within room that was taken.
fn keep_digest(digests: &mut Vec<Digest>, digest: Digest) -> u64
    requires { vec_len digests.old < vec_capacity digests.old }
    ensures number { result ≡ length digests.old.items }
    ensures digests { digests.new.items ≡ digests.old.items ++ digest ∷ [] }
    ensures room { vec_capacity digests.old ≤ vec_capacity digests.new }
{
    let number = digests.as_slice().len() as u64;
    match digests.push(digest) {
        Ok(()) => {}
        Err(_) => unreachable!(),
    }
    number
}

fn keep_answer(digests: &mut Vec<Digest>, answer: Answer) -> KeptAnswer
    requires { vec_len digests.old < vec_capacity digests.old }
    ensures says { answer_kept digests.new.items result ≡ answer }
    ensures within { IsAnswerWithin (length digests.new.items) result }
    ensures digests { digests.new.items ≡ with_digest_of digests.old.items answer }
    ensures room { vec_capacity digests.old ≤ vec_capacity digests.new }
{
    match answer {
        Answer::Stored => KeptAnswer::Stored,
        Answer::Got => KeptAnswer::Got,
        Answer::Present => KeptAnswer::Present,
        Answer::Dropped => KeptAnswer::Dropped,
        Answer::Renamed => KeptAnswer::Renamed,
        Answer::Absent => KeptAnswer::Absent,
        Answer::Unsupported => KeptAnswer::Unsupported,
        Answer::Unsent => KeptAnswer::Unsent,
        Answer::StartFault => KeptAnswer::StartFault,
        Answer::NoChild => KeptAnswer::NoChild,
        Answer::FileFault => KeptAnswer::FileFault,
        Answer::NoFile => KeptAnswer::NoFile,
        Answer::Memory => KeptAnswer::Memory,
        Answer::Failed { at } => KeptAnswer::Failed { at },
        Answer::Unknown { at } => KeptAnswer::Unknown { at },
        Answer::NotPrepared { at } => KeptAnswer::NotPrepared { at },
        Answer::Ended { why } => KeptAnswer::Ended { why },
        Answer::Size { bytes } => KeptAnswer::Size { bytes },
        Answer::Hash { digest } => KeptAnswer::Hash {
            digest: keep_digest(digests, digest),
        },
    }
}

/// What happened, as it is kept. Its line and its digest are appended within room that was taken.
pub(super) fn keep(lines: &mut LineStore, digests: &mut Vec<Digest>, what: What) -> Kept
    requires line { length lines.old.lines < lines.old.room }
    requires bytes { total lines.old.lines + line_bytes what ≤ lines.old.space }
    requires digest { vec_len digests.old < vec_capacity digests.old }
    ensures kept { IsKept lines.new.lines digests.new.items result what }
    ensures lines { lines.new.lines ≡ with_line lines.old.lines what }
    ensures digests { digests.new.items ≡ with_digest digests.old.items what }
    ensures room { (lines.new.room ≡ lines.old.room) × (lines.new.space ≡ lines.old.space) × (vec_capacity digests.old ≤ vec_capacity digests.new) }
{
    match what {
        What::Claim { task, child } => Kept::Claim { task, child },
        What::Start { child, slot, offer } => Kept::Start { child, slot, offer },
        What::NoStart { slot } => Kept::NoStart { slot },
        What::Lead { child, job, line } => Kept::Lead {
            child,
            job,
            line: keep_line(lines, line.view()),
        },
        What::Ask {
            child,
            job,
            task,
            line,
        } => Kept::Ask {
            child,
            job,
            task,
            line: keep_line(lines, line.view()),
        },
        What::Put { child, job, line } => Kept::Put {
            child,
            job,
            line: keep_line(lines, line.view()),
        },
        What::Sent { child } => Kept::Sent { child },
        What::Mute { child } => Kept::Mute { child },
        What::Got { child, line } => Kept::Got {
            child,
            line: keep_line(lines, line.view()),
        },
        What::End { child, why } => Kept::End { child, why },
        What::Verdict {
            child,
            job,
            verdict,
        } => Kept::Verdict {
            child,
            job,
            verdict,
        },
        What::Lost { child, task } => Kept::Lost { child, task },
        What::Answer { task, answer } => Kept::Answer {
            task,
            answer: keep_answer(digests, answer),
        },
        What::Note { task, chunk, count } => Kept::Note { task, chunk, count },
        What::Again { task, answer } => Kept::Again {
            task,
            answer: keep_answer(digests, answer),
        },
    }
}

fn line_lent(lines: &LineStore, n: u64) -> &[u8]
    ensures { result.now ≡ line_kept lines.now.lines n }
{
    match lines.line(n) {
        Some(line) => line,
        None => &[],
    }
}

fn by_digest(digests: &[Digest], n: u64) -> Answer
    ensures { result ≡ by_digest (slice_get digests.now n) }
{
    match digests.get(n as usize) {
        Some(digest) => Answer::Hash { digest: *digest },
        None => Answer::Memory,
    }
}

fn answer_lent(digests: &[Digest], answer: KeptAnswer) -> Answer
    ensures { result ≡ answer_kept digests.now answer }
{
    match answer {
        KeptAnswer::Stored => Answer::Stored,
        KeptAnswer::Got => Answer::Got,
        KeptAnswer::Present => Answer::Present,
        KeptAnswer::Dropped => Answer::Dropped,
        KeptAnswer::Renamed => Answer::Renamed,
        KeptAnswer::Absent => Answer::Absent,
        KeptAnswer::Unsupported => Answer::Unsupported,
        KeptAnswer::Unsent => Answer::Unsent,
        KeptAnswer::StartFault => Answer::StartFault,
        KeptAnswer::NoChild => Answer::NoChild,
        KeptAnswer::FileFault => Answer::FileFault,
        KeptAnswer::NoFile => Answer::NoFile,
        KeptAnswer::Memory => Answer::Memory,
        KeptAnswer::Failed { at } => Answer::Failed { at },
        KeptAnswer::Unknown { at } => Answer::Unknown { at },
        KeptAnswer::NotPrepared { at } => Answer::NotPrepared { at },
        KeptAnswer::Ended { why } => Answer::Ended { why },
        KeptAnswer::Size { bytes } => Answer::Size { bytes },
        KeptAnswer::Hash { digest } => by_digest(digests, digest),
    }
}

/// What happened, lent.
pub(super) fn lent<'a>(lines: &'a LineStore, digests: &[Digest], what: Kept) -> WhatRef<'a>
    ensures { what_shown result ≡ what_kept lines.entry.now.lines digests.now what }
{
    match what {
        Kept::Claim { task, child } => WhatRef::Claim { task, child },
        Kept::Start { child, slot, offer } => WhatRef::Start { child, slot, offer },
        Kept::NoStart { slot } => WhatRef::NoStart { slot },
        Kept::Lead { child, job, line } => WhatRef::Lead {
            child,
            job,
            line: line_lent(lines, line),
        },
        Kept::Ask {
            child,
            job,
            task,
            line,
        } => WhatRef::Ask {
            child,
            job,
            task,
            line: line_lent(lines, line),
        },
        Kept::Put { child, job, line } => WhatRef::Put {
            child,
            job,
            line: line_lent(lines, line),
        },
        Kept::Sent { child } => WhatRef::Sent { child },
        Kept::Mute { child } => WhatRef::Mute { child },
        Kept::Got { child, line } => WhatRef::Got {
            child,
            line: line_lent(lines, line),
        },
        Kept::End { child, why } => WhatRef::End { child, why },
        Kept::Verdict {
            child,
            job,
            verdict,
        } => WhatRef::Verdict {
            child,
            job,
            verdict,
        },
        Kept::Lost { child, task } => WhatRef::Lost { child, task },
        Kept::Answer { task, answer } => WhatRef::Answer {
            task,
            answer: answer_lent(digests, answer),
        },
        Kept::Note { task, chunk, count } => WhatRef::Note { task, chunk, count },
        Kept::Again { task, answer } => WhatRef::Again {
            task,
            answer: answer_lent(digests, answer),
        },
    }
}
