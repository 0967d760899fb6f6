// Appends a group within room that is kept for it.
ghost use Rattle.std.specs.Prelude.{◌≡◌, ◌≤◌, ◌<◌, ◌+◌, ◌-◌, ◌^◌, ◌++◌, ◌∷◌, [], length, map, sum_by, take, IsOk, MatchResult, OnErr, OnOk};
ghost use Rattle.std.specs.List.{cons_option};
ghost use Rattle.std.specs.Option.{SomeIff};
ghost use Rattle.journal_model.specs.declared.verdict.Verdict.TheVariants.{Ended, Unsent};
ghost use Rattle.journal_model.specs.declared.entry.What.TheVariants.{Put, Verdict as Settled};
ghost use Rattle.journal_model.specs.Journal.{line_bytes};
ghost use Rattle.journal_model.specs.Room.{room_for};
ghost use Rattle.journal_model.specs.Due.{made_by, ended_jobs, ending};
ghost use Rattle.journal_scan.specs.Looks.{due_jobs, job_at};
ghost use Rattle.host_core.specs.Pasts.{IsPast};
ghost use Rattle.host_core.specs.Moves.{dues, group_made, due_bytes, due_room, group_bytes, group_room, verdicts_of, unsent_verdicts};

use crate::due::Due;
use ann_key::{Bytes, NoMemory};
use journal_look::{Journal, WhatRef, due_at, first_due};
use journal_model::{Entry, Verdict, What, Why};
use journal_scan::lines::line_bytes;

/// How much room the entry needs, now and for what can come of it.
fn room_for(what: &What) -> usize
    ensures { result ≡ room_for what.now }
{
    match what {
        What::Start { .. } | What::Ask { .. } => 3,
        What::Lead { .. } | What::Put { .. } => 2,
        What::Got { .. } | What::NoStart { .. } | What::Lost { .. } | What::Note { .. } => 1,
        _ => 0,
    }
}

/// How much room the entries need that are due after it, if that can be told.
fn due_room(due: &Due) -> Option<usize>
    ensures { SomeIff result (due_room due.now < 2 ^ 64) (due_room due.now) }
{
    match due {
        Due::Replies { lines, .. } => lines.len().checked_mul(2),
        Due::Request { .. } => Some(3),
        _ => Some(0),
    }
}

/// How much room the group needs.
fn group_room(what: &Option<What>, due: &Due) -> Result<usize, NoMemory>
    ensures { MatchResult result (λ n. n ≡ group_room what.now due.now) (λ _. 2 ^ 64 ≤ group_room what.now due.now) }
{
    let Some(what) = what else {
        return Ok(0);
    };
    let Some(more) = due_room(due) else {
        return Err(NoMemory);
    };
    match more.checked_add(room_for(what)) {
        Some(room) => Ok(room),
        None => Err(NoMemory),
    }
}

/// How many bytes the lines have in all, if that can be told.
fn bytes_of(lines: &[Bytes]) -> Option<usize>
    ensures { SomeIff result (sum_by (λ line. length line) lines.now < 2 ^ 64) (sum_by (λ line. length line) lines.now) }
{
    let mut bytes = 0usize;
    for line in lines {
        bytes = bytes.checked_add(line.view().len())?;
    }
    Some(bytes)
}

/// How many bytes the lines have that are due after it, if that can be told.
fn due_bytes(due: &Due) -> Option<usize>
    ensures { SomeIff result (due_bytes due.now < 2 ^ 64) (due_bytes due.now) }
{
    match due {
        Due::Replies { lines, .. } => bytes_of(lines.as_slice()),
        Due::Request { line, .. } => Some(line.view().len()),
        _ => Some(0),
    }
}

/// How many bytes the lines of the group have.
fn group_bytes(what: &Option<What>, due: &Due) -> Result<usize, NoMemory>
    ensures { MatchResult result (λ n. n ≡ group_bytes what.now due.now) (λ _. 2 ^ 64 ≤ group_bytes what.now due.now) }
{
    let Some(what) = what else {
        return Ok(0);
    };
    let Some(more) = due_bytes(due) else {
        return Err(NoMemory);
    };
    match more.checked_add(line_bytes(WhatRef::of(what))) {
        Some(bytes) => Ok(bytes),
        None => Err(NoMemory),
    }
}

/// Takes room for the group: for its entries and what can come of them, and for the bytes of its lines.
pub(super) fn take_room(
    journal: &mut Journal,
    what: &Option<What>,
    due: &Due,
) -> Result<(), NoMemory>
    requires { journal.old.room < 2 ^ 64 }
    ensures entries { journal.new.entries ≡ journal.old.entries }
    ensures small { journal.new.room < 2 ^ 64 }
    ensures room { OnOk result (journal.new.room ≡ journal.old.room + group_room what.now due.now) }
    ensures spare { OnOk result (group_bytes what.now due.now ≤ journal.new.spare) }
    ensures err { OnErr result (journal.new.room ≡ journal.old.room) }
    ensures free { group_room what.now due.now ≡ 0 → IsOk result }
{
    let more = group_room(what, due)?;
    let bytes = group_bytes(what, due)?;
    journal.take_room(more, bytes)
}

fn push(journal: &mut Journal, by: u32, what: What)
    requires room { length journal.old.entries < journal.old.room }
    requires spare { line_bytes what ≤ journal.old.spare }
    ensures entries { journal.new.entries ≡ journal.old.entries ++ made_by by (what ∷ []) }
    ensures room { journal.new.room ≡ journal.old.room }
    ensures spare { journal.new.spare ≡ journal.old.spare - line_bytes what }
{
    journal.push(Entry { by, what });
}

fn push_at(
    journal: &mut Journal,
    n: u64,
    at: u64,
    by: u32,
    child: u32,
    verdict: Verdict,
    unsent: bool,
)
    requires long { n ≤ length journal.old.entries }
    requires room { length journal.old.entries + length (cons_option (job_at journal.old.entries n at child unsent) []) ≤ journal.old.room }
    ensures entries { journal.new.entries ≡ journal.old.entries ++ made_by by (map (λ j. Settled child j verdict) (cons_option (job_at journal.old.entries n at child unsent) [])) }
    ensures room { journal.new.room ≡ journal.old.room }
{
    match due_at(journal, n, at, child, unsent) {
        Some(job) => push(
            journal,
            by,
            What::Verdict {
                child,
                job,
                verdict,
            },
        ),
        None => {}
    }
}

/// The first entries of a journal, so many. None before a place of them asks a job that is due.
#[derive(Clone, Copy)]
struct Past {
    from: u64,
    n: u64,
}

/// The verdicts of the open jobs that the past asked on the child.
fn push_verdicts(
    journal: &mut Journal,
    past: Past,
    by: u32,
    child: u32,
    verdict: Verdict,
    unsent: bool,
)
    requires past { IsPast journal.old.entries past }
    requires room { length journal.old.entries + length (due_jobs (take past.n journal.old.entries) child unsent) ≤ journal.old.room }
    ensures entries { journal.new.entries ≡ journal.old.entries ++ made_by by (verdicts_of (take past.n journal.old.entries) child verdict unsent) }
    ensures room { journal.new.room ≡ journal.old.room }
{
    for at in past.from..past.n {
        push_at(journal, past.n, at, by, child, verdict, unsent);
    }
}

fn push_ended(journal: &mut Journal, past: Past, by: u32, child: u32, why: Why)
    requires past { IsPast journal.old.entries past }
    requires room { length journal.old.entries + length (ended_jobs (take past.n journal.old.entries) child why) ≤ journal.old.room }
    ensures entries { journal.new.entries ≡ journal.old.entries ++ made_by by (ended_jobs (take past.n journal.old.entries) child why) }
    ensures room { journal.new.room ≡ journal.old.room }
{
    push_verdicts(journal, past, by, child, Verdict::Ended { why }, false);
}

fn push_unsent(journal: &mut Journal, past: Past, by: u32, child: u32)
    requires past { IsPast journal.old.entries past }
    requires room { length journal.old.entries + length (unsent_verdicts (take past.n journal.old.entries) child) ≤ journal.old.room }
    ensures entries { journal.new.entries ≡ journal.old.entries ++ made_by by (unsent_verdicts (take past.n journal.old.entries) child) }
    ensures room { journal.new.room ≡ journal.old.room }
{
    push_verdicts(journal, past, by, child, Verdict::Unsent, true);
}

fn push_ending(journal: &mut Journal, past: Past, by: u32, child: u32, why: Why)
    requires past { IsPast journal.old.entries past }
    requires room { length journal.old.entries + length (ending (take past.n journal.old.entries) child why) ≤ journal.old.room }
    ensures entries { journal.new.entries ≡ journal.old.entries ++ made_by by (ending (take past.n journal.old.entries) child why) }
    ensures room { journal.new.room ≡ journal.old.room }
{
    push(journal, by, What::End { child, why });
    push_ended(journal, past, by, child, why);
}

fn push_replies(journal: &mut Journal, by: u32, child: u32, job: u64, lines: Vec<Bytes>)
    requires room { length journal.old.entries + length lines.items ≤ journal.old.room }
    requires spare { sum_by (λ line. length line) lines.items ≤ journal.old.spare }
    ensures entries { journal.new.entries ≡ journal.old.entries ++ made_by by (map (λ line. Put child job line) lines.items) }
    ensures room { journal.new.room ≡ journal.old.room }
{
    let mut lines = lines;
    while !lines.is_empty() {
        let line = lines.remove(0);
        push(journal, by, What::Put { child, job, line });
    }
}

/// What is due after the past and one more entry.
fn push_dues(journal: &mut Journal, past: Past, by: u32, due: Due)
    requires past { IsPast journal.old.entries past }
    requires room { length journal.old.entries + length (dues (take past.n journal.old.entries) due) ≤ journal.old.room }
    requires spare { due_bytes due ≤ journal.old.spare }
    ensures entries { journal.new.entries ≡ journal.old.entries ++ made_by by (dues (take past.n journal.old.entries) due) }
    ensures room { journal.new.room ≡ journal.old.room }
{
    match due {
        Due::Nothing => {}
        Due::Settle {
            child,
            job,
            verdict,
        } => push(
            journal,
            by,
            What::Verdict {
                child,
                job,
                verdict,
            },
        ),
        Due::Request {
            child,
            job,
            task,
            line,
        } => push(
            journal,
            by,
            What::Ask {
                child,
                job,
                task,
                line,
            },
        ),
        Due::Replies { child, job, lines } => push_replies(journal, by, child, job, lines),
        Due::EndOf { child, why } => push_ending(journal, past, by, child, why),
        Due::EndedJobs { child, why } => push_ended(journal, past, by, child, why),
        Due::UnsentJobs { child } => push_unsent(journal, past, by, child),
    }
}

/// The first entry with what is due after it. It takes no memory.
pub(super) fn push_group(journal: &mut Journal, by: u32, what: Option<What>, due: Due)
    requires room { length journal.old.entries + length (group_made journal.old.entries by what due) ≤ journal.old.room }
    requires spare { group_bytes what due ≤ journal.old.spare }
    ensures entries { journal.new.entries ≡ journal.old.entries ++ group_made journal.old.entries by what due }
    ensures room { journal.new.room ≡ journal.old.room }
{
    match what {
        Some(what) => {
            let past = Past {
                from: first_due(journal),
                n: journal.len(),
            };
            push(journal, by, what);
            push_dues(journal, past, by, due);
        }
        None => {}
    }
}
