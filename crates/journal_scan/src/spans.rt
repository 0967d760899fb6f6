// The places between which a job is open. Where they are known, what its child said in it is found without what stands before.
ghost use Rattle.std.specs.Prelude.{◌≡◌, ◌≤◌, Some, IfSome, IsTrue, length, take, option_copied};
ghost use Rattle.journal_model.specs.Journal.{first_of, open_jobs};
ghost use Rattle.journal_model.specs.Parts.{item_at};
ghost use Rattle.journal_scan.specs.Shown.{what_shown};
ghost use Rattle.journal_scan.specs.Looks.{remote_text, settled_at};
ghost use Rattle.journal_scan.specs.Spans.{IsSpan, line_within};

use crate::talks::{before_job, ends_at};
use crate::{Entries, WhatRef, children};

/// The place of a job's request, and that of its verdict, or the journal's end where it has none.
#[derive(Clone, Copy)]
pub struct Span {
    pub asked: usize,
    pub settled: usize,
}

/// How many entries stand before the job's verdict.
fn before_verdict(entries: &Entries<'_>, child: u32, job: u64) -> usize
    ensures { result ≡ settled_at entries.now child job }
{
    entries
        .iter()
        .take_while(|e| !children::settles(e.what, child, job))
        .count()
}

/// Whether the job is the first of the child's open jobs after the first entries, so many.
fn is_first(entries: &Entries<'_>, n: usize, child: u32, job: u64) -> bool
    requires { n ≤ length entries.now }
    ensures { IsTrue result → first_of (open_jobs (take n entries.now) child) ≡ Some job }
{
    children::first_open(&entries.front(n), child) == Some(job)
}

/// The job's span, where the child was offered no tags and had no other job open when this one was asked.
pub fn span_of(entries: &Entries<'_>, child: u32, job: u64) -> Option<Span>
    ensures { IfSome result (λ s. IsSpan entries.now child job s) }
{
    let asked = before_job(entries, child, job);
    if asked < entries.len()
        && is_first(entries, asked + 1, child, job)
        && !children::is_offered(entries, child)
    {
        let settled = before_verdict(entries, child, job);
        Some(Span { asked, settled })
    } else {
        None
    }
}

/// The entry's line, where the child says it between the places, and the entry at `at` doesn't end the child.
fn line_within<'a>(
    rest: &Entries<'_>,
    span: Span,
    c: u32,
    at: usize,
    what: WhatRef<'a>,
) -> Option<&'a [u8]>
    ensures { option_copied result ≡ line_within span c at (what_shown what.entry) rest.now }
{
    match what {
        WhatRef::Got { child, line }
            if child == c
                && span.asked < at
                && at <= span.settled
                && !ends_at(rest, c, at as u64) => { Some(line) }
        _ => None,
    }
}

/// The text of the line at that place, where the child said it in the job, which has that span.
pub fn said_within<'a>(
    entries: &Entries<'a>,
    span: Span,
    child: u32,
    job: u64,
    at: usize,
) -> Option<&'a [u8]>
    requires { IsSpan entries.now child job span }
    ensures { option_copied result ≡ remote_text (item_at entries.now child job at) }
{
    match entries.get(at) {
        Some(e) => line_within(&entries.behind(at).behind(1), span, child, at, e.what),
        None => None,
    }
}
