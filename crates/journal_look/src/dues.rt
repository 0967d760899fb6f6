// The jobs that an end or a mute settles, entry by entry.
ghost use Rattle.std.specs.Prelude.{ℕ, ◌≡◌, ◌≤◌, ◌==◌, length, take, true, Some};
ghost use Rattle.std.specs.List.{list_any};
ghost use Rattle.journal_model.specs.Journal.{asked_jobs, asks, is_settled};
ghost use Rattle.journal_scan.specs.Shown.{what_shown};
ghost use Rattle.journal_scan.specs.Looks.{due_job, job_at};

use crate::journal::Journal;
use crate::looks::is_open;
use journal_scan::{WhatRef, children, lines};

/// Whether the first n entries settle the job, which one of the entries asks. Where those after them don't, the open jobs tell.
fn is_settled_by(journal: &Journal, n: usize, child: u32, job: u64) -> bool
    requires within { n ≤ length journal.now.entries }
    requires asked { list_any (λ k. k == job) (asked_jobs journal.now.entries child) ≡ true }
    ensures { result ≡ is_settled (take n journal.now.entries) child job }
{
    let entries = journal.entries();
    if children::is_settled(&entries.behind(n), child, job) {
        children::is_settled(&entries.front(n), child, job)
    } else {
        !is_open(journal, child, job)
    }
}

/// The job that one of the entries asks, where the child's end after the first n settles it, or where its mute does.
fn due_job(journal: &Journal, n: usize, what: WhatRef<'_>, child: u32, unsent: bool) -> Option<u64>
    requires within { n ≤ length journal.now.entries }
    requires asked { (j : ℕ) → asks child (what_shown what) ≡ Some j → list_any (λ k. k == j) (asked_jobs journal.now.entries child) ≡ true }
    ensures { result ≡ due_job (take n journal.now.entries) child unsent (what_shown what.entry) }
{
    match children::asks(what, child) {
        Some(job) => {
            if !is_settled_by(journal, n, child, job)
                && (!unsent || lines::is_unsent(&journal.entries().front(n), child, job))
            {
                Some(job)
            } else {
                None
            }
        }
        None => None,
    }
}

/// The same for the entry at a place.
pub(super) fn job_at(
    journal: &Journal,
    n: usize,
    at: usize,
    child: u32,
    unsent: bool,
) -> Option<u64>
    requires { n ≤ length journal.now.entries }
    ensures { result ≡ job_at journal.now.entries n at child unsent }
{
    match journal.entries().get(at) {
        Some(e) => due_job(journal, n, e.what, child, unsent),
        None => None,
    }
}
