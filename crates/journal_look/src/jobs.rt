// Which jobs are open, and how the last ones were settled, entry by entry.
ghost use Rattle.std.specs.Prelude.{not, nat_le, ◌≤◌, ℕ, Bool, None, ◌≡◌, ◌==◌, ◌<◌, ◌++◌, ◌∷◌, [], List, ◌&&◌, Some, find, length, option_copied, IfSome, IsTrue, false, true};
ghost use Rattle.std.specs.List.{list_all, list_any};
ghost use Rattle.journal_model.specs.declared.entry.Entry.{Entry};
ghost use Rattle.journal_model.specs.Journal.{any, asked_jobs, first_of, is_open, offers, open_jobs, verdict_of};
ghost use Rattle.journal_model.specs.Legality.{has_open_job};
ghost use Rattle.journal_scan.specs.Looks.{NoneDue, asked_at};
ghost use Rattle.journal_scan.specs.Shown.{what_shown, entry_shown};
ghost use Rattle.journal_scan.specs.Spans.{IsSpan};
ghost use Rattle.journal_look.specs.Lives.{AreKnown};
ghost use Rattle.journal_look.specs.Opens.{AreJobsKnown, AreOpen, AreTold, IsTold, closed, is_idle, is_this, jobs_child, keeps_numbers, opened};

use crate::life::{self, Lives};
use journal_model::Verdict;
use journal_scan::spans::Span;
use journal_scan::{EntryRef, WhatRef};
use std::alloc::{AllocError, Global};

/// An open job, the task that it was asked for, the place of the entry that asks it, and whether no other job of its child was open
/// then.
#[derive(Clone, Copy)]
pub(super) struct Open {
    pub child: u32,
    pub job: u64,
    pub task: u32,
    pub at: usize,
    pub alone: bool,
}

/// How a job was settled.
#[derive(Clone, Copy)]
pub(super) struct Told {
    pub child: u32,
    pub job: u64,
    pub verdict: Verdict,
}

/// Whether the job is one of the table's.
fn has(jobs: &[Open], child: u32, job: u64) -> bool
    ensures { result ≡ list_any (is_this child job) jobs.now }
{
    jobs.iter().any(|x| is_this(x, child, job))
}

/// Whether the entry keeps to the numbers of its child, which was asked so many jobs.
fn keeps_numbers(asked: u64, what: WhatRef<'_>) -> bool
    ensures { result ≡ keeps_numbers asked (what_shown what.entry) }
{
    match what {
        WhatRef::Ask { job, .. } => job == asked,
        WhatRef::Put { job, .. } | WhatRef::Verdict { job, .. } => job < asked,
        _ => true,
    }
}

/// The child whose job the entry asks, writes or settles; 0 where it does none of these.
fn jobs_child(what: WhatRef<'_>) -> u32
    ensures { result ≡ jobs_child (what_shown what.entry) }
{
    match what {
        WhatRef::Ask { child, .. } | WhatRef::Put { child, .. } | WhatRef::Verdict { child, .. } =>
            child,
        _ => 0,
    }
}

fn is_this(x: &Open, child: u32, job: u64) -> bool
    ensures { result ≡ is_this child job x.now }
{
    x.child == child && x.job == job
}

fn close(jobs: &mut Vec<Open>, child: u32, job: u64)
    ensures { jobs.new.items ≡ closed child job jobs.old.items }
{
    jobs.retain(|x| !is_this(x, child, job));
}

/// Puts one more after the last, where there is room.
fn put(jobs: &mut Vec<Open>, one: Open) -> bool
    ensures { IsTrue result → jobs.new.items ≡ jobs.old.items ++ one ∷ [] }
{
    if jobs.len() == jobs.capacity() {
        return false;
    }
    jobs.push(one).is_ok()
}

/// Whether a job of the child is in the table.
fn has_child(jobs: &[Open], c: u32) -> bool
    ensures { result ≡ list_any (λ x. x.child == c) jobs.now }
{
    jobs.iter().any(|x| x.child == c)
}

/// Whether no job of the child is.
fn is_idle(jobs: &[Open], c: u32) -> bool
    ensures { result ≡ is_idle c jobs.now }
{
    !has_child(jobs, c)
}

/// The table after one more entry, which stands at that place. False where there is no room for it.
fn change(jobs: &mut Vec<Open>, at: usize, what: WhatRef<'_>) -> bool
    ensures { IsTrue result → jobs.new.items ≡ opened at (what_shown what.entry) jobs.old.items }
{
    match what {
        WhatRef::Ask {
            child,
            job,
            task,
            ..
        } => {
            let one = Open {
                child,
                job,
                task,
                at,
                alone: is_idle(jobs.as_slice(), child),
            };
            put(jobs, one)
        }
        WhatRef::Verdict { child, job, .. } => {
            close(jobs, child, job);
            true
        }
        _ => true,
    }
}

/// Notes the entry, which stands at that place, and whose child was asked so many jobs. False where the table can't be right after
/// it.
#[tactic(auto, using(crate::proofs::Opening::open_more))]
fn note_open(jobs: &mut Vec<Open>, asked: u64, at: usize, what: WhatRef<'_>) -> bool
    ensures { IsTrue result → (past : List Entry) → (e : Entry) → e.what ≡ what_shown what.entry → length past ≡ at
        → asked ≡ length (asked_jobs past (jobs_child (what_shown what.entry))) → AreOpen past jobs.old.items → AreOpen (past ++ e ∷ []) jobs.new.items }
{
    keeps_numbers(asked, what) && change(jobs, at, what)
}

/// Whether the job is open, where the table is that of the entries.
#[tactic(auto, using(crate::proofs::Opening::is_open_here))]
pub(super) fn is_open(jobs: &[Open], child: u32, job: u64) -> bool
    ensures { (past : List Entry) → AreOpen past jobs.now → result ≡ is_open past child job }
{
    has(jobs, child, job)
}

/// Whether the job was asked, where the table is that of the entries, of whose child so many jobs were.
#[tactic(auto, using(crate::proofs::Opening::asked_here))]
pub(super) fn is_asked(jobs: &[Open], asked: u64, child: u32, job: u64) -> bool
    ensures { (past : List Entry) → AreOpen past jobs.now → asked ≡ length (asked_jobs past child) → result ≡ list_any (λ k. k == job) (asked_jobs past child) }
{
    job < asked
}

fn first_on(jobs: &[Open], c: u32) -> Option<&Open>
    ensures { option_copied result ≡ find (λ x. x.child == c) jobs.now }
{
    jobs.iter().find(|x| x.child == c)
}

/// The first of the child's open jobs, where the table is that of the entries.
#[tactic(auto, using(crate::proofs::Opening::first_open_here))]
pub(super) fn first_open(jobs: &[Open], child: u32) -> Option<u64>
    ensures { (past : List Entry) → AreOpen past jobs.now → result ≡ first_of (open_jobs past child) }
{
    match first_on(jobs, child) {
        Some(one) => Some(one.job),
        None => None,
    }
}

fn has_task(jobs: &[Open], t: u32) -> bool
    ensures { result ≡ list_any (λ x. x.task == t) jobs.now }
{
    jobs.iter().any(|x| x.task == t)
}

/// Whether a job of the task is open, where the table is that of the entries.
#[tactic(auto, using(crate::proofs::Opening::task_open_here))]
pub(super) fn has_open_job(jobs: &[Open], task: u32) -> bool
    ensures { (past : List Entry) → AreOpen past jobs.now → result ≡ has_open_job past task }
{
    has_task(jobs, task)
}

fn find_job(jobs: &[Open], child: u32, job: u64) -> Option<&Open>
    ensures { option_copied result ≡ find (is_this child job) jobs.now }
{
    jobs.iter().find(|x| is_this(x, child, job))
}

/// The place of the host's first line of the job, where it is open and the table is that of the entries.
pub(super) fn place_of(jobs: &[Open], child: u32, job: u64) -> Option<usize>
    ensures { (past : List Entry) → AreOpen past jobs.now → IfSome result (λ at. at ≡ asked_at past child job) }
{
    match find_job(jobs, child, job) {
        Some(x) => Some(x.at),
        None => None,
    }
}

/// The span of an open job that was asked alone, where the table is that of so many entries and its child was offered no tags.
pub(super) fn span_of(jobs: &[Open], len: usize, child: u32, job: u64) -> Option<Span>
    ensures { (past : List Entry) → length past ≡ len → AreOpen past jobs.now → any (offers child) past ≡ false → IfSome result (λ s. IsSpan past child job s) }
{
    match find_job(jobs, child, job) {
        Some(x) if x.alone => Some(Span {
            asked: x.at,
            settled: len,
        }),
        _ => None,
    }
}

fn are_from(jobs: &[Open], place: usize) -> bool
    ensures { result ≡ list_all (λ x. nat_le place x.at) jobs.now }
{
    jobs.iter().all(|x| place <= x.at)
}

fn first_place(jobs: &[Open], len: usize) -> usize {
    match jobs {
        [first, ..] => first.at,
        [] => len,
    }
}

/// A place before which no open job was asked, where the table is that of so many entries.
#[tactic(auto, using(crate::proofs::Ending::none_due))]
pub(super) fn least_place(jobs: &[Open], len: usize) -> usize
    ensures bound { result ≤ len }
    ensures none { (past : List Entry) → AreOpen past jobs.now → NoneDue past result }
{
    let place = first_place(jobs, len);
    if place <= len && are_from(jobs, place) {
        place
    } else {
        0
    }
}

fn find_told(told: &[Told], c: u32, j: u64) -> Option<&Told>
    ensures { option_copied result ≡ find (λ x. x.child == c && x.job == j) told.now }
{
    told.iter().find(|x| x.child == c && x.job == j)
}

/// How the job was settled, where that is still told.
#[tactic(auto, using(crate::proofs::Opening::told_found))]
fn told_in(told: &[Told], child: u32, job: u64) -> Option<Verdict>
    ensures { IfSome result (λ v. (past : List Entry) → AreTold past told.now → verdict_of past child job ≡ Some v) }
{
    match find_told(told, child, job) {
        Some(one) => Some(one.verdict),
        None => None,
    }
}

/// How many settled jobs are told: those that workers may still ask for.
const MOST_TOLD: usize = 256;

/// Keeps how a job was settled, in the place of the one that was told longest ago where there are many. It takes no memory.
fn keep(told: &mut Vec<Told>, next: usize, one: Told)
    ensures { (past : List Entry) → AreTold past told.old.items → IsTold past one → AreTold past told.new.items }
{
    if told.len() < MOST_TOLD && told.len() < told.capacity() {
        match told.push(one) {
            Ok(()) => {}
            Err(_) => unreachable!(),
        }
    } else if next < told.len() {
        told[next] = one;
    }
}

/// Notes how the entry settles an open job, if it does. The table is that of the entries before it.
#[tactic(auto, using(crate::proofs::Opening::told_more, crate::proofs::Opening::told_now))]
fn tell(told: &mut Vec<Told>, jobs: &[Open], next: usize, what: WhatRef<'_>)
    ensures { (past : List Entry) → (e : Entry) → e.what ≡ what_shown what.entry → AreOpen past jobs.now → AreTold past told.old.items → AreTold (past ++ e ∷ []) told.new.items }
{
    match what {
        WhatRef::Verdict {
            child,
            job,
            verdict,
        } => {
            if has(jobs, child, job) {
                keep(
                    told,
                    next,
                    Told {
                        child,
                        job,
                        verdict,
                    },
                );
            }
        }
        _ => {}
    }
}

/// The open jobs, and how the last settled ones were settled. Where they are not known, nothing of it counts.
#[derive(Drop)]
pub(super) struct Jobs {
    pub known: bool,
    pub list: Vec<Open>,
    pub told: Vec<Told>,
    pub next: usize,
}

/// No jobs, as where there are no entries. It takes no memory.
#[tactic(auto, using(crate::proofs::Opening::none_open))]
pub(super) fn none(alloc: Global) -> Jobs
    ensures { AreJobsKnown [] result }
{
    Jobs {
        known: true,
        list: Vec::new(alloc),
        told: Vec::new(alloc),
        next: 0,
    }
}

/// Takes room for so many more entries, or for as many jobs as workers may have.
pub(super) fn take_room(jobs: &mut Jobs, more: usize) -> Result<(), AllocError>
    ensures { (past : List Entry) → AreJobsKnown past jobs.old → AreJobsKnown past jobs.new }
{
    let few = more.min(MOST_TOLD);
    jobs.list.reserve(few)?;
    jobs.told.reserve(few)
}

/// Where the next settled job is told, after one more entry.
fn next_place(next: usize, what: WhatRef<'_>) -> usize {
    match what {
        WhatRef::Verdict { .. } => (next % MOST_TOLD + 1) % MOST_TOLD,
        _ => next,
    }
}

/// Notes an entry that comes next, at that place. The lives are those of the entries before it. It takes no memory.
pub(super) fn note(jobs: &mut Jobs, lives: &Lives, at: usize, entry: EntryRef<'_>)
    ensures { (past : List Entry) → length past ≡ at → AreKnown past lives.now → AreJobsKnown past jobs.old → AreJobsKnown (past ++ entry_shown entry.entry ∷ []) jobs.new }
{
    if !jobs.known {
        return;
    }
    let Some(life) = life::known(lives, jobs_child(entry.what)) else {
        jobs.known = false;
        return;
    };
    tell(&mut jobs.told, jobs.list.as_slice(), jobs.next, entry.what);
    jobs.next = next_place(jobs.next, entry.what);
    let known = note_open(&mut jobs.list, life.asked, at, entry.what);
    jobs.known = known;
}

/// The open jobs, where they are known.
pub(super) fn look(jobs: &Jobs) -> Option<&[Open]>
    ensures { (past : List Entry) → AreJobsKnown past jobs.now → IfSome result (λ list. AreOpen past list.now) }
{
    if !jobs.known {
        return None;
    }
    Some(jobs.list.as_slice())
}

/// How the job was settled, where that is known.
pub(super) fn told_of(jobs: &Jobs, child: u32, job: u64) -> Option<Verdict>
    ensures { (past : List Entry) → AreJobsKnown past jobs.now → IfSome result (λ v. verdict_of past child job ≡ Some v) }
{
    if !jobs.known {
        return None;
    }
    told_in(jobs.told.as_slice(), child, job)
}
