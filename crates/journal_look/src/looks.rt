// What is asked of a journal, each question by the definition of its name.
ghost use Rattle.std.specs.Prelude.{IfSome, IsNone, ℕ, Bool, None, true, false, ◌<◌, IsTrue, ◌≡◌, ◌≤◌, ◌==◌, not, length, take, filter, option_copied, option_map, IfOk};
ghost use Rattle.std.specs.List.{list_any, list_all};
ghost use Rattle.journal_model.specs.Limits.{most_tasks};
ghost use Rattle.journal_model.specs.Journal.{offers, first_of, any, is_started, is_ended, is_mute, is_live, has_spoken, asked_jobs, open_jobs, is_open, verdict_of, why_of, line_at};
ghost use Rattle.journal_model.specs.Journal.{is_tagged, addressed, on_wire, unsent, is_full};
ghost use Rattle.journal_model.specs.Parts.{item_at};
ghost use Rattle.journal_model.specs.Legality.{count, is_start, is_empty, is_claimed, numbers_of, least_free, is_prepared, is_greeted, may_ask, is_claimed_by, has_open_job, has_busy_task};
ghost use Rattle.journal_scan.specs.Looks.{NoneDue, is_no_start, asked_at, request_text, remote_text, job_at};
ghost use Rattle.journal_scan.specs.Spans.{IsSpan};

use crate::journal::Journal;
use crate::{cursors, dues, jobs, tasks};
use ann_key::{Bytes, NoMemory};
use journal_model::{Opening, Verdict, Why};
use journal_scan::spans::{self, Span};
use journal_scan::{children, lines, talks};
use std::alloc::Global;
use wire_msg::tag;

// ---- children

/// Whether the child was started.
pub fn is_started(journal: &Journal, child: u32) -> bool
    ensures { result ≡ is_started journal.now.entries child }
{
    journal.life(child).started
}

/// Whether the child ended.
pub fn is_ended(journal: &Journal, child: u32) -> bool
    ensures { result ≡ is_ended journal.now.entries child }
{
    journal.life(child).ended
}

/// Whether a write to the child failed.
pub fn is_mute(journal: &Journal, child: u32) -> bool
    ensures { result ≡ is_mute journal.now.entries child }
{
    journal.life(child).mute
}

/// Whether the child was started and has not ended.
pub fn is_live(journal: &Journal, child: u32) -> bool
    ensures { result ≡ is_live journal.now.entries child }
{
    let life = journal.life(child);
    life.started && !life.ended
}

/// Why the child ended, if it did.
pub fn why_of(journal: &Journal, child: u32) -> Option<Why>
    ensures { result ≡ why_of journal.now.entries child }
{
    journal.life(child).why
}

/// Whether the child has said a line.
pub fn has_spoken(journal: &Journal, child: u32) -> bool
    ensures { result ≡ has_spoken journal.now.entries child }
{
    journal.life(child).spoken
}

/// Whether ASYNC is offered to the child.
pub fn is_offered(journal: &Journal, child: u32) -> bool
    ensures { result ≡ any (offers child) journal.now.entries }
{
    journal.life(child).offered
}

/// How many children were started.
pub fn starts_so_far(journal: &Journal) -> usize
    ensures { result ≡ count is_start journal.now.entries }
{
    match journal.starts() {
        Some(starts) => starts as usize,
        None => children::starts_so_far(&journal.entries()),
    }
}

/// Whether a child couldn't be started.
pub fn has_no_start(journal: &Journal) -> bool
    ensures { result ≡ any is_no_start journal.now.entries }
{
    match journal.no_start() {
        Some(no_start) => no_start,
        None => children::has_no_start(&journal.entries()),
    }
}

// ---- jobs

/// How many jobs were asked on the child, which is the number of the next.
pub fn next_job(journal: &Journal, child: u32) -> u64
    ensures { result ≡ length (asked_jobs journal.now.entries child) }
{
    journal.life(child).asked
}

/// Whether the job was asked.
pub fn is_asked(journal: &Journal, child: u32, job: u64) -> bool
    ensures { result ≡ list_any (λ k. k == job) (asked_jobs journal.now.entries child) }
{
    match journal.jobs() {
        Some(list) => jobs::is_asked(list, next_job(journal, child), child, job),
        None => children::is_asked(&journal.entries(), child, job),
    }
}

/// Whether the job was asked and is not settled.
pub fn is_open(journal: &Journal, child: u32, job: u64) -> bool
    ensures { result ≡ is_open journal.now.entries child job }
{
    match journal.jobs() {
        Some(list) => jobs::is_open(list, child, job),
        None => children::is_open(&journal.entries(), child, job),
    }
}

/// The first of the child's open jobs.
fn first_open(journal: &Journal, child: u32) -> Option<u64>
    ensures { result ≡ first_of (open_jobs journal.now.entries child) }
{
    match journal.jobs() {
        Some(list) => jobs::first_open(list, child),
        None => children::first_open(&journal.entries(), child),
    }
}

/// Whether each job of the child is settled.
pub fn has_no_open_job(journal: &Journal, child: u32) -> bool
    ensures { result ≡ is_empty (open_jobs journal.now.entries child) }
{
    first_open(journal, child).is_none()
}

/// How the job was settled, if it was.
pub fn verdict_of(journal: &Journal, child: u32, job: u64) -> Option<Verdict>
    ensures { result ≡ verdict_of journal.now.entries child job }
{
    if is_known_open(journal, child, job) {
        return None;
    }
    match journal.told(child, job) {
        Some(verdict) => Some(verdict),
        None => children::verdict_of(&journal.entries(), child, job),
    }
}

/// Whether the job is known to have no verdict.
#[tactic(auto, using(crate::proofs::Opening::open_none))]
fn is_known_open(journal: &Journal, child: u32, job: u64) -> bool
    ensures { IsTrue result → verdict_of journal.now.entries child job ≡ None }
{
    match journal.jobs() {
        Some(list) => jobs::is_open(list, child, job),
        None => false,
    }
}

/// Whether the child's job 1 was to get ready, and is done.
pub fn is_prepared(journal: &Journal, child: u32) -> bool
    ensures { result ≡ is_prepared journal.now.entries child }
{
    let life = journal.life(child);
    lines::is_done(life.second) && life.prepares
}

/// Whether some request may be asked as this job of the child.
fn is_greeted(journal: &Journal, child: u32, job: u64) -> bool
    ensures { result ≡ is_greeted journal.now.entries child job }
{
    match job {
        0 => lines::said_version(&journal.entries(), child),
        1 => verdict_of(journal, child, 0).is_some(),
        _ => is_prepared(journal, child),
    }
}

/// Whether some request may be asked as the child's next job, but for its end or mute.
pub fn may_ask(journal: &Journal, by: u32, task: u32, child: u32) -> bool
    ensures { result ≡ may_ask journal.now.entries by task child }
{
    is_greeted(journal, child, next_job(journal, child))
        && tasks::may_work(journal, by, task, child)
        && (is_tagged(journal, child) || has_no_open_job(journal, child))
}

/// A task for which the number may make a request as the child's next job, but for the child's end or mute.
pub fn asking_task(journal: &Journal, by: u32, child: u32) -> Option<u32>
    ensures some { IfSome result (λ t. may_ask journal.now.entries by t child ≡ true) }
    ensures none { IsNone result → (t : ℕ) → may_ask journal.now.entries by t child ≡ false }
{
    if !is_greeted(journal, child, next_job(journal, child)) {
        return None;
    }
    if !is_tagged(journal, child) && !has_no_open_job(journal, child) {
        return None;
    }
    tasks::work_for(journal, by, child)
}

/// The job asked at a place of the first n entries, where the child's end after them settles it, or where its mute does.
pub fn due_at(journal: &Journal, n: u64, at: u64, child: u32, unsent: bool) -> Option<u64>
    requires { n ≤ length journal.now.entries }
    ensures { result ≡ job_at journal.now.entries n at child unsent }
{
    dues::job_at(journal, n as usize, at as usize, child, unsent)
}

/// A place before which no end or mute of a child settles the job that an entry asks.
pub fn first_due(journal: &Journal) -> u64
    ensures bound { result ≤ length journal.now.entries }
    ensures none { NoneDue journal.now.entries result }
{
    match journal.jobs() {
        Some(list) => jobs::least_place(list, journal.entries().len()) as u64,
        None => 0,
    }
}

/// The text of the job's request.
pub fn request_text(journal: &Journal, child: u32, job: u64) -> Option<&[u8]>
    ensures { option_copied result ≡ request_text journal.now.entries child job }
{
    let place = place_of(journal, child, job);
    talks::request_text(
        &journal.entries(),
        place,
        !is_offered(journal, child),
        child,
        job,
    )
}

/// The place of the job's request, where it is known without the entries.
fn place_of(journal: &Journal, child: u32, job: u64) -> Option<usize>
    ensures { IfSome result (λ at. at ≡ asked_at journal.now.entries child job) }
{
    match journal.jobs() {
        Some(list) => jobs::place_of(list, child, job),
        None => None,
    }
}

/// The text of the line at that place, its tag taken off, where the child said it in the job.
pub fn said_at(journal: &Journal, child: u32, job: u64, at: u64) -> Option<&[u8]>
    ensures { option_copied result ≡ remote_text (item_at journal.now.entries child job at) }
{
    said_within(journal, open_span(journal, child, job), child, job, at)
}

/// The job's span, where it is open and the span is known without the entries: that of a job that was asked alone, of a child that was
/// offered no tags.
pub fn open_span(journal: &Journal, child: u32, job: u64) -> Option<Span>
    ensures { IfSome result (λ s. IsSpan journal.now.entries child job s) }
{
    if is_offered(journal, child) {
        return None;
    }
    match journal.jobs() {
        Some(list) => jobs::span_of(list, journal.entries().len(), child, job),
        None => None,
    }
}

/// The span of a job that was asked alone, of a child that was offered no tags. It goes through the entries.
pub fn span_of(journal: &Journal, child: u32, job: u64) -> Option<Span>
    ensures { IfSome result (λ s. IsSpan journal.now.entries child job s) }
{
    spans::span_of(&journal.entries(), child, job)
}

/// As `said_at`, of a job that may have a span. Without one it goes through what stands before the place: no command asks for lines in
/// a job of a child that was offered tags.
pub fn said_within(
    journal: &Journal,
    span: Option<Span>,
    child: u32,
    job: u64,
    at: u64,
) -> Option<&[u8]>
    requires { IfSome span (λ s. IsSpan journal.now.entries child job s) }
    ensures { option_copied result ≡ remote_text (item_at journal.now.entries child job at) }
{
    match span {
        Some(span) => spans::said_within(&journal.entries(), span, child, job, at as usize),
        None => talks::said_at(&journal.entries(), child, job, at as usize),
    }
}

// ---- lines

/// Whether the journal takes no further line of a child.
pub fn is_full(journal: &Journal) -> bool
    ensures { result ≡ is_full journal.now.entries }
{
    lines::is_full(&journal.entries(), journal.left())
}

/// The line got at a place, if one was.
pub fn line_at(journal: &Journal, at: u64) -> &[u8]
    ensures { result.now ≡ line_at journal.now.entries at }
{
    lines::line_at(&journal.entries(), at)
}

/// Whether the lines of the child have tags.
pub fn is_tagged(journal: &Journal, child: u32) -> bool
    ensures { result ≡ is_tagged journal.now.entries child }
{
    let life = journal.life(child);
    life.offered && lines::accepts_async(&journal.entries(), life.first)
}

/// The job that the child's line is for, and its text without the tag.
pub fn addressed<'a>(journal: &Journal, child: u32, line: &'a [u8]) -> (Option<u64>, &'a [u8])
    ensures { (result.0, result.1.now) ≡ addressed journal.now.entries child line.entry.now }
{
    if is_tagged(journal, child) {
        lines::by_tag(line)
    } else {
        (first_open(journal, child), line)
    }
}

/// The line as it stands on the wire.
pub fn on_wire(
    alloc: Global,
    journal: &Journal,
    child: u32,
    job: u64,
    line: Bytes,
) -> Result<Bytes, NoMemory>
    ensures { IfOk result (λ b. b ≡ on_wire journal.now.entries child job line) }
{
    if is_tagged(journal, child) {
        tag(alloc, job, line.view())
    } else {
        Ok(line)
    }
}

/// Whether each line for the child was written whole.
pub fn is_all_sent(journal: &Journal, child: u32) -> bool
    ensures { result ≡ is_empty (unsent journal.now.entries child) }
{
    let life = journal.life(child);
    lines::are_all_sent(life.written, life.sent)
}

/// The first of the lines for the child that were not written whole.
pub fn first_unsent(journal: &Journal, child: u32) -> Option<&[u8]>
    ensures { option_copied result ≡ option_map (λ w. w.1) (first_of (unsent journal.now.entries child)) }
{
    if is_all_sent(journal, child) {
        return None;
    }
    let life = journal.life(child);
    match journal.cursor(child) {
        Some(cursor) if cursor.passed <= life.sent => {
            cursors::unsent_from(&journal.entries(), cursor, child, life.sent)
        }
        _ => lines::first_unsent(&journal.entries(), child),
    }
}

// ---- tasks

/// The first task that is free to be claimed.
pub fn least_free(opening: &Opening, journal: &Journal) -> Option<u32>
    requires { length opening.now.tasks ≤ most_tasks }
    ensures { result ≡ least_free opening.now journal.now.entries }
{
    tasks::least_free(opening, journal, journal.claimed())
}

/// Whether each task is claimed.
pub fn are_all_claimed(opening: &Opening, journal: &Journal) -> bool
    requires { length opening.now.tasks ≤ most_tasks }
    ensures { result ≡ list_all (is_claimed journal.now.entries) (numbers_of opening.now) }
{
    tasks::are_all_claimed(opening, journal, journal.claimed())
}

/// How many tasks are not claimed.
pub fn unclaimed(opening: &Opening, journal: &Journal) -> u32
    requires { length opening.now.tasks ≤ most_tasks }
    ensures { result ≡ length (filter (λ t. not (is_claimed journal.now.entries t)) (numbers_of opening.now)) }
{
    tasks::unclaimed(opening, journal, journal.claimed())
}

/// Whether the number holds the task.
pub fn is_claimed_by(journal: &Journal, by: u32, task: u32) -> bool
    ensures { result ≡ is_claimed_by journal.now.entries by task }
{
    tasks::is_claimed_by(journal, by, task)
}

/// Whether a job of the task is open.
pub fn has_open_job(journal: &Journal, task: u32) -> bool
    ensures { result ≡ has_open_job journal.now.entries task }
{
    tasks::has_open_job(journal, task)
}

/// Whether a task is held for the child.
pub fn has_busy_task(journal: &Journal, child: u32) -> bool
    ensures { result ≡ has_busy_task journal.now.entries child }
{
    tasks::has_busy_task(journal, child)
}
