// What the journal says of the tasks.
ghost use Rattle.std.specs.Prelude.{ℕ, ◌≡◌, ◌≤◌, ◌<◌, ◌-◌, ◌^◌, ◌&&◌, filter, find, length, not, false, true, IfSome, IsNone, option_copied};
ghost use Rattle.std.specs.List.{list_any, list_all, range_with_len};
ghost use Rattle.journal_model.specs.Limits.{most_tasks};
ghost use Rattle.journal_model.specs.Legality.{is_claimed, holder, is_busy, task_of, is_claimed_by, is_held_for, has_open_job, may_work, has_busy_task, claimed_for};
ghost use Rattle.journal_model.specs.Legality.{is_free, least_free, both_conflict, numbers_of};
ghost use Rattle.journal_model.specs.Journal.{each_of};
ghost use Rattle.journal_look.specs.Holds.{held_of};
ghost use Rattle.journal_look.specs.Marks.{AreClaimed};

use crate::held::{self, Held};
use crate::jobs;
use crate::journal::Journal;
use journal_model::{Holder, Opening};
use journal_scan::Entries;
use journal_scan::claims::{
    claimed_for, has_busy, has_open, holder, is_busy, is_held_by, is_held_for,
};
use journal_scan::conflicts::both_conflict;

/// How many tasks there are.
pub(super) fn task_count(opening: &Opening) -> u32
    requires { length opening.now.tasks ≤ most_tasks }
    ensures { result ≡ length opening.now.tasks }
{
    opening.tasks.view().len() as u32
}

/// Whether the other task is busy and in the task's way. Few are in the way of any.
#[tactic(auto, using(crate::proofs::Marking::either_order))]
fn is_busy_in_way(opening: &Opening, entries: &Entries<'_>, task: u32, other: u32) -> bool
    ensures { result ≡ (is_busy entries.now other && both_conflict (task_of opening.now other) (task_of opening.now task)) }
{
    both_conflict(opening, other, task) && is_busy(entries, other)
}

/// Whether a busy task is in the task's way.
fn is_in_way(opening: &Opening, entries: &Entries<'_>, task: u32) -> bool
    requires { length opening.now.tasks ≤ most_tasks }
    ensures { result ≡ list_any (λ u. is_busy entries.now u && both_conflict (task_of opening.now u) (task_of opening.now task)) (numbers_of opening.now) }
{
    (1..task_count(opening) + 1).any(|other| is_busy_in_way(opening, entries, task, other))
}

/// Whether a held task is in the task's way.
fn is_held_in_way(opening: &Opening, held: &[Held], task: u32) -> bool
    ensures { result ≡ list_any (λ h. both_conflict (task_of opening.now h.task) (task_of opening.now task)) held.now }
{
    held.iter().any(|h| both_conflict(opening, h.task, task))
}

/// The same of any journal.
fn has_in_way(opening: &Opening, journal: &Journal, task: u32) -> bool
    requires { length opening.now.tasks ≤ most_tasks }
    ensures { result ≡ list_any (λ u. is_busy journal.now.entries u && both_conflict (task_of opening.now u) (task_of opening.now task)) (numbers_of opening.now) }
{
    match journal.held() {
        Some(held) => is_held_in_way(opening, held, task),
        None => is_in_way(opening, &journal.entries(), task),
    }
}

fn is_free(opening: &Opening, journal: &Journal, task: u32) -> bool
    requires { length opening.now.tasks ≤ most_tasks }
    ensures { result ≡ is_free opening.now journal.now.entries task }
{
    !journal.is_taken(task) && !has_in_way(opening, journal, task)
}

fn first_free(opening: &Opening, journal: &Journal, from: u32, end: u32) -> Option<u32>
    requires { length opening.now.tasks ≤ most_tasks }
    ensures { result ≡ find (is_free opening.now journal.now.entries) (range_with_len from (end - from)) }
{
    (from..end).find(|task| is_free(opening, journal, *task))
}

fn all_claimed(journal: &Journal, from: u32, end: u32) -> bool
    ensures { result ≡ list_all (is_claimed journal.now.entries) (range_with_len from (end - from)) }
{
    (from..end).all(|task| journal.is_taken(task))
}

/// The first task that is free to be claimed. Each below from is claimed.
pub(super) fn least_free(opening: &Opening, journal: &Journal, from: u32) -> Option<u32>
    requires few { length opening.now.tasks ≤ most_tasks }
    requires some { 0 < from }
    requires claimed { AreClaimed journal.now.entries from }
    ensures { result ≡ least_free opening.now journal.now.entries }
{
    first_free(opening, journal, from, task_count(opening) + 1)
}

/// Whether each task is claimed, where each below from is.
pub(super) fn are_all_claimed(opening: &Opening, journal: &Journal, from: u32) -> bool
    requires few { length opening.now.tasks ≤ most_tasks }
    requires some { 0 < from }
    requires claimed { AreClaimed journal.now.entries from }
    ensures { result ≡ list_all (is_claimed journal.now.entries) (numbers_of opening.now) }
{
    all_claimed(journal, from, task_count(opening) + 1)
}

fn holder_of(journal: &Journal, task: u32) -> Option<Holder>
    ensures { result ≡ holder journal.now.entries task }
{
    match journal.held() {
        Some(held) => held::holder(held, task),
        None => holder(&journal.entries(), task),
    }
}

/// Whether the number holds the task.
pub(super) fn is_claimed_by(journal: &Journal, by: u32, task: u32) -> bool
    ensures { result ≡ is_claimed_by journal.now.entries by task }
{
    is_held_by(holder_of(journal, task), by)
}

pub(super) fn has_open_job(journal: &Journal, task: u32) -> bool
    ensures { result ≡ has_open_job journal.now.entries task }
{
    match journal.jobs() {
        Some(list) => jobs::has_open_job(list, task),
        None => has_open(&journal.entries(), task),
    }
}

/// Whether a request for the task may be made by this number over the child.
pub(super) fn may_work(journal: &Journal, by: u32, task: u32, child: u32) -> bool
    ensures { result ≡ may_work journal.now.entries by task child }
{
    task == 0 && by == 0
        || is_claimed_by(journal, by, task)
            && is_held_for(holder_of(journal, task), child)
            && !has_open_job(journal, task)
}

/// The first of the held tasks for which the number may make a request over the child, with its holder.
fn find_work<'a>(journal: &Journal, held: &'a [Held], by: u32, child: u32) -> Option<&'a Held>
    ensures { option_copied result ≡ find (λ h. may_work journal.now.entries by h.task child) held.entry.now }
{
    held.iter().find(|h| may_work(journal, by, h.task, child))
}

/// The first of the held tasks for which the number may make a request over the child.
fn held_work(journal: &Journal, held: &[Held], by: u32, child: u32) -> Option<u32>
    ensures some { IfSome result (λ t. may_work journal.now.entries by t child ≡ true) }
    ensures none { IsNone result → list_any (λ h. may_work journal.now.entries by h.task child) held.now ≡ false }
{
    match find_work(journal, held, by, child) {
        Some(h) => Some(h.task),
        None => None,
    }
}

/// The first task that was claimed for the child and for which the number may make a request over it.
fn first_work(journal: &Journal, by: u32, child: u32) -> Option<u32>
    ensures { result ≡ find (λ t. may_work journal.now.entries by t child) (each_of (claimed_for child) journal.now.entries) }
{
    journal
        .entries()
        .iter()
        .filter_map(|e| claimed_for(e.what, child))
        .find(|t| may_work(journal, by, *t, child))
}

/// A task for which the number may make a request over the child: its own work for task 0, or a task that it holds.
pub(super) fn work_for(journal: &Journal, by: u32, child: u32) -> Option<u32>
    ensures some { IfSome result (λ t. may_work journal.now.entries by t child ≡ true) }
    ensures none { IsNone result → (t : ℕ) → may_work journal.now.entries by t child ≡ false }
{
    if may_work(journal, by, 0, child) {
        return Some(0);
    }
    match journal.held() {
        Some(held) => held_work(journal, held, by, child),
        None => first_work(journal, by, child),
    }
}

fn has_held_task(held: &[Held], child: u32) -> bool
    ensures { result ≡ list_any (λ h. is_held_for child (held_of held.now h.task)) held.now }
{
    held.iter()
        .any(|h| is_held_for(held::holder(held, h.task), child))
}

pub(super) fn has_busy_task(journal: &Journal, child: u32) -> bool
    ensures { result ≡ has_busy_task journal.now.entries child }
{
    match journal.held() {
        Some(held) => has_held_task(held, child),
        None => has_busy(&journal.entries(), child),
    }
}

fn count_unclaimed(journal: &Journal, from: u32, end: u32) -> u32
    ensures { result ≡ length (filter (λ t. not (is_claimed journal.now.entries t)) (range_with_len from (end - from))) }
{
    (from..end).filter(|task| !journal.is_taken(*task)).count() as u32
}

/// How many tasks are not claimed, where each below from is.
pub(super) fn unclaimed(opening: &Opening, journal: &Journal, from: u32) -> u32
    requires few { length opening.now.tasks ≤ most_tasks }
    requires some { 0 < from }
    requires claimed { AreClaimed journal.now.entries from }
    ensures { result ≡ length (filter (λ t. not (is_claimed journal.now.entries t)) (numbers_of opening.now)) }
{
    count_unclaimed(journal, from, task_count(opening) + 1)
}
