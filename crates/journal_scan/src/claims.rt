// What the entries say of who holds a task, and of its jobs.
ghost use Rattle.std.specs.Prelude.{◌≡◌};
ghost use Rattle.journal_model.specs.Legality.{holder, is_busy, is_held_by, is_held_for, is_busy_with, job_for, has_open_job, has_busy_task};
ghost use Rattle.journal_model.specs.Legality.{claims, claimed_on, is_claimed, claimed_for, renews, turned, count};
ghost use Rattle.journal_scan.specs.Shown.{what_shown, entry_shown};

use crate::{Entries, EntryRef, WhatRef, children};
use journal_model::Holder;

/// Whether the entry claims the task.
pub fn claims(what: WhatRef<'_>, t: u32) -> bool
    ensures { result ≡ claims t (what_shown what.entry) }
{
    match what {
        WhatRef::Claim { task, .. } => task == t,
        _ => false,
    }
}

/// What the entry makes of whether the task is claimed.
fn claimed_on(before: bool, entry: EntryRef<'_>, t: u32) -> bool
    ensures { result ≡ claimed_on t before (entry_shown entry.entry) }
{
    match entry.what {
        WhatRef::Claim { task, .. } => before || task == t,
        WhatRef::Again { task, .. } => before && task != t,
        _ => before,
    }
}

/// Whether the task is claimed.
pub fn is_claimed(entries: &Entries<'_>, task: u32) -> bool
    ensures { result ≡ is_claimed entries.now task }
{
    entries
        .iter()
        .fold(false, |before, e| claimed_on(before, e, task))
}

/// Whether the entry says that the task is to be run again.
pub fn renews(what: WhatRef<'_>, t: u32) -> bool
    ensures { result ≡ renews t (what_shown what.entry) }
{
    match what {
        WhatRef::Again { task, .. } => task == t,
        _ => false,
    }
}

/// How often the task was to be run again.
pub fn renewed(entries: &Entries<'_>, task: u32) -> usize
    ensures { result ≡ count (renews task) entries.now }
{
    entries.iter().filter(|e| renews(e.what, task)).count()
}

/// What the entry makes of the task's holder.
fn turned(held: Option<Holder>, entry: EntryRef<'_>, t: u32) -> Option<Holder>
    ensures { result ≡ turned t held (entry_shown entry.entry) }
{
    match entry.what {
        WhatRef::Claim { task, child } if task == t => Some(Holder {
            by: entry.by,
            child,
        }),
        WhatRef::Answer { task, .. } | WhatRef::Again { task, .. } if task == t => None,
        _ => held,
    }
}

/// Who holds the task.
pub fn holder(entries: &Entries<'_>, task: u32) -> Option<Holder>
    ensures { result ≡ holder entries.now task }
{
    entries.iter().fold(None, |held, e| turned(held, e, task))
}

/// Whether someone holds the task.
pub fn is_busy(entries: &Entries<'_>, task: u32) -> bool
    ensures { result ≡ is_busy entries.now task }
{
    holder(entries, task).is_some()
}

/// Whether the number holds it.
pub fn is_held_by(holder: Option<Holder>, by: u32) -> bool
    ensures { result ≡ is_held_by by holder }
{
    match holder {
        Some(holder) => holder.by == by,
        None => false,
    }
}

/// Whether it is held for the child.
pub fn is_held_for(holder: Option<Holder>, child: u32) -> bool
    ensures { result ≡ is_held_for child holder }
{
    match holder {
        Some(holder) => holder.child == child,
        None => false,
    }
}

/// Whether the task is held for the child.
fn is_busy_with(entries: &Entries<'_>, child: u32, task: u32) -> bool
    ensures { result ≡ is_busy_with entries.now child task }
{
    is_held_for(holder(entries, task), child)
}

/// The job that the entry asks for the task, and its child.
fn job_for(what: WhatRef<'_>, t: u32) -> Option<(u32, u64)>
    ensures { result ≡ job_for t (what_shown what.entry) }
{
    match what {
        WhatRef::Ask {
            child,
            job,
            task,
            ..
        } if task == t => Some((child, job)),
        _ => None,
    }
}

/// Whether a job of the task is open.
pub fn has_open(entries: &Entries<'_>, task: u32) -> bool
    ensures { result ≡ has_open_job entries.now task }
{
    entries
        .iter()
        .filter_map(|e| job_for(e.what, task))
        .any(|q| children::is_open(entries, q.0, q.1))
}

/// The task that the entry claims for the child.
pub fn claimed_for(what: WhatRef<'_>, c: u32) -> Option<u32>
    ensures { result ≡ claimed_for c (what_shown what.entry) }
{
    match what {
        WhatRef::Claim { task, child } if child == c => Some(task),
        _ => None,
    }
}

/// Whether a task is held for the child.
pub fn has_busy(entries: &Entries<'_>, child: u32) -> bool
    ensures { result ≡ has_busy_task entries.now child }
{
    entries
        .iter()
        .filter_map(|e| claimed_for(e.what, child))
        .any(|task| is_busy_with(entries, child, task))
}
