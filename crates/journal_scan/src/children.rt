// What the journal says of a child and of its jobs: one function for each definition, over the flat list of entries.
ghost use Rattle.std.specs.Prelude.{◌≡◌, ◌==◌, not, find, option_map};
ghost use Rattle.std.specs.List.{list_any};
ghost use Rattle.journal_model.specs.Journal.{starts, ends, mutes, got_from, sends, settles, asks, offers, verdict_in, end_why, first_of, any, asked_jobs, is_settled, open_jobs, is_open, verdict_of};
ghost use Rattle.journal_model.specs.Legality.{count, is_start};
ghost use Rattle.journal_scan.specs.Shown.{what_shown, entry_shown};
ghost use Rattle.journal_scan.specs.Looks.{is_no_start};

use crate::{Entries, EntryRef, WhatRef};
use journal_model::{Verdict, Why};

/// Whether the entry starts the child.
pub fn starts(what: WhatRef<'_>, c: u32) -> bool
    ensures { result ≡ starts c (what_shown what.entry) }
{
    match what {
        WhatRef::Start { child, .. } => child == c,
        _ => false,
    }
}

/// Whether the entry ends the child.
pub fn ends(what: WhatRef<'_>, c: u32) -> bool
    ensures { result ≡ ends c (what_shown what.entry) }
{
    match what {
        WhatRef::End { child, .. } => child == c,
        _ => false,
    }
}

/// Whether the entry says that a write to the child failed.
pub fn mutes(what: WhatRef<'_>, c: u32) -> bool
    ensures { result ≡ mutes c (what_shown what.entry) }
{
    match what {
        WhatRef::Mute { child } => child == c,
        _ => false,
    }
}

/// Whether the entry is a line that the child said.
pub fn is_from(what: WhatRef<'_>, c: u32) -> bool
    ensures { result ≡ got_from c (what_shown what.entry) }
{
    match what {
        WhatRef::Got { child, .. } => child == c,
        _ => false,
    }
}

/// Whether the entry settles the job.
pub fn settles(what: WhatRef<'_>, c: u32, j: u64) -> bool
    ensures { result ≡ settles c j (what_shown what.entry) }
{
    match what {
        WhatRef::Verdict { child, job, .. } => child == c && job == j,
        _ => false,
    }
}

/// Whether the entry starts the child and offers it ASYNC.
pub fn offers(what: WhatRef<'_>, c: u32) -> bool
    ensures { result ≡ offers c (what_shown what.entry) }
{
    match what {
        WhatRef::Start { child, offer, .. } => child == c && offer,
        _ => false,
    }
}

/// Whether the entry starts a child.
pub fn is_start(what: WhatRef<'_>) -> bool
    ensures { result ≡ is_start (what_shown what.entry) }
{
    matches!(what, WhatRef::Start { .. })
}

/// The job that the entry asks on the child.
pub fn asks(what: WhatRef<'_>, c: u32) -> Option<u64>
    ensures { result ≡ asks c (what_shown what.entry) }
{
    match what {
        WhatRef::Ask { child, job, .. } if child == c => Some(job),
        _ => None,
    }
}

/// The entry's verdict, where it settles the job.
pub fn verdict_in(what: WhatRef<'_>, c: u32, j: u64) -> Option<Verdict>
    ensures { result ≡ verdict_in c j (what_shown what.entry) }
{
    match what {
        WhatRef::Verdict {
            child,
            job,
            verdict,
        } if child == c && job == j => Some(verdict),
        _ => None,
    }
}

/// Why the child ended, where the entry ends it.
pub fn end_why(what: WhatRef<'_>, c: u32) -> Option<Why>
    ensures { result ≡ end_why c (what_shown what.entry) }
{
    match what {
        WhatRef::End { child, why } if child == c => Some(why),
        _ => None,
    }
}

/// Whether the entry says that a child couldn't be started.
pub fn is_no_start(what: WhatRef<'_>) -> bool
    ensures { result ≡ is_no_start (what_shown what.entry) }
{
    matches!(what, WhatRef::NoStart { .. })
}

/// Whether a child couldn't be started.
pub fn has_no_start(entries: &Entries<'_>) -> bool
    ensures { result ≡ any is_no_start entries.now }
{
    entries.iter().any(|e| is_no_start(e.what))
}

/// Whether ASYNC is offered to the child.
pub fn is_offered(entries: &Entries<'_>, child: u32) -> bool
    ensures { result ≡ any (offers child) entries.now }
{
    entries.iter().any(|e| offers(e.what, child))
}

/// How many children were started.
pub fn starts_so_far(entries: &Entries<'_>) -> usize
    ensures { result ≡ count is_start entries.now }
{
    entries.iter().filter(|e| is_start(e.what)).count()
}

/// Whether the job was asked.
pub fn is_asked(entries: &Entries<'_>, child: u32, job: u64) -> bool
    ensures { result ≡ list_any (λ k. k == job) (asked_jobs entries.now child) }
{
    entries
        .iter()
        .filter_map(|e| asks(e.what, child))
        .any(|k| k == job)
}

/// Whether the job was settled.
pub fn is_settled(entries: &Entries<'_>, child: u32, job: u64) -> bool
    ensures { result ≡ is_settled entries.now child job }
{
    entries.iter().any(|e| settles(e.what, child, job))
}

fn find_open(entries: &Entries<'_>, child: u32) -> Option<u64>
    ensures { result ≡ find (λ j. not (is_settled entries.now child j)) (asked_jobs entries.now child) }
{
    entries
        .iter()
        .filter_map(|e| asks(e.what, child))
        .find(|k| !is_settled(entries, child, *k))
}

/// Whether the job was asked and is not settled.
pub fn is_open(entries: &Entries<'_>, child: u32, job: u64) -> bool
    ensures { result ≡ is_open entries.now child job }
{
    entries
        .iter()
        .filter_map(|e| asks(e.what, child))
        .filter(|k| !is_settled(entries, child, *k))
        .any(|k| k == job)
}

/// The first of the child's open jobs, in rising order.
pub fn first_open(entries: &Entries<'_>, child: u32) -> Option<u64>
    ensures { result ≡ first_of (open_jobs entries.now child) }
{
    find_open(entries, child)
}

fn find_verdict<'a>(entries: &Entries<'a>, child: u32, job: u64) -> Option<EntryRef<'a>>
    ensures { option_map entry_shown result ≡ find (λ e. settles child job e.what) entries.now }
{
    entries.iter().find(|e| settles(e.what, child, job))
}

/// How the job was settled, if it was.
pub fn verdict_of(entries: &Entries<'_>, child: u32, job: u64) -> Option<Verdict>
    ensures { result ≡ verdict_of entries.now child job }
{
    match find_verdict(entries, child, job) {
        Some(e) => verdict_in(e.what, child, job),
        None => None,
    }
}
