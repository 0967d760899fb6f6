// What the journal says of a job's part.
ghost use Rattle.std.specs.Prelude.{ℕ, ◌≡◌, ◌≤◌, [], ◌∷◌, true, false, length, IfSome, option_copied};
ghost use Rattle.journal_model.specs.Journal.{addressed, any, offers};
ghost use Rattle.journal_model.specs.Parts.{item_of, item_at, ends_at, is_place};
ghost use Rattle.journal_model.specs.declared.entry.What.TheVariants.{Got};
ghost use Rattle.journal_scan.specs.Shown.{what_shown};
ghost use Rattle.journal_scan.specs.Looks.{is_hosts, hosts_line, asked_at, request_text, remote_text};

use crate::{Entries, WhatRef, children, lines};
use journal_model::Why;

/// Whether the entry is the job's request, or a reply in it.
fn is_hosts(what: WhatRef<'_>, c: u32, j: u64) -> bool
    ensures { result ≡ is_hosts c j (what_shown what.entry) }
{
    match what {
        WhatRef::Ask { child, job, .. } => child == c && job == j,
        WhatRef::Put { child, job, .. } => child == c && job == j,
        _ => false,
    }
}

/// The line that the entry writes.
pub fn hosts_line<'a>(what: WhatRef<'a>) -> &'a [u8]
    ensures { result.now ≡ hosts_line (what_shown what.entry) }
{
    match what {
        WhatRef::Lead { line, .. } => line,
        WhatRef::Ask { line, .. } => line,
        WhatRef::Put { line, .. } => line,
        _ => &[],
    }
}

// How many entries stand before the job's request.
pub(crate) fn before_job(entries: &Entries<'_>, child: u32, job: u64) -> usize
    ensures value { result ≡ asked_at entries.now child job }
    ensures bound { result ≤ length entries.now }
{
    entries
        .iter()
        .take_while(|e| !is_hosts(e.what, child, job))
        .count()
}

/// The same, which may be known already.
fn place(entries: &Entries<'_>, known: Option<usize>, child: u32, job: u64) -> usize
    requires { IfSome known (λ at. at ≡ asked_at entries.now child job) }
    ensures value { result ≡ asked_at entries.now child job }
    ensures bound { result ≤ length entries.now }
{
    match known {
        Some(at) => at,
        None => before_job(entries, child, job),
    }
}

/// The line's text without the tag, for a child that takes none or among those entries.
fn text_of<'a>(past: &Entries<'_>, plain: bool, child: u32, line: &'a [u8]) -> &'a [u8]
    requires { plain ≡ true → any (offers child) past.now ≡ false }
    ensures { result.now ≡ (addressed past.now child line.entry.now).1 }
{
    if plain {
        line
    } else {
        lines::text_of(past, child, line)
    }
}

/// The text of the job's request. Its place may be known, and that the child was offered no tags.
pub fn request_text<'a>(
    entries: &Entries<'a>,
    known: Option<usize>,
    plain: bool,
    child: u32,
    job: u64,
) -> Option<&'a [u8]>
    requires known { IfSome known (λ at. at ≡ asked_at entries.now child job) }
    requires plain { plain ≡ true → any (offers child) entries.now ≡ false }
    ensures { option_copied result ≡ request_text entries.now child job }
{
    let at = place(entries, known, child, job);
    match entries.get(at) {
        Some(e) => Some(text_of(&entries.front(at), plain, child, hosts_line(e.what))),
        None => None,
    }
}

fn is_place(at: u64, why: Why) -> bool
    ensures { result ≡ is_place at why }
{
    match why {
        Why::Foul { at: place } | Why::Error { at: place } | Why::Version { at: place } => place
            == at,
        _ => false,
    }
}

/// Whether the entry is an end of the child for its line at that place.
fn is_end_at(what: WhatRef<'_>, c: u32, at: u64) -> bool
    ensures { (by : ℕ) → result ≡ ends_at c at (record { by = by; what = what_shown what.entry } ∷ []) }
{
    match what {
        WhatRef::End { child, why } => child == c && is_place(at, why),
        _ => false,
    }
}

// The same of the first of the entries.
pub(crate) fn ends_at(rest: &Entries<'_>, c: u32, at: u64) -> bool
    ensures { result ≡ ends_at c at rest.now }
{
    match rest.get(0) {
        Some(first) => is_end_at(first.what, c, at),
        None => false,
    }
}

/// The text of a line that the child said in the job, between those entries.
fn said_line<'a>(
    past: &Entries<'_>,
    rest: &Entries<'_>,
    child: u32,
    job: u64,
    line: &'a [u8],
) -> Option<&'a [u8]>
    ensures { option_copied result ≡ remote_text (item_of child job past.now (Got child line.entry.now) rest.now) }
{
    let (to, text) = lines::addressed(past, child, line);
    if to == Some(job)
        && children::is_open(past, child, job)
        && !ends_at(rest, child, past.len() as u64)
    {
        Some(text)
    } else {
        None
    }
}

/// The text of the entry's line, where the remote said it in the job.
fn said_in<'a>(
    past: &Entries<'_>,
    rest: &Entries<'_>,
    c: u32,
    job: u64,
    what: WhatRef<'a>,
) -> Option<&'a [u8]>
    ensures { option_copied result ≡ remote_text (item_of c job past.now (what_shown what.entry) rest.now) }
{
    match what {
        WhatRef::Got { child, line } if child == c => said_line(past, rest, c, job, line),
        _ => None,
    }
}

/// The text of the line at that place, its tag taken off, where the child said it in the job.
pub fn said_at<'a>(entries: &Entries<'a>, child: u32, job: u64, at: usize) -> Option<&'a [u8]>
    ensures { option_copied result ≡ remote_text (item_at entries.now child job at) }
{
    match entries.get(at) {
        Some(e) => said_in(
            &entries.front(at),
            &entries.behind(at).behind(1),
            child,
            job,
            e.what,
        ),
        None => None,
    }
}
