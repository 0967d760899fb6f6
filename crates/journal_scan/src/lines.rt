// What the lines of the journal say: the greeting, tags, and what is still to be written.
ghost use Rattle.std.specs.Prelude.{◌≡◌, ◌≤◌, ◌-◌, ◌==◌, not, nat_lt, slice_get, filter, length, find, option_copied, option_map, bytes_eq, codes, drop};
ghost use Rattle.std.specs.List.{list_any, slice_split};
ghost use Rattle.annex_model.specs.Messages.{remote_reading, is_space};
ghost use Rattle.annex_model.specs.Tags.{names_async, untag, without_tag};
ghost use Rattle.journal_model.specs.Limits.{most_line_bytes};
ghost use Rattle.journal_model.specs.Journal.{any, each_of, first_of, line_at, is_tagged, accepts_async, addressed, by_tag, sends, unsent, is_unsent, is_job, got_from, line_bytes, bytes_in, is_full};
ghost use Rattle.journal_model.specs.Due.{is_version_one};
ghost use Rattle.journal_model.specs.Legality.{said_version, asks_prepare, prepares, is_done};
ghost use Rattle.journal_scan.specs.Shown.{what_shown, entry_shown};
ghost use Rattle.journal_scan.specs.Looks.{written_to, got_line, is_written, hosts_line};

use crate::talks::hosts_line;
use crate::{Entries, EntryRef, WhatRef, children};
use journal_model::Verdict;
use wire_msg::{HostMsg, RemoteMsg, read_host, read_remote, untag};

// A journal that has so many entries is full.
const MOST_ENTRIES: usize = 8_000_000;

/// A journal with so many bytes in lines is full.
pub const MOST_LINE_BYTES: usize = 1_073_741_824;

/// How many bytes the entry's line has, where it has one.
pub fn line_bytes(what: WhatRef<'_>) -> usize
    ensures { result ≡ line_bytes (what_shown what.entry) }
{
    match what {
        WhatRef::Lead { line, .. } => line.len(),
        WhatRef::Ask { line, .. } => line.len(),
        WhatRef::Put { line, .. } => line.len(),
        WhatRef::Got { line, .. } => line.len(),
        _ => 0,
    }
}

/// How many more bytes the lines may have after the entry, where so many were left.
pub fn left_after(left: usize, what: WhatRef<'_>) -> usize
    ensures { result ≡ left - line_bytes (what_shown what.entry) }
{
    left.saturating_sub(line_bytes(what))
}

/// Whether the journal takes no further line of a child, where its lines may have so many more bytes.
#[tactic(auto, using(crate::proofs::Weighing::full_by_left))]
pub fn is_full(entries: &Entries<'_>, left: usize) -> bool
    requires { left ≡ most_line_bytes - bytes_in entries.now }
    ensures { result ≡ is_full entries.now }
{
    MOST_ENTRIES <= entries.len() || left == 0
}

/// Whether the line spells VERSION with number 1.
pub fn is_version_one(line: &[u8]) -> bool
    ensures { result ≡ is_version_one (remote_reading line.now) }
{
    match read_remote(line) {
        Some(RemoteMsg::Version(number)) => number == 1,
        _ => false,
    }
}

fn is_async(word: &[u8]) -> bool
    ensures { result ≡ bytes_eq word.now (codes "ASYNC") }
{
    word == b"ASYNC".as_slice()
}

fn has_async(names: &[u8]) -> bool
    ensures { result ≡ list_any (λ word. bytes_eq word (codes "ASYNC")) (slice_split is_space names.now) }
{
    names.split(|b| *b == 32).any(|word| is_async(word))
}

/// Whether the line is an answer to EXTENSIONS that names ASYNC.
fn names_async(line: &[u8]) -> bool
    ensures { result ≡ names_async (remote_reading line.now) }
{
    match read_remote(line) {
        Some(RemoteMsg::Extensions(names)) => has_async(names),
        _ => false,
    }
}

fn got_line<'a>(what: WhatRef<'a>) -> &'a [u8]
    ensures { result.now ≡ got_line (what_shown what.entry) }
{
    match what {
        WhatRef::Got { line, .. } => line,
        _ => &[],
    }
}

/// The line got at a place, if one was.
pub fn line_at<'a>(entries: &Entries<'a>, at: u64) -> &'a [u8]
    ensures { result.now ≡ line_at entries.now at }
{
    match entries.get(at as usize) {
        Some(e) => got_line(e.what),
        None => &[],
    }
}

/// Whether the verdict is that of a line that names ASYNC.
pub fn accepts_async(entries: &Entries<'_>, verdict: Option<Verdict>) -> bool
    ensures { result ≡ accepts_async entries.now verdict }
{
    match verdict {
        Some(Verdict::Done { at }) => names_async(line_at(entries, at)),
        _ => false,
    }
}

/// Whether the lines of the child have tags.
pub fn is_tagged(entries: &Entries<'_>, child: u32) -> bool
    ensures { result ≡ is_tagged entries.now child }
{
    children::is_offered(entries, child)
        && accepts_async(entries, children::verdict_of(entries, child, 0))
}

/// The job that the tag names, and the text after it; all of a line without one.
pub fn by_tag(line: &[u8]) -> (Option<u64>, &[u8])
    ensures { (result.0, result.1.now) ≡ by_tag line.now (untag line.now) }
{
    match untag(line) {
        Some((job, text)) => (Some(job), text),
        None => (None, line),
    }
}

/// The job that the line is for, and its text without the tag.
pub fn addressed<'a>(entries: &Entries<'_>, child: u32, line: &'a [u8]) -> (Option<u64>, &'a [u8])
    ensures { (result.0, result.1.now) ≡ addressed entries.now child line.entry.now }
{
    if is_tagged(entries, child) {
        by_tag(line)
    } else {
        (children::first_open(entries, child), line)
    }
}

/// The line's text without the tag.
pub fn text_of<'a>(entries: &Entries<'_>, child: u32, line: &'a [u8]) -> &'a [u8]
    ensures { result.now ≡ (addressed entries.now child line.entry.now).1 }
{
    if is_tagged(entries, child) {
        let (_, text) = by_tag(line);
        text
    } else {
        line
    }
}

fn is_got(what: WhatRef<'_>, c: u32) -> bool
    ensures { result ≡ got_from c (what_shown what.entry) }
{
    match what {
        WhatRef::Got { child, .. } => child == c,
        _ => false,
    }
}

fn first_got<'a>(entries: &Entries<'a>, child: u32) -> Option<EntryRef<'a>>
    ensures { option_map entry_shown result ≡ find (λ e. got_from child e.what) entries.now }
{
    entries.iter().find(|e| is_got(e.what, child))
}

/// Whether the child's first line was VERSION 1.
pub fn said_version(entries: &Entries<'_>, child: u32) -> bool
    ensures { result ≡ said_version entries.now child }
{
    match first_got(entries, child) {
        Some(e) => is_version_one(got_line(e.what)),
        None => false,
    }
}

/// Whether the verdict is a success.
pub fn is_done(verdict: Option<Verdict>) -> bool
    ensures { result ≡ is_done verdict }
{
    matches!(verdict, Some(Verdict::Done { .. }))
}

/// Whether the line asks to get ready, with a tag or without.
fn asks_prepare(line: &[u8]) -> bool
    ensures { result ≡ asks_prepare line.now }
{
    matches!(read_host(without_tag(line)), Some(HostMsg::Prepare))
}

fn without_tag(line: &[u8]) -> &[u8]
    ensures { result.now ≡ without_tag line.now (untag line.now) }
{
    match untag(line) {
        Some((_, text)) => text,
        None => line,
    }
}

/// Whether the entry asks the child, as its job 1, to get ready.
pub fn prepares(what: WhatRef<'_>, c: u32) -> bool
    ensures { result ≡ prepares c (what_shown what.entry) }
{
    match what {
        WhatRef::Ask {
            child,
            job,
            line,
            ..
        } => child == c && job == 1 && asks_prepare(line),
        _ => false,
    }
}

/// Whether the entry says that a line for the child was written whole.
pub fn sends(what: WhatRef<'_>, c: u32) -> bool
    ensures { result ≡ sends c (what_shown what.entry) }
{
    match what {
        WhatRef::Sent { child } => child == c,
        _ => false,
    }
}

/// The job that a line written to the child asks, if it is one and asks one.
fn writes(what: WhatRef<'_>, c: u32) -> Option<Option<u64>>
    ensures { result ≡ written_to c (what_shown what.entry) }
{
    match what {
        WhatRef::Ask { child, job, .. } if child == c => Some(Some(job)),
        WhatRef::Lead { child, .. } | WhatRef::Put { child, .. } if child == c => Some(None),
        _ => None,
    }
}

/// Whether the entry writes a line to the child.
pub fn is_written(what: WhatRef<'_>, c: u32) -> bool
    ensures { result ≡ is_written c (what_shown what.entry) }
{
    writes(what, c).is_some()
}

/// How many lines for the child were written whole.
fn sents(entries: &Entries<'_>, child: u32) -> usize
    ensures { result ≡ length (filter (λ e. sends child e.what) entries.now) }
{
    entries.iter().filter(|e| sends(e.what, child)).count()
}

/// Whether each line was written whole, where so many were written and so many whole.
#[tactic(auto, using(crate::proofs::Written::at_most))]
pub fn are_all_sent(written: u64, sent: u64) -> bool
    ensures { result ≡ not (nat_lt sent written) }
{
    written <= sent
}

/// The nth of the entries that write to the child, from 0.
pub fn nth_written<'a>(entries: &Entries<'a>, child: u32, n: usize) -> Option<EntryRef<'a>>
    ensures { option_map entry_shown result ≡ slice_get (filter (λ e. is_written child e.what) entries.now) n }
{
    entries.iter().filter(|e| is_written(e.what, child)).nth(n)
}

/// The first of the lines for the child that were not written whole.
pub fn first_unsent<'a>(entries: &Entries<'a>, child: u32) -> Option<&'a [u8]>
    ensures { option_copied result ≡ option_map (λ w. w.1) (first_of (unsent entries.now child)) }
{
    match nth_written(entries, child, sents(entries, child)) {
        Some(e) => Some(hosts_line(e.what)),
        None => None,
    }
}

fn is_job(job: u64, of: Option<u64>) -> bool
    ensures { result ≡ is_job job of }
{
    of == Some(job)
}

fn is_behind(entries: &Entries<'_>, child: u32, job: u64, sents: usize) -> bool
    ensures { result ≡ list_any (is_job job) (drop sents (each_of (written_to child) entries.now)) }
{
    entries
        .iter()
        .filter_map(|e| writes(e.what, child))
        .skip(sents)
        .any(|of| is_job(job, of))
}

/// Whether the job's request was not written whole.
pub fn is_unsent(entries: &Entries<'_>, child: u32, job: u64) -> bool
    ensures { result ≡ is_unsent entries.now child job }
{
    is_behind(entries, child, job, sents(entries, child))
}
