// How far the lines that were written to each child are counted.
ghost use Rattle.std.specs.Prelude.{◌≡◌, ◌==◌, ◌≤◌, ◌+◌, ◌-◌, not, filter, find, length, option_copied, option_map, slice_get, IfSome, List};
ghost use Rattle.std.specs.List.{prefix_len};
ghost use Rattle.journal_model.specs.declared.entry.Entry.{Entry};
ghost use Rattle.journal_model.specs.Journal.{first_of, sends, unsent};
ghost use Rattle.journal_scan.specs.Shown.{entry_shown};
ghost use Rattle.journal_look.specs.Cursors.{AreAt, IsAt};
ghost use Rattle.journal_scan.specs.Looks.{is_written};

use journal_scan::lines::{is_written, nth_written};
use journal_scan::talks::hosts_line;
use journal_scan::{Entries, EntryRef, WhatRef};

/// So many of the entries before the place write to the child.
#[derive(Clone, Copy)]
pub(super) struct Cursor {
    pub child: u32,
    pub from: usize,
    pub passed: u64,
}

fn find(cursors: &[Cursor], c: u32) -> Option<&Cursor>
    ensures { option_copied result ≡ find (λ x. x.child == c) cursors.now }
{
    cursors.iter().find(|x| x.child == c)
}

/// The child's cursor, if it has one.
pub(super) fn cursor_of(cursors: &[Cursor], child: u32) -> Option<Cursor>
    ensures child { IfSome result (λ x. x.child ≡ child) }
    ensures right { IfSome result (λ x. (past : List Entry) → AreAt past cursors.now → IsAt past x) }
{
    match find(cursors, child) {
        Some(x) => Some(Cursor {
            child: x.child,
            from: x.from,
            passed: x.passed,
        }),
        None => None,
    }
}

/// How many entries stand before the first that writes to the child.
fn before_written(entries: &Entries<'_>, child: u32) -> usize
    ensures value { result ≡ prefix_len (λ e. not (is_written child e.what)) entries.now }
    ensures bound { result ≤ length entries.now }
{
    entries
        .iter()
        .take_while(|e| !is_written(e.what, child))
        .count()
}

/// The cursor after the next entry that writes to its child, where there is one.
fn advanced(entries: &Entries<'_>, x: Cursor) -> Cursor
    requires { IsAt entries.now x }
    ensures at { IsAt entries.now result }
    ensures child { result.child ≡ x.child }
{
    let n = before_written(&entries.behind(x.from), x.child);
    if n < entries.len() - x.from && x.passed < u64::MAX {
        Cursor {
            child: x.child,
            from: x.from + (n + 1),
            passed: x.passed + 1,
        }
    } else {
        x
    }
}

/// The line for the child that comes after so many, from its cursor on.
pub(super) fn nth_from<'a>(
    entries: &Entries<'a>,
    x: Cursor,
    child: u32,
    n: u64,
) -> Option<EntryRef<'a>>
    requires child { x.child ≡ child }
    requires at { IsAt entries.now x }
    requires few { x.passed ≤ n }
    ensures { option_map entry_shown result ≡ slice_get (filter (λ e. is_written child e.what) entries.now) n }
{
    nth_written(&entries.behind(x.from), child, (n - x.passed) as usize)
}

/// The first of the lines for the child that were not written whole, where so many were, from its cursor on.
pub(super) fn unsent_from<'a>(
    entries: &Entries<'a>,
    x: Cursor,
    child: u32,
    sent: u64,
) -> Option<&'a [u8]>
    requires child { x.child ≡ child }
    requires at { IsAt entries.now x }
    requires few { x.passed ≤ sent }
    requires sent { sent ≡ length (filter (λ e. sends child e.what) entries.now) }
    ensures { option_copied result ≡ option_map (λ w. w.1) (first_of (unsent entries.now child)) }
{
    match nth_from(entries, x, child, sent) {
        Some(e) => Some(hosts_line(e.what)),
        None => None,
    }
}

/// Puts a cursor at the first entry, where there is room for it.
fn begin(cursors: &mut Vec<Cursor>, child: u32)
    ensures { (past : List Entry) → AreAt past cursors.old.items → AreAt past cursors.new.items }
{
    if cursors.len() < cursors.capacity() {
        match cursors.push(Cursor {
            child,
            from: 0,
            passed: 0,
        }) {
            Ok(()) => {}
            Err(_) => unreachable!(),
        }
    }
}

fn place_of(cursors: &[Cursor], c: u32) -> usize
    ensures { result ≤ length cursors.now }
{
    cursors.iter().take_while(|x| x.child != c).count()
}

/// Moves the child's cursor past its next line, where it has one.
fn advance(cursors: &mut Vec<Cursor>, entries: &Entries<'_>, child: u32)
    requires { AreAt entries.now cursors.old.items }
    ensures { AreAt entries.now cursors.new.items }
{
    let at = place_of(cursors.as_slice(), child);
    if at < cursors.len() {
        cursors[at] = advanced(entries, cursors[at]);
    }
}

/// What an entry is to the cursors.
#[derive(Clone, Copy)]
pub(super) enum Turn {
    Starts(u32),
    Sends(u32),
    Other,
}

/// What the entry is to the cursors.
pub(super) fn turn_of(what: WhatRef<'_>) -> Turn {
    match what {
        WhatRef::Start { child, .. } => Turn::Starts(child),
        WhatRef::Sent { child } => Turn::Sends(child),
        _ => Turn::Other,
    }
}

/// Notes the last of the entries: a child that starts gets a cursor, and that of one whose line was written whole goes on. It takes
/// no memory.
pub(super) fn note(cursors: &mut Vec<Cursor>, entries: &Entries<'_>, turn: Turn)
    requires { AreAt entries.now cursors.old.items }
    ensures { AreAt entries.now cursors.new.items }
{
    match turn {
        Turn::Starts(child) => begin(cursors, child),
        Turn::Sends(child) => advance(cursors, entries, child),
        Turn::Other => {}
    }
}
