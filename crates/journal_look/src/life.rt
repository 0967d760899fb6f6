// What a journal keeps of each child, entry by entry.
ghost use Rattle.std.specs.Prelude.{◌≡◌, ◌+◌, ◌-◌, ◌<◌, ◌^◌, ◌++◌, ◌∷◌, ◌||◌, [], List, Some, IfSome, IsTrue, is_some, length};
ghost use Rattle.journal_model.specs.Journal.{any};
ghost use Rattle.journal_model.specs.Legality.{count, is_start};
ghost use Rattle.journal_scan.specs.Looks.{is_no_start};
ghost use Rattle.journal_model.specs.declared.entry.Entry.{Entry};
ghost use Rattle.journal_scan.specs.Shown.{what_shown, entry_shown};
ghost use Rattle.journal_look.specs.Lives.{AreKnown, AreLived, AreLives, about, counted, kept, life_of, lived, unlived};

use journal_model::{Verdict, Why};
use journal_scan::{Entries, EntryRef, WhatRef, children, lines};
use std::alloc::{AllocError, Global};

/// What the entries so far say of a child: the verdicts are those of its jobs 0 and 1, the numbers how many jobs it was asked, how
/// many lines were written to it, and how many of them whole.
#[derive(Clone, Copy)]
pub(super) struct Life {
    pub started: bool,
    pub offered: bool,
    pub spoken: bool,
    pub mute: bool,
    pub ended: bool,
    pub why: Option<Why>,
    pub first: Option<Verdict>,
    pub second: Option<Verdict>,
    pub prepares: bool,
    pub asked: u64,
    pub written: u64,
    pub sent: u64,
}

/// The lives of the children 1, 2, 3 and so on; how many children were started, and whether one couldn't be. Where they are not
/// known, nothing of it counts.
#[derive(Drop)]
pub(super) struct Lives {
    pub known: bool,
    pub each: Vec<Life>,
    pub starts: u64,
    pub no_start: bool,
}

/// The life of a child of which nothing is said.
fn unlived() -> Life
    ensures { result ≡ unlived }
{
    Life {
        started: false,
        offered: false,
        spoken: false,
        mute: false,
        ended: false,
        why: None,
        first: None,
        second: None,
        prepares: false,
        asked: 0,
        written: 0,
        sent: 0,
    }
}

fn either(new: bool, before: bool) -> bool
    ensures { result ≡ (new || before) }
{
    new || before
}

fn counted(more: bool, count: u64) -> u64
    requires { count < 2 ^ 64 - 1 }
    ensures { result ≡ counted more count }
{
    if more { count + 1 } else { count }
}

fn kept_why(new: Option<Why>, why: Option<Why>) -> Option<Why>
    ensures { result ≡ kept new why }
{
    match new {
        Some(_) => match why {
            Some(_) => why,
            None => new,
        },
        None => why,
    }
}

fn kept_verdict(new: Option<Verdict>, verdict: Option<Verdict>) -> Option<Verdict>
    ensures { result ≡ kept new verdict }
{
    match new {
        Some(_) => match verdict {
            Some(_) => verdict,
            None => new,
        },
        None => verdict,
    }
}

/// The child's life after one more entry.
fn lived(child: u32, what: WhatRef<'_>, life: Life) -> Life
    requires asked { life.asked < 2 ^ 64 - 1 }
    requires written { life.written < 2 ^ 64 - 1 }
    requires sent { life.sent < 2 ^ 64 - 1 }
    ensures { result ≡ lived child (what_shown what.entry) life }
{
    Life {
        started: either(children::starts(what, child), life.started),
        offered: either(children::offers(what, child), life.offered),
        spoken: either(children::is_from(what, child), life.spoken),
        mute: either(children::mutes(what, child), life.mute),
        ended: either(children::ends(what, child), life.ended),
        why: kept_why(children::end_why(what, child), life.why),
        first: kept_verdict(children::verdict_in(what, child, 0), life.first),
        second: kept_verdict(children::verdict_in(what, child, 1), life.second),
        prepares: either(lines::prepares(what, child), life.prepares),
        asked: counted(children::asks(what, child).is_some(), life.asked),
        written: counted(lines::is_written(what, child), life.written),
        sent: counted(lines::sends(what, child), life.sent),
    }
}

/// The child of which the entry says something.
fn about(what: WhatRef<'_>) -> Option<u32>
    ensures { result ≡ about (what_shown what.entry) }
{
    match what {
        WhatRef::Start { child, .. }
        | WhatRef::Lead { child, .. }
        | WhatRef::Ask { child, .. }
        | WhatRef::Put { child, .. }
        | WhatRef::Sent { child }
        | WhatRef::Mute { child }
        | WhatRef::Got { child, .. }
        | WhatRef::End { child, .. }
        | WhatRef::Verdict { child, .. } => Some(child),
        _ => None,
    }
}

/// Whether one more can be counted.
fn has_counts(life: Life) -> bool
    ensures asked { IsTrue result → life.asked < 2 ^ 64 - 1 }
    ensures written { IsTrue result → life.written < 2 ^ 64 - 1 }
    ensures sent { IsTrue result → life.sent < 2 ^ 64 - 1 }
{
    life.asked < u64::MAX && life.written < u64::MAX && life.sent < u64::MAX
}

/// Puts the life after the last, where there is room.
fn put(lives: &mut Vec<Life>, life: Life) -> bool
    ensures { IsTrue result → lives.new.items ≡ lives.old.items ++ life ∷ [] }
{
    if lives.len() == lives.capacity() {
        return false;
    }
    lives.push(life).is_ok()
}

/// Notes the entry, which is about that child. False where the table can't be right after it.
fn note_child(lives: &mut Vec<Life>, child: u32, what: WhatRef<'_>) -> bool
    requires { about (what_shown what) ≡ Some child }
    ensures { IsTrue result → (past : List Entry) → (e : Entry) → e.what ≡ what_shown what.entry → AreLives past lives.old.items → AreLives (past ++ e ∷ []) lives.new.items }
{
    if child == 0 {
        return false;
    }
    let at = child as usize - 1;
    if at < lives.len() {
        let life = lives[at];
        if !has_counts(life) {
            return false;
        }
        lives[at] = lived(child, what, life);
        return true;
    }
    at == lives.len() && put(lives, lived(child, what, unlived()))
}

/// The same of any entry.
fn note_each(lives: &mut Vec<Life>, what: WhatRef<'_>) -> bool
    ensures { IsTrue result → (past : List Entry) → (e : Entry) → e.what ≡ what_shown what.entry → AreLives past lives.old.items → AreLives (past ++ e ∷ []) lives.new.items }
{
    match about(what) {
        Some(child) => note_child(lives, child, what),
        None => true,
    }
}

/// Notes the entry. False where the lives can't be right after it.
fn note_known(lives: &mut Lives, what: WhatRef<'_>) -> bool
    ensures { IsTrue result → (past : List Entry) → (e : Entry) → e.what ≡ what_shown what.entry → AreLived past lives.old → AreLived (past ++ e ∷ []) lives.new }
{
    if lives.starts == u64::MAX {
        return false;
    }
    lives.starts = counted(children::is_start(what), lives.starts);
    lives.no_start = children::is_no_start(what) || lives.no_start;
    note_each(&mut lives.each, what)
}

/// Notes an entry that comes next. It takes no memory.
pub(super) fn note(lives: &mut Lives, entry: EntryRef<'_>)
    ensures { (past : List Entry) → AreKnown past lives.old → AreKnown (past ++ entry_shown entry.entry ∷ []) lives.new }
{
    if !lives.known {
        return;
    }
    let known = note_known(lives, entry.what);
    lives.known = known;
}

/// No lives, as where there are no entries. It takes no memory.
pub(super) fn none(alloc: Global) -> Lives
    ensures { AreKnown [] result }
{
    Lives {
        known: true,
        each: Vec::new(alloc),
        starts: 0,
        no_start: false,
    }
}

/// Takes room for the children that so many more entries may start, a few at a time.
pub(super) fn take_room(lives: &mut Lives, more: usize) -> Result<(), AllocError>
    ensures { (past : List Entry) → AreKnown past lives.old → AreKnown past lives.new }
{
    lives.each.reserve(more.min(64))
}

fn find(lives: &[Life], child: u32) -> Life
    ensures { (past : List Entry) → AreLives past lives.now → result ≡ life_of past child }
{
    if child == 0 {
        return unlived();
    }
    match lives.get(child as usize - 1) {
        Some(life) => *life,
        None => unlived(),
    }
}

/// The child's life, found by going through the entries, which are so many.
fn lived_through(entries: &Entries<'_>, count: usize, child: u32) -> Life
    requires { count ≡ length entries.now }
    ensures { result ≡ life_of entries.now child }
{
    let mut life = unlived();
    for at in 0..count {
        match entries.get(at) {
            Some(entry) => life = lived(child, entry.what, life),
            None => unreachable!(),
        }
    }
    life
}

/// The child's life, where it is known without the entries.
pub(super) fn known(lives: &Lives, child: u32) -> Option<Life>
    ensures { (past : List Entry) → AreKnown past lives.now → IfSome result (λ life. life ≡ life_of past child) }
{
    if !lives.known {
        return None;
    }
    Some(find(lives.each.as_slice(), child))
}

/// The child's life after these entries.
pub(super) fn look(lives: &Lives, entries: &Entries<'_>, child: u32) -> Life
    requires { AreKnown entries.now lives.now }
    ensures { result ≡ life_of entries.now child }
{
    match known(lives, child) {
        Some(life) => life,
        None => lived_through(entries, entries.len(), child),
    }
}

/// How many children were started, where it is known.
pub(super) fn starts(lives: &Lives) -> Option<u64>
    ensures { (past : List Entry) → AreKnown past lives.now → IfSome result (λ n. n ≡ count is_start past) }
{
    if !lives.known {
        return None;
    }
    Some(lives.starts)
}

/// Whether a child couldn't be started, where it is known.
pub(super) fn no_start(lives: &Lives) -> Option<bool>
    ensures { (past : List Entry) → AreKnown past lives.now → IfSome result (λ b. b ≡ any is_no_start past) }
{
    if !lives.known {
        return None;
    }
    Some(lives.no_start)
}
