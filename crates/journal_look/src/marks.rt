// How far the marks of a journal go.
ghost use Rattle.std.specs.Prelude.{◌≡◌, ◌+◌, ◌≤◌, ◌<◌, ◌++◌, ◌∷◌, [], List, length, IsTrue};
ghost use Rattle.journal_model.specs.declared.entry.Entry.{Entry};
ghost use Rattle.journal_scan.specs.Shown.{what_shown, entry_shown};
ghost use Rattle.journal_look.specs.Holds.{AreUnclaimed};
ghost use Rattle.journal_look.specs.Marks.{AreClaimed, lowered};
ghost use Rattle.journal_look.specs.Taken.{AreTaken};

use crate::taken::is_taken;
use journal_scan::{Entries, EntryRef, WhatRef, claims};

/// The mark after an entry that frees a task below it.
fn lowered(mark: u32, what: WhatRef<'_>) -> u32
    ensures mark { result ≡ lowered (what_shown what.entry) mark }
    ensures some { 0 < mark → 0 < result }
{
    match what {
        WhatRef::Again { task, .. } if 0 < task && task < mark => task,
        _ => mark,
    }
}

/// The mark below which each task is claimed, after one more entry.
#[tactic(auto, using(crate::proofs::Marking::claimed_next, crate::proofs::Marking::claimed_lowered))]
pub(super) fn claimed_after(mark: u32, entry: EntryRef<'_>) -> u32
    ensures some { 0 < mark → 0 < result }
    ensures claimed { (past : List Entry) → AreClaimed past mark → AreClaimed (past ++ entry_shown entry.entry ∷ []) result }
{
    if claims::claims(entry.what, mark) && mark < u32::MAX {
        mark + 1
    } else {
        lowered(mark, entry.what)
    }
}

/// A task below which each is claimed, from that one on. From top on none is.
#[tactic(auto, using(crate::proofs::Marking::one_more_claimed))]
pub(super) fn claimed_from(entries: &Entries<'_>, taken: &[bool], from: u32, top: u64) -> u32
    requires some { 0 < from }
    requires taken { AreTaken entries.now taken.now }
    requires top { AreUnclaimed entries.now top }
    requires claimed { AreClaimed entries.now from }
    ensures some { 0 < result }
    ensures claimed { AreClaimed entries.now result }
{
    let mut task = from;
    while task < u32::MAX && is_taken(entries, taken, top, task) {
        task += 1;
    }
    task
}
