// Which tasks are claimed, by their numbers.
ghost use Rattle.std.specs.Prelude.{◌≡◌, [], true, List, IfOk, IfSome};
ghost use Rattle.std.specs.List.{slice_set};
ghost use Rattle.journal_model.specs.declared.entry.Entry.{Entry};
ghost use Rattle.journal_model.specs.Legality.{is_claimed};
ghost use Rattle.journal_scan.specs.Shown.{what_shown};
ghost use Rattle.journal_look.specs.Holds.{AreUnclaimed};
ghost use Rattle.journal_look.specs.Taken.{AreTaken, taken_after};

use journal_scan::{Entries, WhatRef, claims};
use std::alloc::{AllocError, Global};

/// How long the table is: a place for each number that a task may have, and for 0.
const NUMBERS: usize = 65_537;

fn mark(taken: &mut Vec<bool>, task: u32, claimed: bool)
    ensures { taken.new.items ≡ slice_set taken.old.items task claimed }
{
    let at = task as usize;
    if at < taken.len() {
        taken[at] = claimed;
    }
}

/// Notes an entry that comes next. It takes no memory.
pub(super) fn note(taken: &mut Vec<bool>, what: WhatRef<'_>)
    ensures { taken.new.items ≡ taken_after (what_shown what.entry) taken.old.items }
{
    match what {
        WhatRef::Claim { task, .. } => mark(taken, task, true),
        WhatRef::Again { task, .. } => mark(taken, task, false),
        _ => {}
    }
}

/// A table of tasks none of which is claimed.
fn unmarked(alloc: Global) -> Result<Vec<bool>, AllocError>
    ensures { IfOk result (λ taken. AreTaken [] taken.items) }
{
    let mut taken = Vec::new(alloc);
    taken.resize(NUMBERS, false)?;
    Ok(taken)
}

/// The table after these entries.
fn table_of(alloc: Global, entries: &Entries<'_>) -> Result<Vec<bool>, AllocError>
    ensures { IfOk result (λ taken. AreTaken entries.now taken.items) }
{
    let mut taken = unmarked(alloc)?;
    for e in entries.iter() {
        note(&mut taken, e.what);
    }
    Ok(taken)
}

/// Makes the table of these entries, where there is none.
pub(super) fn take_room(taken: &mut Vec<bool>, entries: &Entries<'_>) -> Result<(), AllocError>
    ensures { AreTaken entries.now taken.old.items → AreTaken entries.now taken.new.items }
{
    if !taken.is_empty() {
        return Ok(());
    }
    let alloc = *taken.allocator();
    *taken = table_of(alloc, entries)?;
    Ok(())
}

/// Whether the task is claimed, where the table says it.
fn look(taken: &[bool], task: u32) -> Option<bool>
    ensures { (past : List Entry) → AreTaken past taken.now → IfSome result (λ b. b ≡ is_claimed past task) }
{
    match taken.get(task as usize) {
        Some(claimed) => Some(*claimed),
        None => None,
    }
}

/// Whether the task is claimed. From the top on none is. Only where no table was made does it go through the entries.
pub(super) fn is_taken(entries: &Entries<'_>, taken: &[bool], top: u64, task: u32) -> bool
    requires taken { AreTaken entries.now taken.now }
    requires top { AreUnclaimed entries.now top }
    ensures { result ≡ is_claimed entries.now task }
{
    match look(taken, task) {
        Some(claimed) => claimed,
        None => {
            if top <= u64::from(task) {
                return false;
            }
            claims::is_claimed(entries, task)
        }
    }
}
