// Who holds which task, entry by entry.
ghost use Rattle.std.specs.Prelude.{◌≡◌, ◌==◌, ◌++◌, ◌∷◌, [], List, find, option_copied, IfSome, IsTrue};
ghost use Rattle.journal_model.specs.declared.entry.Entry.{Entry};
ghost use Rattle.journal_scan.specs.Shown.{what_shown, entry_shown};
ghost use Rattle.journal_look.specs.Holds.{AreHeld, AreHoldsKnown, held_by, held_of, let_go, top_after};

use journal_model::Holder;
use journal_scan::{EntryRef, WhatRef};
use std::alloc::{AllocError, Global};

/// A task that is held, and by whom.
#[derive(Clone, Copy)]
pub(super) struct Held {
    pub task: u32,
    pub by: Holder,
}

/// Each task that is held. Where they are not known, nothing of it counts.
#[derive(Drop)]
pub(super) struct Holds {
    pub known: bool,
    pub each: Vec<Held>,
}

fn find(held: &[Held], task: u32) -> Option<&Held>
    ensures { option_copied result ≡ find (λ h. h.task == task) held.now }
{
    held.iter().find(|h| h.task == task)
}

/// Who holds the task.
pub(super) fn holder(held: &[Held], task: u32) -> Option<Holder>
    ensures { result ≡ held_of held.now task }
{
    match find(held, task) {
        Some(held) => Some(held.by),
        None => None,
    }
}

fn let_go(held: &mut Vec<Held>, task: u32)
    ensures { held.new.items ≡ let_go task held.old.items }
{
    held.retain(|h| h.task != task);
}

/// Puts one more after the last, where there is room.
fn put(held: &mut Vec<Held>, one: Held) -> bool
    ensures { IsTrue result → held.new.items ≡ held.old.items ++ one ∷ [] }
{
    if held.len() == held.capacity() {
        return false;
    }
    held.push(one).is_ok()
}

/// Notes the entry. False where the table can't be right after it.
fn note_known(held: &mut Vec<Held>, entry: EntryRef<'_>) -> bool
    ensures { IsTrue result → held.new.items ≡ held_by entry.entry.by (what_shown entry.entry.what) held.old.items }
{
    match entry.what {
        WhatRef::Claim { task, child } => {
            let_go(held, task);
            let by = Holder {
                by: entry.by,
                child,
            };
            put(held, Held { task, by })
        }
        WhatRef::Answer { task, .. } | WhatRef::Again { task, .. } => {
            let_go(held, task);
            true
        }
        _ => true,
    }
}

/// Notes an entry that comes next. It takes no memory.
pub(super) fn note(holds: &mut Holds, entry: EntryRef<'_>)
    ensures { (past : List Entry) → AreHoldsKnown past holds.old → AreHoldsKnown (past ++ entry_shown entry.entry ∷ []) holds.new }
{
    if !holds.known {
        return;
    }
    let known = note_known(&mut holds.each, entry);
    holds.known = known;
}

/// No tasks are held, as where there are no entries. It takes no memory.
pub(super) fn none(alloc: Global) -> Holds
    ensures { AreHoldsKnown [] result }
{
    Holds {
        known: true,
        each: Vec::new(alloc),
    }
}

/// Takes room for the tasks that so many more entries may claim, or for as many as workers may hold.
pub(super) fn take_room(holds: &mut Holds, more: usize) -> Result<(), AllocError>
    ensures { (past : List Entry) → AreHoldsKnown past holds.old → AreHoldsKnown past holds.new }
{
    holds.each.reserve(more.min(128))
}

/// The tasks that are held, where they are known.
pub(super) fn look(holds: &Holds) -> Option<&[Held]>
    ensures { (past : List Entry) → AreHoldsKnown past holds.now → IfSome result (λ held. AreHeld past held.now) }
{
    if !holds.known {
        return None;
    }
    Some(holds.each.as_slice())
}

/// A number from which on no task is claimed, after one more entry.
pub(super) fn top_after(top: u64, what: WhatRef<'_>) -> u64
    ensures { result ≡ top_after (what_shown what.entry) top }
{
    match what {
        WhatRef::Claim { task, .. } => {
            let task = u64::from(task);
            if top <= task { task + 1 } else { top }
        }
        _ => top,
    }
}
