// What a journal keeps beside its entries, so that a question needn't go through them.
ghost use Rattle.std.specs.Prelude.{◌≡◌, ◌++◌, ◌∷◌, [], List, length};
ghost use Rattle.journal_model.specs.declared.entry.Entry.{Entry};
ghost use Rattle.journal_scan.specs.Shown.{entry_shown};
ghost use Rattle.journal_look.specs.Tables.{AreTabled};

use crate::cursors::{self, Cursor, Turn};
use crate::held::{self, Holds};
use crate::jobs::{self, Jobs};
use crate::life::{self, Lives};
use crate::marks::{claimed_after, claimed_from};
use crate::taken;
use ann_key::NoMemory;
use journal_scan::lines::{MOST_LINE_BYTES, left_after};
use journal_scan::{Entries, EntryRef};
use std::alloc::Global;

/// How many more bytes the lines may have, what is known of the children, of the held tasks and of the jobs, how far the lines to each
/// child are counted, which tasks are claimed, a number from which on none is and one below which each is.
#[derive(Drop)]
pub(super) struct Tables {
    pub left: usize,
    pub lives: Lives,
    pub holds: Holds,
    pub jobs: Jobs,
    pub cursors: Vec<Cursor>,
    pub taken: Vec<bool>,
    pub top: u64,
    pub claimed: u32,
}

/// The tables of no entries. It takes no memory.
#[tactic(auto, using(crate::proofs::Marking::none_claimed, crate::proofs::Taking::none_noted))]
pub(super) fn none(alloc: Global) -> Tables
    ensures { AreTabled [] result }
{
    Tables {
        left: MOST_LINE_BYTES,
        lives: life::none(alloc),
        holds: held::none(alloc),
        jobs: jobs::none(alloc),
        cursors: Vec::new(alloc),
        taken: Vec::new(alloc),
        top: 0,
        claimed: 1,
    }
}

/// Notes an entry that comes next, at that place. It takes no memory.
pub(super) fn note(tables: &mut Tables, at: usize, entry: EntryRef<'_>)
    ensures { (past : List Entry) → length past ≡ at → AreTabled past tables.old → AreTabled (past ++ entry_shown entry.entry ∷ []) tables.new }
{
    tables.left = left_after(tables.left, entry.what);
    jobs::note(&mut tables.jobs, &tables.lives, at, entry);
    life::note(&mut tables.lives, entry);
    held::note(&mut tables.holds, entry);
    taken::note(&mut tables.taken, entry.what);
    tables.top = held::top_after(tables.top, entry.what);
    tables.claimed = claimed_after(tables.claimed, entry);
}

/// Takes room for so many more entries after these.
pub(super) fn take_room(
    tables: &mut Tables,
    entries: &Entries<'_>,
    more: usize,
) -> Result<(), NoMemory>
    ensures { AreTabled entries.now tables.old → AreTabled entries.now tables.new }
{
    life::take_room(&mut tables.lives, more)?;
    held::take_room(&mut tables.holds, more)?;
    jobs::take_room(&mut tables.jobs, more)?;
    taken::take_room(&mut tables.taken, entries)?;
    tables.cursors.reserve(more.min(64))?;
    Ok(())
}

/// Raises the mark over the entries and moves the cursors, by the last one.
pub(super) fn raise(tables: &mut Tables, entries: &Entries<'_>, turn: Turn, claims: bool)
    requires { AreTabled entries.now tables.old }
    ensures { AreTabled entries.now tables.new }
{
    cursors::note(&mut tables.cursors, entries, turn);
    if claims {
        tables.claimed = claimed_from(entries, tables.taken.as_slice(), tables.claimed, tables.top);
    }
}
