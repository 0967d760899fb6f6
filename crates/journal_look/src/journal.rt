// The journal as a store: it lends its entries, and takes more within room that was taken before.
ghost use Rattle.std.specs.Prelude.{◌≡◌, ◌+◌, ◌-◌, ◌<◌, ◌≤◌, ◌^◌, ◌++◌, ◌∷◌, [], slice_get, option_map, length, OnOk, OnErr, IsOk, IfSome};
ghost use Rattle.journal_scan.specs.Shown.{entry_shown};

use crate::cursors::{self, Cursor};
use crate::held::{self, Held};
use crate::jobs::{self, Open};
use crate::life::{self, Life};
use crate::tables::{self, Tables};
use crate::taken;
use ann_key::NoMemory;
use journal_model::{Entry, Verdict};
use journal_scan::lines::line_bytes;
use journal_scan::{Entries, EntryRef, Records, WhatRef};
use std::alloc::Global;
use std::marker::Model;

/// A journal: contracts see its entries, for how many in all it has room, and for how many more bytes of lines. It keeps tables beside
/// them.
#[derive(Drop)]
pub struct Journal {
    records: Records,
    tables: Tables,
}

impl Model for Journal {
    ghost use Rattle.std.specs.Prelude.{◌<◌, ◌≤◌, ◌^◌, length};
    ghost use Rattle.journal_look.specs.JournalValue.{JournalValue};
    ghost use Rattle.journal_look.specs.Tables.{AreTabled};

    ghost Value = { JournalValue };

    ghost view = { λ j. record { entries = j.records.entries; room = j.records.room; spare = j.records.spare } };

    ghost invariant = { λ j. (length j.records.entries ≤ j.records.room) × (j.records.room < 2 ^ 64) × AreTabled j.records.entries j.tables };
}

impl Journal {
    ghost use Rattle.journal_model.specs.Limits.{most_line_bytes};
    ghost use Rattle.journal_model.specs.Journal.{any, bytes_in, line_bytes, verdict_of};
    ghost use Rattle.journal_model.specs.Legality.{count, is_claimed, is_start};
    ghost use Rattle.journal_scan.specs.Looks.{is_no_start};
    ghost use Rattle.journal_look.specs.Holds.{AreHeld};
    ghost use Rattle.journal_look.specs.Lives.{life_of};
    ghost use Rattle.journal_look.specs.Marks.{AreClaimed};
    ghost use Rattle.journal_look.specs.Opens.{AreOpen};
    ghost use Rattle.journal_look.specs.Cursors.{IsAt};

    /// A journal without entries, and without room. It takes no memory.
    pub fn new(alloc: Global) -> Journal
        ensures { result ≡ record { entries = []; room = 0; spare = 0 } }
    {
        Journal {
            records: Records::new(alloc),
            tables: tables::none(alloc),
        }
    }

    /// How many entries there are.
    pub fn len(&self) -> u64
        ensures { result ≡ length self.now.entries }
    {
        self.records.all().len() as u64
    }

    /// The entry at a place, counted from 0; None exactly past the end.
    pub fn entry(&self, at: u64) -> Option<EntryRef<'_>>
        ensures { option_map entry_shown result ≡ slice_get self.now.entries at }
    {
        self.records.all().get(at as usize)
    }

    /// Takes room for so many more entries, and so that their lines may have so many bytes.
    pub fn take_room(&mut self, more: usize, bytes: usize) -> Result<(), NoMemory>
        ensures entries { self.new.entries ≡ self.old.entries }
        ensures room { OnOk result (self.new.room ≡ self.old.room + more) }
        ensures small { self.new.room < 2 ^ 64 }
        ensures err { OnErr result (self.new.room ≡ self.old.room) }
        ensures spare { OnOk result (bytes ≤ self.new.spare) }
        ensures wide { self.old.spare ≤ self.new.spare }
        ensures free { more ≡ 0 → bytes ≡ 0 → IsOk result }
    {
        if more > 0 {
            tables::take_room(&mut self.tables, &self.records.all(), more)?;
        }
        self.records.take_room(more, bytes)
    }

    /// Appends the entry, for which there is room. It takes no memory.
    pub fn push(&mut self, entry: Entry)
        requires room { length self.old.entries < self.old.room }
        requires spare { line_bytes entry.what ≤ self.old.spare }
        ensures entries { self.new.entries ≡ self.old.entries ++ entry ∷ [] }
        ensures room { self.new.room ≡ self.old.room }
        ensures spare { self.new.spare ≡ self.old.spare - line_bytes entry.what }
    {
        let at = self.records.all().len();
        let shown = EntryRef::of(&entry);
        let turn = cursors::turn_of(shown.what);
        let claims = matches!(shown.what, WhatRef::Claim { .. });
        tables::note(&mut self.tables, at, shown);
        self.records.push(entry);
        tables::raise(&mut self.tables, &self.records.all(), turn, claims);
    }

    /// Takes room for the entry, and appends it.
    pub fn append(&mut self, entry: Entry) -> Result<(), NoMemory>
        ensures ok { OnOk result (self.new.entries ≡ self.old.entries ++ entry ∷ []) }
        ensures err { OnErr result (self.new.entries ≡ self.old.entries) }
    {
        let _ = &self.records;
        let bytes = line_bytes(EntryRef::of(&entry).what);
        self.take_room(1, bytes)?;
        self.push(entry);
        Ok(())
    }

    // All entries, in order.
    pub(crate) fn entries(&self) -> Entries<'_>
        ensures { result ≡ self.now.entries }
    {
        self.records.all()
    }

    // How many more bytes the lines may have.
    pub(crate) fn left(&self) -> usize
        ensures { result ≡ most_line_bytes - bytes_in self.now.entries }
    {
        self.tables.left
    }

    // The child's life.
    pub(crate) fn life(&self, child: u32) -> Life
        ensures { result ≡ life_of self.now.entries child }
    {
        life::look(&self.tables.lives, &self.records.all(), child)
    }

    // How many children were started, where it is known without the entries.
    pub(crate) fn starts(&self) -> Option<u64>
        ensures { IfSome result (λ n. n ≡ count is_start self.now.entries) }
    {
        life::starts(&self.tables.lives)
    }

    // Whether a child couldn't be started, where it is known without the entries.
    pub(crate) fn no_start(&self) -> Option<bool>
        ensures { IfSome result (λ b. b ≡ any is_no_start self.now.entries) }
    {
        life::no_start(&self.tables.lives)
    }

    // The tasks that are held, where they are known without the entries.
    pub(crate) fn held(&self) -> Option<&[Held]>
        ensures { IfSome result (λ held. AreHeld self.now.entries held.now) }
    {
        held::look(&self.tables.holds)
    }

    // Whether the task is claimed.
    pub(crate) fn is_taken(&self, task: u32) -> bool
        ensures { result ≡ is_claimed self.now.entries task }
    {
        let taken = self.tables.taken.as_slice();
        taken::is_taken(&self.records.all(), taken, self.tables.top, task)
    }

    // The open jobs, where they are known without the entries.
    pub(crate) fn jobs(&self) -> Option<&[Open]>
        ensures { IfSome result (λ list. AreOpen self.now.entries list.now) }
    {
        jobs::look(&self.tables.jobs)
    }

    // How the job was settled, where that is known without the entries.
    pub(crate) fn told(&self, child: u32, job: u64) -> Option<Verdict>
        ensures { IfSome result (λ v. verdict_of self.now.entries child job ≡ Some v) }
    {
        jobs::told_of(&self.tables.jobs, child, job)
    }

    // How far the lines for the child are counted, where that is known.
    pub(crate) fn cursor(&self, child: u32) -> Option<Cursor>
        ensures child { IfSome result (λ x. x.child ≡ child) }
        ensures at { IfSome result (λ x. IsAt self.now.entries x) }
    {
        cursors::cursor_of(self.tables.cursors.as_slice(), child)
    }

    // A task below which each is claimed.
    pub(crate) fn claimed(&self) -> u32
        ensures some { 0 < result }
        ensures claimed { AreClaimed self.now.entries result }
    {
        self.tables.claimed
    }
}
