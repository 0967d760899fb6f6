ghost use Rattle.std.specs.Prelude.{◌≡◌, ◌+◌, ◌-◌, ◌<◌, ◌≤◌, ◌^◌, ◌++◌, ◌∷◌, [], length, option_map, slice_get, IsOk, OnErr, OnOk};
ghost use Rattle.journal_model.specs.Journal.{line_bytes};
ghost use Rattle.journal_scan.specs.Shown.{entry_shown};

use crate::entries::Entries;
use crate::entry::EntryRef;
use crate::record::{self, Record};
use crate::tables::LineStore;
use ann_digest::Digest;
use ann_key::NoMemory;
use journal_model::Entry;
use std::alloc::Global;
use std::marker::Model;

/// The entries of a journal. Contracts see the list of them, for how many in all there is room, and for how many more bytes of lines.
#[derive(Drop)]
pub struct Records {
    records: Vec<Record>,
    lines: LineStore,
    digests: Vec<Digest>,
    room: usize,
}

impl Model for Records {
    ghost use Rattle.std.specs.Prelude.{◌-◌, map, vec_capacity};
    ghost use Rattle.journal_scan.specs.Tables.Lines.{total};
    ghost use Rattle.journal_scan.specs.RecordsValue.{RecordsValue};
    ghost use Rattle.journal_scan.specs.Kept.{AreRecords, entry_kept};

    ghost Value = { RecordsValue };

    ghost view = { λ r. record { entries = map (entry_kept r.lines.lines r.digests.items) r.records.items; room = r.room; spare = r.lines.space - total r.lines.lines } };

    ghost invariant = { λ r. AreRecords r.records.items r.lines r.digests.items r.room (vec_capacity r.records) (vec_capacity r.digests) };
}

impl Records {
    /// No entries, and no room. It takes no memory.
    pub fn new(alloc: Global) -> Records
        ensures { result ≡ record { entries = []; room = 0; spare = 0 } }
    {
        Records {
            records: Vec::new(alloc),
            lines: LineStore::new(alloc),
            digests: Vec::new(alloc),
            room: 0,
        }
    }

    /// Takes room for so many more entries, and so that their lines may have so many bytes.
    pub fn take_room(&mut self, more: usize, bytes: usize) -> Result<(), NoMemory>
        ensures entries { self.new.entries ≡ self.old.entries }
        ensures room { OnOk result (self.new.room ≡ self.old.room + more) }
        ensures small { self.new.room < 2 ^ 64 }
        ensures err { OnErr result (self.new.room ≡ self.old.room) }
        ensures spare { OnOk result (bytes ≤ self.new.spare) }
        ensures wide { self.old.spare ≤ self.new.spare }
        ensures free { more ≡ 0 → bytes ≡ 0 → IsOk result }
    {
        let taken = self.room;
        if more == 0 && bytes == 0 {
            return Ok(());
        }
        let Some(room) = taken.checked_add(more) else {
            return Err(NoMemory);
        };
        let spare = room.saturating_sub(self.records.as_slice().len());
        self.records.reserve(spare)?;
        self.digests.reserve(spare)?;
        self.lines.take_room(spare, bytes)?;
        self.room = room;
        Ok(())
    }

    /// Appends the entry, for which there is room. It takes no memory.
    pub fn push(&mut self, entry: Entry)
        requires room { length self.old.entries < self.old.room }
        requires spare { line_bytes entry.what ≤ self.old.spare }
        ensures entries { self.new.entries ≡ self.old.entries ++ entry ∷ [] }
        ensures room { self.new.room ≡ self.old.room }
        ensures spare { self.new.spare ≡ self.old.spare - line_bytes entry.what }
    {
        let Entry { by, what } = entry;
        let kept = record::keep(&mut self.lines, &mut self.digests, what);
        match self.records.push(Record { by, what: kept }) {
            Ok(()) => {}
            Err(_) => unreachable!(),
        }
    }

    /// All entries, in order.
    pub fn all(&self) -> Entries<'_>
        ensures { result ≡ self.now.entries }
    {
        Entries::of(self)
    }

    // How many entries there are.
    pub(crate) fn len(&self) -> usize
        ensures { result ≡ length self.now.entries }
    {
        self.records.as_slice().len()
    }

    // The entry at a place, counted from 0; None exactly past the end.
    pub(crate) fn entry(&self, at: usize) -> Option<EntryRef<'_>>
        ensures { option_map entry_shown result ≡ slice_get self.now.entries at }
    {
        match record_at(self.records.as_slice(), at) {
            Some(record) => Some(EntryRef {
                by: record.by,
                what: record::lent(&self.lines, self.digests.as_slice(), record.what),
            }),
            None => None,
        }
    }
}

// The record at a place; None exactly past the end.
fn record_at(records: &[Record], at: usize) -> Option<Record>
    ensures { result ≡ slice_get records.now at }
{
    match records.get(at) {
        Some(record) => Some(*record),
        None => None,
    }
}
