// A journal that is being written, and its room.
ghost use Rattle.std.specs.Prelude.{◌≡◌, ◌<◌, ◌+◌, ◌++◌, ◌∷◌, [], IfSome, OnOk, OnErr, is_some, length};
ghost use Rattle.std.specs.List.{list_any};
ghost use Rattle.kit_async_model.specs.Legality.{is_lack};

use crate::entry::Entry;
use crate::past::Past;
use ann_key::NoMemory;
use std::alloc::Global;
use std::marker::Model;

/// Entries, and room that is kept for more. They are in hand where `kept` tells so; else each is gone from memory once it is appended, and
/// proofs alone see it.
#[derive(Drop)]
pub struct Entries {
    // all of them
    past: Past<Entry>,
    amount: u64,
    // all of them, where they are kept
    in_hand: Vec<Entry>,
    kept: bool,
    room: usize,
    // whether there is a Lack among them
    lacks: bool,
}

impl Model for Entries {
    ghost use Rattle.std.specs.Prelude.{◌≡◌, ◌<◌, ◌≤◌, ◌+◌, ◌^◌, true, length, vec_capacity, vec_len};
    ghost use Rattle.std.specs.List.{list_any};
    ghost use Rattle.kit_async_model.specs.Entries.{EntriesValue};
    ghost use Rattle.kit_async_model.specs.Legality.{is_lack};

    ghost Value = { EntriesValue };

    ghost view = { λ l. record { kept = l.kept; entries = l.past.items; room = l.room } };

    ghost invariant = { λ l. (l.amount ≡ length l.past.items) × (l.amount + l.room < 2 ^ 64) × (l.lacks ≡ list_any is_lack l.past.items)
        × (l.kept ≡ true → (l.in_hand.items ≡ l.past.items) × (vec_len l.in_hand + l.room ≤ vec_capacity l.in_hand)) };
}

fn is_lack(entry: &Entry) -> bool
    ensures { result ≡ is_lack entry.now }
{
    matches!(entry, Entry::Lack)
}

impl Entries {
    /// No entries, and no room. It takes no memory.
    pub fn new(alloc: Global, kept: bool) -> Entries
        ensures { result ≡ record { kept = kept; entries = []; room = 0 } }
    {
        Entries {
            past: Past::new(),
            amount: 0,
            in_hand: Vec::new(alloc),
            kept,
            room: 0,
            lacks: false,
        }
    }

    /// The entries, in their order, where they are kept.
    pub fn view(&self) -> Option<&[Entry]>
        ensures entries { IfSome result (λ entries. entries.now ≡ self.now.entries) }
        ensures kept { is_some result ≡ self.now.kept }
    {
        if self.kept {
            Some(self.in_hand.as_slice())
        } else {
            None
        }
    }

    /// How many there are.
    pub fn len(&self) -> u64
        ensures { result ≡ length self.now.entries }
    {
        self.amount
    }

    /// Whether a line that was due found no memory.
    pub fn lacks(&self) -> bool
        ensures { result ≡ list_any is_lack self.now.entries }
    {
        self.lacks
    }

    /// Takes room for so many more entries. At `NoMemory` all is as before. Entries that aren't kept take no memory: there it fails only
    /// where they would be more than 2^64.
    pub fn take_room(&mut self, more: usize) -> Result<(), NoMemory>
        ensures kept { self.new.kept ≡ self.old.kept }
        ensures entries { self.new.entries ≡ self.old.entries }
        ensures ok { OnOk result (self.new.room ≡ self.old.room + more) }
        ensures err { OnErr result (self.new.room ≡ self.old.room) }
    {
        let Some(room) = self.room.checked_add(more) else {
            return Err(NoMemory);
        };
        if self.amount.checked_add(room as u64).is_none() {
            return Err(NoMemory);
        }
        if self.kept {
            self.in_hand.reserve(room)?;
        }
        self.room = room;
        Ok(())
    }

    /// Appends the entry, for which there is room. It takes no memory.
    pub fn push(&mut self, entry: Entry)
        requires { 0 < self.old.room }
        ensures kept { self.new.kept ≡ self.old.kept }
        ensures entries { self.new.entries ≡ self.old.entries ++ entry ∷ [] }
        ensures room { self.new.room + 1 ≡ self.old.room }
    {
        self.lacks = self.lacks || is_lack(&entry);
        self.past = self.past.and(&entry);
        self.amount += 1;
        self.room -= 1;
        if self.kept {
            self.in_hand.push_reserved(entry);
        }
    }
}
