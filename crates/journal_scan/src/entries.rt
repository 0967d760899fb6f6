ghost use Rattle.std.specs.Prelude.{◌≡◌, ◌≤◌, drop, length, option_map, slice_get, take};
ghost use Rattle.journal_scan.specs.Shown.{entry_shown};

use crate::entry::EntryRef;
use crate::records::Records;
use std::marker::Model;

/// A part of a journal, lent. Contracts see the list of its entries.
#[derive(Drop)]
pub struct Entries<'a> {
    records: &'a Records,
    // from the first place, and before the second
    from: usize,
    to: usize,
}

impl<'a> Model for Entries<'a> {
    ghost use Rattle.std.specs.Prelude.{List, ◌≤◌, length, slice_range};
    ghost use Rattle.journal_model.specs.declared.entry.Entry.{Entry};

    ghost Value = { List Entry };

    ghost view = { λ e. slice_range e.records.now.entries e.from e.to };

    ghost invariant = { λ e. (e.from ≤ e.to) × (e.to ≤ length e.records.now.entries) };
}

impl<'a> Entries<'a> {
    // All of the records.
    pub(crate) fn of(records: &'a Records) -> Entries<'a>
        ensures { result ≡ records.entry.now.entries }
    {
        Entries {
            records,
            from: 0,
            to: records.len(),
        }
    }

    /// How many entries there are.
    pub fn len(&self) -> usize
        ensures { result ≡ length self.now }
    {
        self.to - self.from
    }

    /// The entry at a place, counted from 0; None exactly past the end.
    pub fn get(&self, at: usize) -> Option<EntryRef<'a>>
        ensures { option_map entry_shown result ≡ slice_get self.now at }
    {
        if at < self.to - self.from {
            self.records.entry(self.from + at)
        } else {
            None
        }
    }

    /// The first entries, so many.
    pub fn front(&self, n: usize) -> Entries<'a>
        requires { n ≤ length self.now }
        ensures { result ≡ take n self.now }
    {
        Entries {
            records: self.records,
            from: self.from,
            to: self.from + n,
        }
    }

    /// The entries after the first ones, so many.
    pub fn behind(&self, n: usize) -> Entries<'a>
        requires { n ≤ length self.now }
        ensures { result ≡ drop n self.now }
    {
        Entries {
            records: self.records,
            from: self.from + n,
            to: self.to,
        }
    }

    /// The entries, one by one.
    pub fn iter(&self) -> Iter<'a>
        ensures { result ≡ self.now }
    {
        Iter {
            rest: self.behind(0),
        }
    }
}

/// The entries that are left, one by one. Contracts see the list of them.
#[derive(Drop)]
pub struct Iter<'a> {
    rest: Entries<'a>,
}

impl<'a> Model for Iter<'a> {
    ghost use Rattle.std.specs.Prelude.{List};
    ghost use Rattle.journal_model.specs.declared.entry.Entry.{Entry};

    ghost Value = { List Entry };

    ghost view = { λ it. it.rest };
}

impl<'a> Iterator for Iter<'a> {
    ghost use Rattle.std.specs.Iterator.{YieldsFirstBy, item_count};

    type Item = EntryRef<'a>;

    ghost next_gives = { YieldsFirstBy entry_shown (λ rest. rest) };

    ghost remaining = { item_count (λ rest. rest) };

    fn next(&mut self) -> Option<EntryRef<'a>> {
        let entry = self.rest.get(0)?;
        self.rest = self.rest.behind(1);
        Some(entry)
    }
}
