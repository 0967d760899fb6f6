// The journal of a kit that has stopped, handed out or not.
ghost use Rattle.std.specs.Prelude.{◌≡◌, ◌+◌, true, length};
ghost use Rattle.kit_async.specs.Served.{IsEntryAt, journal_of};

use crate::lent::{KitEntry, shown};
use crate::why::Why;
use kit_async_model::Entries;
use std::marker::Model;

/// What happened in a kit, and why it stopped.
#[derive(Drop)]
pub struct KitJournal {
    log: Entries,
    why: Why,
}

impl Model for KitJournal {
    ghost use Rattle.std.specs.Prelude.{◌≡◌, true};
    ghost use Rattle.kit_async.specs.Served.{JournalValue};

    ghost Value = { JournalValue };

    ghost view = { λ j. record { entries = j.log.entries; why = j.why } };

    ghost invariant = { λ j. j.log.kept ≡ true };
}

impl KitJournal {
    pub(crate) fn new(log: Entries, why: Why) -> KitJournal
        requires { log.kept ≡ true }
        ensures { result ≡ journal_of log why }
    {
        KitJournal { log, why }
    }

    /// How many entries it has. It takes no memory.
    pub fn len(&self) -> u64
        ensures { result ≡ length self.now.entries + 1 }
    {
        let Some(entries) = self.log.view() else {
            unreachable!()
        };
        entries.len() as u64 + 1
    }

    /// The entry at that place, from 0; None exactly past the end. It takes no memory.
    pub fn entry(&self, at: u64) -> Option<KitEntry<'_>>
        ensures { IsEntryAt self.now at result }
    {
        let Some(entries) = self.log.view() else {
            unreachable!()
        };
        if at == entries.len() as u64 {
            return Some(KitEntry::Stop { why: self.why });
        }
        match entries.get(at as usize) {
            Some(entry) => Some(shown(entry)),
            None => None,
        }
    }
}

/// The journal of a kit that has stopped, whose entries aren't handed out. Contracts see them as those of a [`KitJournal`].
#[derive(Drop)]
pub struct GoneJournal {
    log: Entries,
    why: Why,
}

impl Model for GoneJournal {
    ghost use Rattle.kit_async.specs.Served.{JournalValue};

    ghost Value = { JournalValue };

    ghost view = { λ j. record { entries = j.log.entries; why = j.why } };
}

impl GoneJournal {
    pub(crate) fn new(log: Entries, why: Why) -> GoneJournal
        ensures { result ≡ journal_of log why }
    {
        GoneJournal { log, why }
    }

    /// How many entries it had, without the last, which says why the kit stopped.
    pub fn len(&self) -> u64
        ensures { result ≡ length self.now.entries }
    {
        self.log.len()
    }

    /// Why the kit stopped.
    pub fn why(&self) -> Why
        ensures { result ≡ self.now.why }
    {
        self.why
    }
}
