// Whether running out of memory ended a child of a run.
ghost use Rattle.std.specs.Prelude.{◌≡◌, option_map};
ghost use Rattle.journal_model.specs.Journal.{any};
ghost use Rattle.journal_scan.specs.Shown.{entry_shown};
ghost use Rattle.run_starts.specs.Rounds.{ends_for_memory};
ghost use Rattle.run_starts.specs.Stints.{is_memory_end};

use journal_look::{EntryRef, Journal, WhatRef};
use journal_model::Why;

fn is_memory_end(entry: Option<EntryRef<'_>>) -> bool
    ensures { result ≡ is_memory_end (option_map entry_shown entry.entry) }
{
    match entry {
        Some(entry) => matches!(
            entry.what,
            WhatRef::End {
                why: Why::Memory,
                ..
            }
        ),
        None => false,
    }
}

/// Whether a child ended for lack of memory.
pub(crate) fn is_starved(journal: &Journal) -> bool
    ensures { result ≡ any ends_for_memory journal.now.entries }
{
    'entries: for at in 0..journal.len() {
        if is_memory_end(journal.entry(at)) {
            return true;
        }
    }
    false
}
