// With which answer a task was last to be run again.
ghost use Rattle.std.specs.Prelude.{◌≡◌, option_and_then, option_map};
ghost use Rattle.journal_scan.specs.Shown.{entry_shown};
ghost use Rattle.run_starts.specs.Rounds.{again_of, last_again};

use journal_look::{EntryRef, Journal, WhatRef};
use journal_model::Answer;

fn again_of(entry: Option<EntryRef<'_>>, task: u32) -> Option<Answer>
    ensures { result ≡ option_and_then (λ e. again_of task e.what) (option_map entry_shown entry.entry) }
{
    match entry {
        Some(entry) => match entry.what {
            WhatRef::Again { task: t, answer } if t == task => Some(answer),
            _ => None,
        },
        None => None,
    }
}

/// The answer of the task's last Again. It looks from the journal's end, where the children of the last round were lost.
pub(crate) fn last_again(journal: &Journal, task: u32) -> Option<Answer>
    ensures { result ≡ last_again journal.now.entries task }
{
    let len = journal.len();
    'entries: for back in 0..len {
        match again_of(journal.entry(len - 1 - back), task) {
            Some(answer) => return Some(answer),
            None => {}
        }
    }
    None
}
