// Whether a remote answered all that it was asked about itself.
ghost use Rattle.std.specs.Prelude.{◌≡◌, is_some, option_map};
ghost use Rattle.ann_key.specs.KeyRefs.{text_of};
ghost use Rattle.journal_model.specs.Projection.{final_in};
ghost use Rattle.info_and_init.specs.Info.Infos.{is_informed, is_answered};

use ann_key::KeyRef;
use journal_look::{Journal, is_prepared, verdict_of};
use journal_model::Verdict;

/// Whether a line of the child gave the verdict.
pub(super) fn is_final(verdict: Verdict) -> bool
    ensures { result ≡ is_some (final_in verdict) }
{
    match verdict {
        Verdict::Ended { .. } | Verdict::Unsent => false,
        _ => true,
    }
}

fn is_answered(journal: &Journal, child: u32, job: u64) -> bool
    ensures { result ≡ is_answered journal.now.entries child job }
{
    match verdict_of(journal, child, job) {
        Some(verdict) => is_final(verdict),
        None => false,
    }
}

/// Whether the child got ready, and answered all that it was asked about itself, the key among it where one was given.
pub fn is_informed(journal: &Journal, key: Option<KeyRef<'_>>) -> bool
    ensures { result ≡ is_informed journal.now.entries 1 (option_map text_of key.entry) }
{
    is_prepared(journal, 1)
        && is_answered(journal, 1, 2)
        && is_answered(journal, 1, 3)
        && is_answered(journal, 1, 4)
        && is_answered(journal, 1, 5)
        && is_answered(journal, 1, 6)
        && (key.is_none() || is_answered(journal, 1, 7))
}
