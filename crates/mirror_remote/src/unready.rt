// Why a child isn't ready.
ghost use Rattle.std.specs.Prelude.{◌≡◌};
ghost use Rattle.mirror_remote.specs.Lasting.{end_text, unready_by, unready_text};

use journal_look::{Journal, has_no_start, verdict_of, why_of};
use journal_model::{Verdict, Why};
use mirror_children::text_at;

// Why it ended, if it did.
fn end_text(journal: &Journal, why: Option<Why>) -> &[u8]
    ensures { result.now ≡ end_text journal.entry.now.entries why }
{
    match why {
        Some(Why::Error { at }) => text_at(journal, at),
        _ => b"its program ended, or broke the protocol",
    }
}

// What its answer to PREPARE says.
fn answer_text(journal: &Journal, verdict: Option<Verdict>) -> &[u8]
    ensures { result.now ≡ unready_by journal.entry.now.entries verdict }
{
    match verdict {
        Some(Verdict::Failed { at }) => text_at(journal, at),
        Some(Verdict::Unsupported { .. }) => b"it does not know PREPARE",
        _ => end_text(journal, why_of(journal, 1)),
    }
}

/// Why the child of this journal didn't get ready: the text of its answer to PREPARE or of its ERROR, or a word. It takes no memory.
pub fn unready_text(journal: &Journal) -> &[u8]
    ensures { result.now ≡ unready_text journal.entry.now.entries }
{
    if has_no_start(journal) {
        return b"its program could not be started";
    }
    answer_text(journal, verdict_of(journal, 1, 1))
}
