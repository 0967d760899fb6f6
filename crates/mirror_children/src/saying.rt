// What a mirror says of a child.
ghost use Rattle.std.specs.Prelude.{◌≡◌, IfOk, IsTrue};
ghost use Rattle.annex_model.specs.Messages.{remote_reading};
ghost use Rattle.annex_model.specs.Tags.{untag, without_tag};
ghost use Rattle.journal_model.specs.Output.{text_of_reading, text_at};
ghost use Rattle.kit_serve.specs.Kit.Calls.{is_line_said};
ghost use Rattle.mirror_children.specs.Rule.{is_absent, is_done, is_starved, mirror_failure, verdict_text};

use ann_key::NoMemory;
use journal_look::{Journal, line_at};
use journal_model::{Verdict, Why};
use kit_serve::kit::Said;
use std::alloc::Global;
use wire_msg::{read_remote, text_of, untag};

/// Whether a line said that it is done.
pub(crate) fn is_done(verdict: Verdict) -> bool
    ensures { result ≡ is_done verdict }
{
    matches!(verdict, Verdict::Done { .. })
}

/// Whether a line said that the content isn't there.
pub(crate) fn is_absent(verdict: Verdict) -> bool
    ensures { result ≡ is_absent verdict }
{
    matches!(verdict, Verdict::Absent { .. })
}

/// Whether no memory was found to go on with the child.
pub(crate) fn is_starved(verdict: Verdict) -> bool
    ensures { result ≡ is_starved verdict }
{
    matches!(verdict, Verdict::Ended { why: Why::Memory })
}

fn without_tag(line: &[u8]) -> &[u8]
    ensures { result.now ≡ without_tag line.entry.now (untag line.entry.now) }
{
    match untag(line) {
        Some((_, message)) => message,
        None => line,
    }
}

fn text_in(line: &[u8]) -> &[u8]
    ensures { result.now ≡ text_of_reading (remote_reading line.entry.now) }
{
    match read_remote(line) {
        Some(message) => text_of(message),
        None => b"",
    }
}

/// The text that the line at a place ends with.
pub fn text_at(journal: &Journal, at: u64) -> &[u8]
    ensures { result.now ≡ text_at journal.entry.now.entries at }
{
    text_in(without_tag(line_at(journal, at)))
}

/// Why a request isn't done: the text of the line that said so, or a word.
pub(crate) fn verdict_text(journal: &Journal, verdict: Verdict) -> &[u8]
    ensures { result.now ≡ verdict_text journal.entry.now.entries verdict }
{
    match verdict {
        Verdict::Done { .. } => b"",
        Verdict::Failed { at } | Verdict::Unknown { at } => text_at(journal, at),
        Verdict::Absent { .. } => b"absent",
        Verdict::Unsupported { .. } => b"unsupported",
        Verdict::Ended { .. } => b"ended",
        Verdict::Unsent => b"unsent",
    }
}

/// A failure for this reason, with the number of the mirror.
pub fn mirror_failure(alloc: Global, number: u32, text: &[u8]) -> Result<Said, NoMemory>
    ensures text { IfOk result (λ said. said ≡ mirror_failure number text.now) }
    ensures line { IfOk result (λ said. IsTrue (is_line_said said)) }
{
    let name = format!(in alloc; "mirror{number}: ")?;
    let mut words = Vec::from_slice(alloc, name.as_bytes())?;
    words.extend_from_slice(text)?;
    Said::failure(alloc, &words)
}
