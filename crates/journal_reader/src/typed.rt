// Whether what was read is an entry: its numbers are of their types, and a line holds no byte 10.
ghost use Rattle.std.specs.Prelude.{◌≡◌, ◌↔◌, IsTrue, not, length};
ghost use Rattle.hex.specs.Hex.{IsBytes};
ghost use Rattle.annex_model.specs.Lines.{has_newline};
ghost use Rattle.journal_text.specs.Entries.Answers.{IsAnswer};
ghost use Rattle.journal_text.specs.Entries.Digits.{IsDigest};
ghost use Rattle.journal_text.specs.Entries.Entries.{IsEntry, IsWhat};
ghost use Rattle.journal_text.specs.Entries.Verdicts.{IsVerdict};
ghost use Rattle.journal_text.specs.Entries.Whys.{IsWhy};

use ann_digest::Digest;
use ann_key::{Bytes, has_byte};
use journal_model::{Answer, Entry, Verdict, What, Why};

/// Whether it is an entry.
pub(crate) fn is_entry(entry: &Entry) -> bool
    ensures { IsTrue result ↔ IsEntry entry.now }
{
    let _by = entry.by;
    is_what(&entry.what)
}

fn is_what(what: &What) -> bool
    ensures { IsTrue result ↔ IsWhat what.now }
{
    match what {
        What::Claim { task, child } => {
            let _numbers = (*task, *child);
            true
        }
        What::Start { child, slot, .. } => {
            let _numbers = (*child, *slot);
            true
        }
        What::NoStart { slot } => {
            let _number = *slot;
            true
        }
        What::Ask {
            child,
            job,
            task,
            line,
        } => {
            let _numbers = (*child, *job, *task);
            is_line(line)
        }
        What::Lead { child, job, line } => {
            let _numbers = (*child, *job);
            is_line(line)
        }
        What::Put { child, job, line } => {
            let _numbers = (*child, *job);
            is_line(line)
        }
        What::Sent { child } => {
            let _number = *child;
            true
        }
        What::Mute { child } => {
            let _number = *child;
            true
        }
        What::Got { child, line } => {
            let _number = *child;
            is_line(line)
        }
        What::End { child, why } => {
            let _number = *child;
            why_is_typed(*why);
            true
        }
        What::Verdict {
            child,
            job,
            verdict,
        } => {
            let _numbers = (*child, *job);
            verdict_is_typed(*verdict);
            true
        }
        What::Lost { child, task } => {
            let _numbers = (*child, *task);
            true
        }
        What::Answer { task, answer } => {
            let _number = *task;
            answer_is_typed(*answer);
            true
        }
        What::Note { task, chunk, count } => {
            let _numbers = (*task, *chunk, *count);
            true
        }
        What::Again { task, answer } => {
            let _number = *task;
            answer_is_typed(*answer);
            true
        }
    }
}

fn is_line(line: &Bytes) -> bool
    ensures { result ≡ not (has_newline line.now) }
{
    !has_byte(line.view(), b'\n')
}

// The numbers of a cause are of their types.
fn why_is_typed(why: Why)
    ensures { IsWhy why }
{
    match why {
        Why::Foul { at: _at } => {}
        Why::Error { at: _at } => {}
        Why::Version { at: _at } => {}
        _ => {}
    }
}

fn verdict_is_typed(verdict: Verdict)
    ensures { IsVerdict verdict }
{
    match verdict {
        Verdict::Done { at: _at } => {}
        Verdict::Failed { at: _at } => {}
        Verdict::Absent { at: _at } => {}
        Verdict::Unknown { at: _at } => {}
        Verdict::Unsupported { at: _at } => {}
        Verdict::Ended { why } => why_is_typed(why),
        Verdict::Unsent => {}
    }
}

fn answer_is_typed(answer: Answer)
    ensures { IsAnswer answer }
{
    match answer {
        Answer::Failed { at: _at } => {}
        Answer::Unknown { at: _at } => {}
        Answer::NotPrepared { at: _at } => {}
        Answer::Ended { why } => why_is_typed(why),
        Answer::Size { bytes: _bytes } => {}
        Answer::Hash { digest } => digest_is_typed(digest),
        _ => {}
    }
}

fn digest_is_typed(digest: Digest)
    ensures { IsDigest digest }
{
    let _room = room(&digest.bytes);
    bytes_are_typed(digest.given());
}

fn room(bytes: &[u8; 64]) -> usize
    ensures { length bytes.now ≡ 64 }
{
    bytes.len()
}

fn bytes_are_typed(bytes: &[u8])
    ensures { IsBytes bytes.now }
{
    for b in bytes {
        let _byte = *b;
    }
}
