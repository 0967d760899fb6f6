// How a job was settled, as fields.
ghost use Rattle.std.specs.Prelude.{◌≡◌, ◌++◌, OnOk, drop};
ghost use Rattle.journal_text.specs.Entries.Fields.{followed, by_rows};
ghost use Rattle.journal_text.specs.Entries.Verdicts.{verdict_fields, verdict_at, verdict_rows};

use crate::entries::fields::{first_of, number_at, push_field, push_one, rest_of};
use crate::entries::whys::{push_why, why_at};
use ann_key::NoMemory;
use journal_model::Verdict;
use std::alloc::Global;

/// Puts the verdict after the line.
pub(crate) fn push_verdict(
    alloc: Global,
    line: &mut Vec<u8>,
    verdict: Verdict,
) -> Result<(), NoMemory>
    ensures { OnOk result (line.new.items ≡ line.old.items ++ followed (verdict_fields verdict)) }
{
    match verdict {
        Verdict::Done { at } => push_one(alloc, line, b"done", at),
        Verdict::Failed { at } => push_one(alloc, line, b"failed", at),
        Verdict::Absent { at } => push_one(alloc, line, b"absent", at),
        Verdict::Unknown { at } => push_one(alloc, line, b"unknown", at),
        Verdict::Unsupported { at } => push_one(alloc, line, b"unsupported", at),
        Verdict::Ended { why } => {
            push_field(line, b"ended")?;
            push_why(alloc, line, why)
        }
        Verdict::Unsent => push_field(line, b"unsent"),
    }
}

/// The verdict that the text begins with.
pub(crate) fn verdict_at(text: &[u8]) -> Option<Verdict>
    ensures { result ≡ verdict_at text.now }
{
    by_word(first_of(text), rest_of(text))
}

fn by_word(word: &[u8], text: &[u8]) -> Option<Verdict>
    ensures { result ≡ by_rows verdict_rows word.now text.now }
{
    if word == b"done".as_slice() {
        let at = number_at(text)?;
        Some(Verdict::Done { at })
    } else if word == b"failed".as_slice() {
        let at = number_at(text)?;
        Some(Verdict::Failed { at })
    } else if word == b"absent".as_slice() {
        let at = number_at(text)?;
        Some(Verdict::Absent { at })
    } else {
        other(word, text)
    }
}

fn other(word: &[u8], text: &[u8]) -> Option<Verdict>
    ensures { result ≡ by_rows (drop 3 verdict_rows) word.now text.now }
{
    if word == b"unknown".as_slice() {
        let at = number_at(text)?;
        Some(Verdict::Unknown { at })
    } else if word == b"unsupported".as_slice() {
        let at = number_at(text)?;
        Some(Verdict::Unsupported { at })
    } else if word == b"ended".as_slice() {
        let why = why_at(text)?;
        Some(Verdict::Ended { why })
    } else if word == b"unsent".as_slice() {
        Some(Verdict::Unsent)
    } else {
        None
    }
}
