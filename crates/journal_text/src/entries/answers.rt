// The answer of a task, as fields.
ghost use Rattle.std.specs.Prelude.{◌≡◌, ◌++◌, OnOk, IfOk, drop};
ghost use Rattle.journal_text.specs.Entries.Answers.{answer_fields, answer_at, answer_rows};
ghost use Rattle.journal_text.specs.Entries.Fields.{followed, by_rows};

use crate::entries::digits::digest_at;
use crate::entries::fields::{first_of, number_at, push_field, push_one, rest_of};
use crate::entries::whys::{push_why, why_at};
use ann_key::NoMemory;
use journal_model::Answer;
use std::alloc::Global;

/// Puts the answer after the line.
pub(crate) fn push_answer(
    alloc: Global,
    line: &mut Vec<u8>,
    answer: &Answer,
) -> Result<(), NoMemory>
    ensures { OnOk result (line.new.items ≡ line.old.items ++ followed (answer_fields answer.now)) }
{
    match answer {
        Answer::Stored => push_field(line, b"stored"),
        Answer::Got => push_field(line, b"got"),
        Answer::Present => push_field(line, b"present"),
        Answer::Dropped => push_field(line, b"dropped"),
        Answer::Renamed => push_field(line, b"renamed"),
        Answer::Absent => push_field(line, b"absent"),
        Answer::Unsupported => push_field(line, b"unsupported"),
        Answer::Unsent => push_field(line, b"unsent"),
        Answer::StartFault => push_field(line, b"startfault"),
        Answer::NoChild => push_field(line, b"nochild"),
        Answer::FileFault => push_field(line, b"filefault"),
        Answer::NoFile => push_field(line, b"nofile"),
        Answer::Memory => push_field(line, b"memory"),
        Answer::Failed { at } => push_one(alloc, line, b"failed", *at),
        Answer::Unknown { at } => push_one(alloc, line, b"unknown", *at),
        Answer::NotPrepared { at } => push_one(alloc, line, b"notprepared", *at),
        Answer::Ended { why } => {
            push_field(line, b"ended")?;
            push_why(alloc, line, *why)
        }
        Answer::Size { bytes } => push_one(alloc, line, b"size", *bytes),
        Answer::Hash { digest } => {
            push_field(line, b"hash")?;
            let digits = format!(in alloc; "{digest}")?;
            push_field(line, digits.as_bytes())
        }
    }
}

/// The answer that the text begins with.
pub(crate) fn answer_at(alloc: Global, text: &[u8]) -> Result<Option<Answer>, NoMemory>
    ensures { IfOk result (λ answer. answer ≡ answer_at text.now) }
{
    by_word(alloc, first_of(text), rest_of(text))
}

fn by_word(alloc: Global, word: &[u8], text: &[u8]) -> Result<Option<Answer>, NoMemory>
    ensures { IfOk result (λ answer. answer ≡ by_rows answer_rows word.now text.now) }
{
    if word == b"hash".as_slice() {
        match digest_at(alloc, text)? {
            Some(digest) => Ok(Some(Answer::Hash { digest })),
            None => Ok(None),
        }
    } else {
        Ok(served(word, text))
    }
}

// An answer that the remote's content gave.
fn served(word: &[u8], text: &[u8]) -> Option<Answer>
    ensures { result ≡ by_rows (drop 1 answer_rows) word.now text.now }
{
    if word == b"stored".as_slice() {
        Some(Answer::Stored)
    } else if word == b"got".as_slice() {
        Some(Answer::Got)
    } else if word == b"present".as_slice() {
        Some(Answer::Present)
    } else if word == b"dropped".as_slice() {
        Some(Answer::Dropped)
    } else if word == b"renamed".as_slice() {
        Some(Answer::Renamed)
    } else if word == b"absent".as_slice() {
        Some(Answer::Absent)
    } else if word == b"unsupported".as_slice() {
        Some(Answer::Unsupported)
    } else {
        missed(word, text)
    }
}

// One for which something was missing.
fn missed(word: &[u8], text: &[u8]) -> Option<Answer>
    ensures { result ≡ by_rows (drop 8 answer_rows) word.now text.now }
{
    if word == b"unsent".as_slice() {
        Some(Answer::Unsent)
    } else if word == b"startfault".as_slice() {
        Some(Answer::StartFault)
    } else if word == b"nochild".as_slice() {
        Some(Answer::NoChild)
    } else if word == b"filefault".as_slice() {
        Some(Answer::FileFault)
    } else if word == b"nofile".as_slice() {
        Some(Answer::NoFile)
    } else if word == b"memory".as_slice() {
        Some(Answer::Memory)
    } else {
        placed(word, text)
    }
}

// One that names a place, a reason or a size.
fn placed(word: &[u8], text: &[u8]) -> Option<Answer>
    ensures { result ≡ by_rows (drop 14 answer_rows) word.now text.now }
{
    if word == b"failed".as_slice() {
        let at = number_at(text)?;
        Some(Answer::Failed { at })
    } else if word == b"unknown".as_slice() {
        let at = number_at(text)?;
        Some(Answer::Unknown { at })
    } else if word == b"notprepared".as_slice() {
        let at = number_at(text)?;
        Some(Answer::NotPrepared { at })
    } else if word == b"ended".as_slice() {
        let why = why_at(text)?;
        Some(Answer::Ended { why })
    } else if word == b"size".as_slice() {
        let bytes = number_at(text)?;
        Some(Answer::Size { bytes })
    } else {
        None
    }
}
