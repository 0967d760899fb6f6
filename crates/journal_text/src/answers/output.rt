ghost use Rattle.std.specs.Prelude.{◌≡◌, ◌++◌, ◌∷◌, [], codes, decimal, IfOk};
ghost use Rattle.ann_digest.specs.Digests.{digest_text};
ghost use Rattle.annex_model.specs.Messages.{remote_reading};
ghost use Rattle.annex_model.specs.Tags.{untag, without_tag};
ghost use Rattle.journal_model.specs.Output.{answer_line, answer_words, why_words, text_of_reading, text_at};

use ann_digest::Digest;
use ann_key::{Bytes, NoMemory};
use journal_look::{Journal, line_at};
use journal_model::{Answer, Why};
use std::alloc::Global;
use wire_msg::{read_remote, text_of, untag};

/// The line that is printed of a task's answer, with its byte 10. A foul line is told as it stood on the wire, by the
/// place that the answer names; a place where no line was got tells nothing.
pub fn print_answer(
    alloc: Global,
    task: u32,
    answer: &Answer,
    journal: &Journal,
) -> Result<Bytes, NoMemory>
    ensures { IfOk result (λ b. b ≡ answer_line journal.now.entries task answer.now) }
{
    let number = format!(in alloc; "{task}")?;
    let words = print_words(alloc, answer, journal)?;
    let mut line = Vec::from_slice(alloc, number.as_bytes())?;
    line.push(b' ')?;
    line.extend_from_slice(words.view())?;
    line.push(b'\n')?;
    Ok(Bytes::from_vec(line))
}

/// The words of an answer, without a number and without an end.
pub fn print_words(alloc: Global, answer: &Answer, journal: &Journal) -> Result<Bytes, NoMemory>
    ensures { IfOk result (λ b. b ≡ answer_words journal.now.entries answer.now) }
{
    match answer {
        Answer::Stored => fixed(alloc, b"stored"),
        Answer::Got => fixed(alloc, b"got"),
        Answer::Present => fixed(alloc, b"present"),
        Answer::Dropped => fixed(alloc, b"dropped"),
        Answer::Renamed => fixed(alloc, b"renamed"),
        Answer::Absent => fixed(alloc, b"absent"),
        Answer::Unsupported => fixed(alloc, b"unsupported"),
        Answer::Unsent => fixed(alloc, b"unsent"),
        Answer::StartFault => fixed(alloc, b"startfault"),
        Answer::NoChild => fixed(alloc, b"nochild"),
        Answer::FileFault => fixed(alloc, b"filefault"),
        Answer::NoFile => fixed(alloc, b"nofile"),
        Answer::Memory => fixed(alloc, b"memory"),
        Answer::Failed { at } => told(alloc, b"failed ", text_at(journal, *at)),
        Answer::Unknown { at } => told(alloc, b"unknown ", text_at(journal, *at)),
        Answer::NotPrepared { at } => told(alloc, b"notprepared ", text_at(journal, *at)),
        Answer::Ended { why } => why_text(alloc, *why, journal),
        Answer::Size { bytes } => numbered(alloc, *bytes),
        Answer::Hash { digest } => digested(alloc, digest),
    }
}

fn why_text(alloc: Global, why: Why, journal: &Journal) -> Result<Bytes, NoMemory>
    ensures { IfOk result (λ b. b ≡ why_words journal.now.entries why) }
{
    match why {
        Why::Eof => fixed(alloc, b"ended eof"),
        Why::ReadFault => fixed(alloc, b"ended readfault"),
        Why::LongLine => fixed(alloc, b"ended longline"),
        Why::Full => fixed(alloc, b"ended full"),
        Why::Memory => fixed(alloc, b"memory"),
        Why::Closed => fixed(alloc, b"ended closed"),
        Why::Foul { at } => told(alloc, b"foul ", line_at(journal, at)),
        Why::Error { at } => told(alloc, b"ended error ", text_at(journal, at)),
        Why::Version { .. } => fixed(alloc, b"ended version"),
    }
}

// Words that are always the same.
fn fixed(alloc: Global, words: &[u8]) -> Result<Bytes, NoMemory>
    ensures { IfOk result (λ b. b ≡ words.now) }
{
    Bytes::copy(alloc, words)
}

// Words, and the line that they tell.
fn told(alloc: Global, words: &[u8], line: &[u8]) -> Result<Bytes, NoMemory>
    ensures { IfOk result (λ b. b ≡ words.now ++ line.now) }
{
    let mut text = Vec::from_slice(alloc, words)?;
    text.extend_from_slice(line)?;
    Ok(Bytes::from_vec(text))
}

fn numbered(alloc: Global, bytes: u64) -> Result<Bytes, NoMemory>
    ensures { IfOk result (λ b. b ≡ codes "size " ++ decimal bytes) }
{
    let text = format!(in alloc; "size {bytes}")?;
    Bytes::copy(alloc, text.as_bytes())
}

fn digested(alloc: Global, digest: &Digest) -> Result<Bytes, NoMemory>
    ensures { IfOk result (λ b. b ≡ codes "hash " ++ digest_text digest.now) }
{
    let text = format!(in alloc; "hash {digest}")?;
    Bytes::copy(alloc, text.as_bytes())
}

// The text that the line at a place ends with, as the message that it spells; empty where that message has none.
fn text_at(journal: &Journal, at: u64) -> &[u8]
    ensures { result.now ≡ text_at journal.entry.now.entries at }
{
    text_in(without_tag(line_at(journal, at)))
}

fn without_tag(line: &[u8]) -> &[u8]
    ensures { result.now ≡ without_tag line.entry.now (untag line.entry.now) }
{
    match untag(line) {
        Some((_, message)) => message,
        None => line,
    }
}

fn text_in(line: &[u8]) -> &[u8]
    ensures { result.now ≡ text_of_reading (remote_reading line.entry.now) }
{
    match read_remote(line) {
        Some(message) => text_of(message),
        None => b"",
    }
}
