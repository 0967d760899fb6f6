// One chunk of a get.
ghost use Rattle.std.specs.Prelude.{◌≡◌, ◌≢◌, ◌+◌, ◌<◌, ◌^◌, true, false, is_some};
ghost use Rattle.ann_digest.specs.Checkers.{taken_of};
ghost use Rattle.ann_key.specs.KeyRefs.{text_of};
ghost use Rattle.annex_model.specs.Lines.{has_newline};
ghost use Rattle.annex_model.specs.Messages.{is_sent_key};
ghost use Rattle.task_model.specs.Askers.{IsSameTask};
ghost use Rattle.task_run.specs.Get.ChunkFetches.{over_with, answer_in, Comes, CopiesOver, undone_went, Takes};
ghost use Rattle.task_model.specs.Ran.{HasQuietCauses, undone_answer};

use crate::get::taking::discard;
use ann_digest::Checker;
use ann_key::{KeyRef, NoMemory};
use ann_outside::Desk;
use journal_model::{Answer, Verdict};
use std::alloc::Global;
use task_model::answers::{is_done, refused, undone_answer};
use task_model::copying::{Copied, copy_in};
use task_model::{Asker, ask};

/// How many bytes a chunk has, the file that it is fetched to, and the part that it is added to.
#[derive(Clone, Copy)]
pub struct Chunk<'a> {
    pub bytes: u64,
    pub fetch: &'a str,
    pub part: &'a str,
}

/// How a part of a get went.
pub enum Went {
    /// All that was wanted is there.
    Whole,
    /// The remote didn't send it, and the next layout is tried.
    Failed,
    /// The task is over with this answer.
    Over(Answer),
}

pub fn over(answer: Result<Answer, NoMemory>) -> Result<Went, NoMemory>
    ensures { result ≡ over_with answer }
{
    Ok(Went::Over(answer?))
}

fn undone(verdict: Verdict) -> Went
    requires { is_some (undone_answer verdict) ≡ true }
    ensures { result ≡ undone_went verdict }
{
    match verdict {
        Verdict::Failed { .. } => Went::Failed,
        _ => Went::Over(undone_answer(verdict)),
    }
}

// Appends the fetched file to part, and removes it.
fn copy_over<D: Desk>(
    alloc: Global,
    desk: &mut D,
    chunk: Chunk<'_>,
    checker: &mut Checker<'_>,
) -> Result<Went, NoMemory>
    requires names { chunk.fetch.now ≢ chunk.part.now }
    requires room { taken_of checker.old + chunk.bytes < 2 ^ 64 }
    ensures copied { CopiesOver chunk.entry.part.now chunk.entry.fetch.now chunk.entry.bytes checker.old checker.new (D.told desk.old).log (D.told desk.new).log result }
    ensures causes { HasQuietCauses (D.told desk.old).counts (D.told desk.new).counts (answer_in result) }
{
    match copy_in(alloc, desk, chunk.fetch, chunk.part, chunk.bytes, checker)? {
        Copied::Done(_) => match desk.remove(chunk.fetch) {
            Ok(()) => Ok(Went::Whole),
            Err(error) => over(refused(error)),
        },
        Copied::Fault => Ok(Went::Over(Answer::FileFault)),
        Copied::Missing => Ok(Went::Over(Answer::NoFile)),
    }
}

// Takes in the fetched file, where it has the chunk's bytes.
fn come_in<D: Desk>(
    alloc: Global,
    desk: &mut D,
    chunk: Chunk<'_>,
    checker: &mut Checker<'_>,
) -> Result<Went, NoMemory>
    requires names { chunk.fetch.now ≢ chunk.part.now }
    requires room { taken_of checker.old + chunk.bytes < 2 ^ 64 }
    ensures came { Comes chunk.entry.part.now chunk.entry.fetch.now chunk.entry.bytes checker.old checker.new (D.told desk.old).log (D.told desk.new).log result }
    ensures causes { HasQuietCauses (D.told desk.old).counts (D.told desk.new).counts (answer_in result) }
{
    match desk.size(chunk.fetch) {
        Ok(bytes) => {
            if bytes == chunk.bytes {
                copy_over(alloc, desk, chunk, checker)
            } else {
                over(discard(desk, chunk.part, Answer::Size { bytes }))
            }
        }
        Err(error) => over(refused(error)),
    }
}

/// Asks for the chunk of this key, and adds its bytes to part.
pub fn take_chunk<A: Asker, D: Desk>(
    alloc: Global,
    number: u32,
    key: KeyRef<'_>,
    chunk: Chunk<'_>,
    asker: &mut A,
    desk: &mut D,
    checker: &mut Checker<'_>,
) -> Result<Went, NoMemory>
    requires key { is_sent_key (text_of key) ≡ true }
    requires line { has_newline chunk.fetch.now ≡ false }
    requires names { chunk.fetch.now ≢ chunk.part.now }
    requires room { taken_of checker.old + chunk.bytes < 2 ^ 64 }
    requires number { number ≡ (A.told asker.old).task }
    requires ready { A.ready asker.old }
    ensures took { Takes (text_of key.entry) chunk.entry.part.now chunk.entry.fetch.now chunk.entry.bytes checker.old checker.new
        (A.told asker.old).pairs (A.told asker.new).pairs (D.told desk.old).log (D.told desk.new).log result }
    ensures notes { (A.told asker.new).notes ≡ (A.told asker.old).notes }
    ensures same { IsSameTask (A.told asker.old) (A.told asker.new) }
    ensures on { A.goes_on asker.old asker.new }
    ensures causes { HasQuietCauses (D.told desk.old).counts (D.told desk.new).counts (answer_in result) }
{
    let verdict = ask::transfer(alloc, asker, number, false, key, chunk.fetch)?;
    if is_done(verdict) {
        come_in(alloc, desk, chunk, checker)
    } else {
        Ok(undone(verdict))
    }
}
