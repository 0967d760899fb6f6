// How part is begun in a layout of chunks.
ghost use Rattle.std.specs.Prelude.{◌≡◌, ◌<◌, ◌≤◌};
ghost use Rattle.ann_digest.specs.Checkers.{taken_of};
ghost use Rattle.task_text.specs.Layouts.Layouts.{count_of, to_of};
ghost use Rattle.task_run.specs.Get.PartBegins.{unbegun, Begins, answer_begun};
ghost use Rattle.task_model.specs.Ran.{HasTaskCauses};

use ann_digest::Checker;
use ann_key::NoMemory;
use ann_outside::{Desk, DeskError};
use journal_model::Answer;
use std::alloc::Global;
use task_model::answers::refused;
use task_model::copying::{Copied, resume};
use task_text::layouts::{held, range};

/// How a layout's begin went.
pub enum Begun {
    /// So many chunks are held by part, and were checked.
    Held(u64),
    /// The task is over with this answer.
    Over(Answer),
}

fn not_begun(answer: Result<Answer, NoMemory>) -> Result<Begun, NoMemory>
    ensures { result ≡ unbegun answer }
{
    Ok(Begun::Over(answer?))
}

// Where the first chunks end.
fn end_of(size: u64, chunk: u64, number: u64) -> u64
    requires chunk { 0 < chunk }
    requires there { number ≤ count_of size chunk }
    ensures { result ≡ to_of size chunk number }
{
    if number == 0 {
        0
    } else {
        range(size, chunk, number).1
    }
}

/// Makes part where it is missing, else cuts it to the chunks that it holds whole, and checks these.
pub fn begin_part<D: Desk>(
    alloc: Global,
    desk: &mut D,
    size: u64,
    chunk: u64,
    part: &str,
    checker: &mut Checker<'_>,
) -> Result<Begun, NoMemory>
    requires chunk { 0 < chunk }
    requires fresh { taken_of checker.old ≡ 0 }
    ensures begun { Begins part.now size chunk checker.old checker.new (D.told desk.old).log (D.told desk.new).log result }
    ensures causes { HasTaskCauses (D.told desk.old).counts (D.told desk.new).counts (answer_begun result) }
{
    match desk.size(part) {
        Ok(n) => {
            let held = held(size, chunk, n);
            let keep = end_of(size, chunk, held);
            match resume(alloc, desk, part, keep, checker)? {
                Copied::Done(_) => Ok(Begun::Held(held)),
                Copied::Fault => Ok(Begun::Over(Answer::FileFault)),
                Copied::Missing => Ok(Begun::Over(Answer::NoFile)),
            }
        }
        Err(DeskError::Missing) => match desk.create(part) {
            Ok(()) => Ok(Begun::Held(held(size, chunk, 0))),
            Err(error) => not_begun(refused(error)),
        },
        Err(DeskError::Failed) => Ok(Begun::Over(Answer::FileFault)),
        Err(DeskError::NoMemory) => Err(NoMemory),
    }
}
