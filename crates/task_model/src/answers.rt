// The answers that verdicts, lengths and refusals of the desk give.
ghost use Rattle.std.specs.Prelude.{◌≡◌, Some, true, is_some};
ghost use Rattle.task_model.specs.Ran.{undone_answer, change_answer, refusal};
ghost use Rattle.task_model.specs.Stops.{is_done_at};
ghost use Rattle.task_model.specs.Stores.{is_size};

use ann_key::NoMemory;
use ann_outside::DeskError;
use journal_model::{Answer, Verdict};

/// Whether the request was done.
pub fn is_done(verdict: Verdict) -> bool
    ensures { result ≡ is_done_at verdict }
{
    match verdict {
        Verdict::Done { .. } => true,
        _ => false,
    }
}

/// The answer of a store, a get or a drop whose last request wasn't done.
pub fn undone_answer(verdict: Verdict) -> Answer
    requires { is_some (undone_answer verdict) ≡ true }
    ensures { Some result ≡ undone_answer verdict }
{
    match verdict {
        Verdict::Failed { at } => Answer::Failed { at },
        Verdict::Unsupported { .. } => Answer::Unsupported,
        Verdict::Ended { why } => Answer::Ended { why },
        Verdict::Unsent => Answer::Unsent,
        Verdict::Done { .. } | Verdict::Absent { .. } | Verdict::Unknown { .. } => unreachable!(),
    }
}

/// The answer of a store or a drop whose one request was settled so.
pub fn change_answer(success: Answer, verdict: Verdict) -> Answer
    requires { is_some (change_answer success verdict) ≡ true }
    ensures { Some result ≡ change_answer success verdict }
{
    match verdict {
        Verdict::Done { .. } => success,
        _ => undone_answer(verdict),
    }
}

/// Whether so many bytes are as many as the size says, where there is one.
pub fn is_size(size: Option<u64>, n: u64) -> bool
    ensures { result ≡ is_size size n }
{
    match size {
        Some(size) => n == size,
        None => true,
    }
}

/// The answer of a task that a call of its desk ended.
pub fn refused(error: DeskError) -> Result<Answer, NoMemory>
    ensures { result ≡ refusal error }
{
    match error {
        DeskError::Failed => Ok(Answer::FileFault),
        DeskError::Missing => Ok(Answer::NoFile),
        DeskError::NoMemory => Err(NoMemory),
    }
}
