ghost use Rattle.std.specs.Prelude.{◌≡◌, Some, true, is_some};
ghost use Rattle.task_model.specs.TaskRuns.{check_answer};

use journal_model::{Answer, Verdict};

/// The answer of a check whose request was settled so. No line says of a check that it failed.
pub fn check_answer(verdict: Verdict) -> Answer
    requires { is_some (check_answer verdict) ≡ true }
    ensures { Some result ≡ check_answer verdict }
{
    match verdict {
        Verdict::Done { .. } => Answer::Present,
        Verdict::Absent { .. } => Answer::Absent,
        Verdict::Unknown { at } => Answer::Unknown { at },
        Verdict::Unsupported { .. } => Answer::Unsupported,
        Verdict::Ended { why } => Answer::Ended { why },
        Verdict::Unsent | Verdict::Failed { .. } => Answer::Unsent,
    }
}
