// What a child that was greeted came to: whether it is ready, and the answer of a task that finds one that isn't.
ghost use Rattle.std.specs.Prelude.{◌≡◌, ◌&&◌, Some, is_some, option_map, true};
ghost use Rattle.journal_model.specs.declared.answer.Answer.TheVariants.{NotPrepared};
ghost use Rattle.task_model.specs.TaskRuns.{refused_at};
ghost use Rattle.run_starts.specs.Stints.{came_answer, tagged_of};

use child_life::start::Came;
use journal_model::{Answer, Verdict};

// The answer where a line refused to get ready, with that line's place.
fn not_prepared(verdict: Verdict) -> Answer
    requires { is_some (refused_at verdict) ≡ true }
    ensures { Some result ≡ option_map NotPrepared (refused_at verdict) }
{
    match verdict {
        Verdict::Failed { at } | Verdict::Unsupported { at } => Answer::NotPrepared { at },
        _ => unreachable!(),
    }
}

/// Whether the child is ready, and then whether it takes tags.
pub fn tagged_of(came: Came) -> Option<bool>
    ensures { result ≡ tagged_of came }
{
    match came {
        Came::Ready { tagged } => Some(tagged),
        _ => None,
    }
}

/// The answer of a task that finds a child that isn't ready.
pub fn unready_answer(came: Came) -> Answer
    requires { is_some (came_answer came) ≡ true }
    ensures { Some result ≡ came_answer came }
{
    match came {
        Came::Ready { .. } => unreachable!(),
        Came::Refused { verdict } => not_prepared(verdict),
        Came::Ended { why } => Answer::Ended { why },
        Came::Unsent => Answer::Unsent,
    }
}

/// Whether ASYNC is offered after a child that is ready, tagged or not.
pub fn is_offered(offer: bool, tagged: bool) -> bool
    ensures { result ≡ (offer && tagged) }
{
    offer && tagged
}
