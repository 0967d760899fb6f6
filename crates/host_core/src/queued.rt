// The queue of the tasks: asked where an event claims one, and told of each group.
ghost use Rattle.std.specs.Prelude.{ℕ, ◌≡◌, List};
ghost use Rattle.journal_model.specs.declared.entry.Entry.{Entry};
ghost use Rattle.journal_model.specs.declared.opening.Opening.{Opening};
ghost use Rattle.journal_model.specs.Legality.{least_free};
ghost use Rattle.host_core.specs.declared.event.Event.TheVariants.{Claim as ClaimEvent};
ghost use Rattle.task_queue.specs.Queues.{HasRoom, IsOf, IsOrdered, IsQueued};
ghost use Rattle.host_core.specs.Queued.{IsNextIn, IsTurnedIn};

use crate::event::Event;
use journal_model::{Opening, What};
use task_queue::Queue;

/// The first task that is free, where the event claims one. It takes no memory.
pub(super) fn free_task(queue: &mut Queue, opening: &Opening, event: &Event) -> Option<u32>
    requires ordered { IsOrdered queue.old }
    requires fits { IsOf opening.now queue.old }
    ensures free { (past : List Entry) (child : ℕ) → IsQueued opening.now past queue.old → event.now ≡ ClaimEvent child → result ≡ least_free opening.now past }
    ensures kept { (past : List Entry) → IsQueued opening.now past queue.old → IsQueued opening.now past queue.new }
{
    match event {
        Event::Claim { .. } => queue.first_free(opening),
        _ => None,
    }
}

/// Notes the first entry of a group. It takes no memory.
pub(super) fn note(queue: &mut Queue, what: &Option<What>)
    requires ordered { IsOrdered queue.old }
    requires room { HasRoom queue.old }
    requires next { IsNextIn what.now queue.old }
    ensures { (o : Opening) (past after : List Entry) → IsTurnedIn past what.now after → IsQueued o past queue.old → IsQueued o after queue.new }
{
    match what {
        Some(what) => queue.note(what),
        None => {}
    }
}
