// A rehearsal in a closed world: the walk that a seed gives, the answers of its tasks, and the audit of its journal.
mod made;
mod walking;

pub use made::{WalkEnd, WalkMade};
pub use walking::walk_tasks;
