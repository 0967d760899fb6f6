// How one task asks its child, and notes what it has, through a door of the core; and what a worker does: one turn, which claims, runs
// and answers a task, and the whole of a worker that is alone.
mod books;
mod claims;
pub mod laws;
mod links;
mod lone_asker;
mod notes;
mod task;
mod turns;
mod way;

pub use books::know_book;
pub use links::ask_by_link;
pub use lone_asker::LoneAsker;
pub use notes::{layouts, note};
pub use turns::{take_turn, work_alone};
pub use way::Way;
