// The whole of a run: what it begins with, its tasks, by as many workers as the words say, and what is kept of it.
mod beginning;
mod doing;
mod keeping;
mod made;
mod rounds;
mod setting;

pub use doing::do_tasks;
pub use made::{Made, RunEnd};
