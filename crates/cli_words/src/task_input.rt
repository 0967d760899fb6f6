// The input of a run: its tasks, or the first line that is none.
mod cutting;
mod error;
pub mod laws;
mod limits;
mod lines;
mod reading;

pub use error::InputError;
pub use limits::Limits;
pub use lines::tasks_in;
pub use reading::read_tasks;
