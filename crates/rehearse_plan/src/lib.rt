// What a rehearsal does: its tasks, the contents of its keys, what its run begins with, and how its answers are counted.
#![tactic(auto)]

mod files;
pub mod laws;
mod opening;
mod tally;
mod tasks;

pub use files::{content_for, files_of};
pub use opening::opening_of;
pub use tally::{Word, count_of, print_counts};
pub use tasks::{MOST_TASKS, tasks_of};
