// The answers of a run's tasks, as its journal has them.
#![tactic(auto)]

mod answers;

pub use answers::{answers_by_task, answers_given, answers_in, answers_of};
