// The parts of a run: what a child that was greeted came to, the tasks that are done over one that is ready, and those that are answered
// without a child.
#![tactic(auto)]

mod coming;
pub mod once;
mod plan;
mod renewed;
mod serving;
mod starved;
pub mod task_laws;
mod zero;

pub use coming::{is_offered, tagged_of, unready_answer};
pub use plan::Plan;
pub use serving::{serve, turn_away};
pub use zero::{answer_left, answer_one};
