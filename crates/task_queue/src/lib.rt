// Which task is claimed next, found without going through all that wait.
#![tactic(auto)]

mod alike;
mod groups;
mod handing;
mod lists;
mod marks;
mod queue;

pub use queue::Queue;
