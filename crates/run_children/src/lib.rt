// A whole run: children are started one after the other, and each does tasks until it is gone, by one worker or by as many as there are desks.
#![tactic(auto)]

mod alone;
mod beginning;
mod bench;
pub mod laws;
pub mod pool_children;
mod pooling;
mod ready;
pub mod rows;
mod running;
mod serving;
mod setting;
mod starting;

pub use bench::Bench;
pub use running::{run_alone, run_jobs};
