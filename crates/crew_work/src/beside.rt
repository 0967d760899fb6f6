// A worker over a core that other threads step too: it takes turns, and rests while others hold what is left.
mod job_asker;
pub mod laws;
mod passes;
mod turns;
mod way;

pub use job_asker::JobAsker;
pub use passes::{Site, run_worker};
pub use turns::work;
pub use way::Shared;
