// The children of a mirror: they are started, one for each plan, and stopped.
mod beginning;
mod opening;
mod starting;
mod stopped;

pub use starting::{Standing, start_all};
pub use stopped::{Stopped, stop_all};
