// The children of a pool: after a child that is ready without tags, one more is started in each slot.
mod pool;
mod starting;

pub use pool::{Gathering, Pool, Seat};
pub use starting::gather;
