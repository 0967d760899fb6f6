// The walk: the tasks of a rehearsal, done in a closed world of four children by moves that a seed chooses.
pub mod laws;
mod sums;
mod walked;
mod walks;
mod worker;

pub use walked::Walk;
pub use walks::walk;
