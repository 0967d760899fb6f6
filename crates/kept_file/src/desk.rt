// The kept file at a desk: what it hands on, and putting another one in its place.
mod reading;
mod writing;

pub use reading::{KeptRead, read_kept};
pub use writing::{KeptWritten, write_kept};

/// How many bytes a kept file may have.
pub const MOST_BYTES: usize = 268_435_456;
