// Copying at a desk, and checking what is copied.
mod copied;
mod kept;
mod moves;
mod range;

pub use copied::Copied;
pub use kept::resume;
pub use moves::copy_in;
pub use range::copy_out;
