//! What is known of a run by its text, which may be cut off: its answers so far, and what would be kept.
mod keeping;
mod made;
mod recovering;
mod text;

pub use made::{KeptEnd, RecoverEnd, Recovered};
pub use recovering::recover;
