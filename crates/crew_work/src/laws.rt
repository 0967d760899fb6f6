// The laws of rounds: what each role of a round promises of its own pass gives what stands when the round is over.
pub mod laws;
mod meaning;
pub mod runs;
pub mod worked;

pub use meaning::Meaning;
