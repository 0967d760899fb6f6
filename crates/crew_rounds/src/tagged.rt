// A round: its roles are dealt the passes of a hall over the core, run in threads, and are taken back when it is over.
mod dealt;
mod ear;
pub mod laws;
mod mouth;
mod outcome;
mod played;
mod tagged;
mod worker;

pub use ear::EarRole;
pub use mouth::MouthRole;
pub use outcome::Outcome;
pub use tagged::{Starter, TaggedRound, round_tagged, round_tagged_some};
pub use worker::Worker;
