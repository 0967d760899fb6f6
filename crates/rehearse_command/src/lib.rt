// A rehearsal: the run that a seed gives, over remotes in memory, and the audit of its journal.
#![tactic(auto)]

mod made;
mod ready;
mod rehearsing;
mod remotes;
pub mod walk;
pub mod world;

pub use made::{RehearsalEnd, Rehearsed};
pub use rehearsing::rehearse;
