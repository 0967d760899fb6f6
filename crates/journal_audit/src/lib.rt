// Says of a journal whether it is legal, by making it again entry by entry.
#![tactic(auto)]

mod equal;
mod events;
mod found;
mod kind;
pub mod laws;
mod replay;
mod requests;

pub use found::{Audit, Misplaced};
pub use replay::{Replayed, audit, make_again};
