// The children of a mirror: a request is put to one after the other, and what the mirror says is told from their verdicts.
#![tactic(auto)]

mod asking;
mod child;
pub mod plan;
mod saying;

pub use asking::{ask_all, ask_any, ask_check};
pub use child::Child;
pub use saying::{mirror_failure, text_at};
