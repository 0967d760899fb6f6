//! A lock with a history: many passes act on one value in turns, and the value's history says what each of them did.
#![tactic(auto)]

mod hall;
mod held;
pub mod roles;
mod steps;
mod view;

pub use hall::{Hall, Pass};
pub use held::Held;
pub use view::Link;
