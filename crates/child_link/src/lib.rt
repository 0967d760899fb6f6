// The link to one child: what is read of it goes to the core line by line, and what the core has for it is written.
#![tactic(auto)]

mod alone;
mod door;
mod ear;
pub mod events;
pub mod hall;
pub mod laws;
mod lone;
mod mouth;
mod wire;

pub use door::{Door, OwnDoor};
pub use ear::{Ear, Turn};
pub use lone::Lone;
pub use mouth::Mouth;
pub use wire::Wire;
