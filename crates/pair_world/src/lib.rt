// The closed world: a core and kits as its children, with the pipes between them, moved step by step.
#![tactic(auto)]

pub mod laws;
mod step;
mod world;

pub use step::{Move, Moved};
pub use world::World;
