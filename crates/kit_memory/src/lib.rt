// Kits in memory, as the children of a host: for tests and rehearsals.
#![tactic(auto)]

mod chatty;
mod child;
mod feed;
mod pipe;
mod programs;

pub use pipe::PipeInlet;
pub use programs::{KitOutlet, KitPrograms, KitStub, Maker};
