//! Reading the text of a run, line by line.
#![tactic(auto)]

mod entries;
mod error;
mod fields;
mod finish;
mod first;
mod given;
mod kinds;
pub mod laws;
mod place;
mod reader;
mod typed;

pub use error::JournalError;
pub use place::Place;
pub use reader::Reader;
