// The entries of a journal as lines of text, both ways.
mod answers;
mod digits;
mod fields;
pub mod laws;
mod lines;
mod printing;
mod reading;
mod verdicts;
mod whys;

pub use printing::{print_entry, print_lent};
pub use reading::read_entry;
