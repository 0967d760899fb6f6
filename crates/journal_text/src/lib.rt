// The journal of a run as text: its entries, its lines, its answers, and the journal file.
#![tactic(auto)]

pub mod answers;
pub mod entries;
pub mod file;
pub mod lines;
