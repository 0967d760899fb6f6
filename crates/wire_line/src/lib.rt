// Splits bytes, as they come in pieces, into lines.
#![tactic(auto)]

mod splitter;

pub use splitter::{Next, Splitter};
