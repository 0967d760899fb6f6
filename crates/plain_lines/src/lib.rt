// What `annex-remote-plain` passes on of each line, and the loop that carries the lines of one way.
#![tactic(auto)]

pub mod carry;
pub mod words;
