//! Tests of `threads`: a small value in a hall, and rounds of roles that count their runs.
#![tactic(auto)]

pub mod crew;
pub mod hall;
