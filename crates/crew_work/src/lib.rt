// What a worker does: one turn, alone and beside others, and the laws of what a round of workers leaves.
#![tactic(auto)]

pub mod beside;
pub mod laws;
pub mod worker;
