// The life of one child: its start and greeting, its end, and what is left of the children of a run.
#![tactic(auto)]

pub mod end;
pub mod start;
