// The commands `run` and `check`.
#![tactic(auto)]

pub mod check;
pub mod run;
