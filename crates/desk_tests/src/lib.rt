//! Tests over desks: their calls, tasks whose calls fail, and what errors print.
#![tactic(auto)]

pub mod outside;
pub mod tasks;
pub mod texts;
