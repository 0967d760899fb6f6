//! Tests of the kit over public calls: a remote that speaks while it is called, and kits as the children that a host starts.
#![tactic(auto)]

mod empty;
#[cfg(test)]
mod programs;
#[cfg(test)]
mod telling;

pub use empty::Empty;
