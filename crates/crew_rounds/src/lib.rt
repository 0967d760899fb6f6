// Rounds of workers in threads: over one tagged child, and over a pool.
#![tactic(auto)]

pub mod pool;
pub mod tagged;
