// What the settings of a mirror ask for: programs, and what is set of the remotes that they serve.
pub mod laws;
mod plan;

pub use plan::{Plan, Plans, read_plans};
