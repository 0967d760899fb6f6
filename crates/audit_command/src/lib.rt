//! The text of a run, line by line: an audit of its journal, and what is recovered of it.
#![tactic(auto)]

mod error;
mod intake;
pub mod laws;
mod limits;
mod lines;
mod reading;
pub mod recover;

pub use error::AuditError;
pub use limits::Limits;
pub use reading::audit_input;
