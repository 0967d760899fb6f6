// One task of any work.
#![tactic(auto)]

mod check_layouts;
mod drop_layouts;
mod exports;
pub mod get;
mod layouts;
mod run;
pub mod store;

pub use run::run_task;
