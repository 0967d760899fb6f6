// What the tasks of a run ask, do and answer, and what all of them share.
#![tactic(auto)]

pub mod answers;
pub mod ask;
mod asker;
mod check;
pub mod copying;
pub mod export_laws;
pub mod laws;
pub mod names;
pub mod run_laws;
mod setup;
mod turn;

pub use asker::Asker;
pub use check::check_answer;
pub use setup::Setup;
pub use turn::TaskTurn;
