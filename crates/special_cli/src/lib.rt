// The program: what its words ask for, what it prints, and its run.
#![tactic(auto)]

mod audit;
mod check;
mod closing;
mod end;
mod info;
mod init;
pub mod laws;
mod outside;
mod ran;
mod recovery;
mod rehearsal;
mod run;
mod saying;
mod telling;
mod top;
mod walking;

pub use closing::Closing;
pub use top::special;
