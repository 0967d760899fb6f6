//! The settings that a special remote makes and asks for.
#![tactic(auto)]

pub mod laws;
mod line;
mod links;
mod logins;
mod registers;
mod table;

pub use line::RegLine;
pub use registers::Registers;
