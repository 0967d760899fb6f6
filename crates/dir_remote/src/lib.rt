// A remote that keeps the contents of keys in a directory, over any desk.
#![tactic(auto)]

mod copying;
mod describing;
pub mod guard;
pub mod laws;
mod outcome;
mod places;
mod remote;
mod works;

pub use places::is_mark;
pub use remote::DirRemote;
