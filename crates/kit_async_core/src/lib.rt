//! The core of a kit that serves several jobs at once to a host that tags its lines (ASYNC): what may be heard, worked on and said.
//! <https://git-annex.branchable.com/design/external_special_remote_protocol/async_appendix/>
#![tactic(auto)]

mod book;
mod hear;
pub mod laws;
mod lines;
mod machine;
mod shared;
mod work;

pub use machine::{KitCore, READER, WRITER};
