//! Serves remotes to a host that tags its lines (ASYNC): several jobs at once, each remote in a thread of its own.
//! <https://git-annex.branchable.com/design/external_special_remote_protocol/async_appendix/>
#![tactic(auto)]

mod alone;
mod dealt;
mod journal;
pub mod laws;
mod lent;
mod played;
mod roles;
mod serving;
mod timed;
mod why;
pub mod work;

pub use journal::{GoneJournal, KitJournal};
pub use lent::KitEntry;
pub use serving::{
    AsyncEnd, BoundedEnd, serve_async, serve_async_bounded, serve_async_described,
    serve_async_described_bounded, serve_async_described_timed, serve_async_some,
};
pub use timed::{Timed, Untimed};
pub use why::Why;
