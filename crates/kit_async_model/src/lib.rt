//! The journal of a kit that serves several jobs at once to a host that tags its lines (ASYNC): which journals it may have, and what its
//! open jobs are, by what was heard, called and said. No journal is written here.
//! <https://git-annex.branchable.com/design/external_special_remote_protocol/async_appendix/>
#![tactic(auto)]

mod about;
pub mod due;
mod entries;
mod entry;
mod event;
pub mod hearing;
mod job;
pub mod jobs;
pub mod laws;
pub mod meaning;
mod past;
mod setup;

pub use about::{About, Fact, Facts};
pub use entries::Entries;
pub use entry::Entry;
pub use event::{Event, Reply};
pub use job::Job;
pub use past::Past;
pub use setup::Setup;
