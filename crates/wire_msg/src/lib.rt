// The protocol's messages, read from lines and written as lines, both ways.
#![tactic(auto)]

pub mod fields;
mod host;
mod parameters;
mod remote;
mod said;
mod tags;

pub use host::{HostMsg, read_host, write_host};
pub use remote::{RemoteMsg, read_remote};
pub use said::{text_of, write_remote};
pub use tags::{tag, untag};
