// A mirror: a special remote that keeps each content in up to eight other remotes, whose programs it starts and talks to as a host.
// https://git-annex.branchable.com/design/external_special_remote_protocol/
#![tactic(auto)]

mod describing;
mod lasting;
pub mod laws;
mod mirror;
mod requests;
pub mod starts;
mod unready;

pub use lasting::LastingMirror;
pub use mirror::{Ended, MirrorRemote};
pub use unready::unready_text;
