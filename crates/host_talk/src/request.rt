// The requests that a host asks of a remote, and one talk: a request and what the remote says to it.
// https://git-annex.branchable.com/design/external_special_remote_protocol/
mod answer;
pub mod laws;
mod request;
mod talk;

pub use answer::is_aside;
pub use request::{Request, extension_names};
pub use talk::{Heard, Talk};
