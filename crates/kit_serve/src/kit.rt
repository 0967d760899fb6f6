// The remote's side of the protocol: what a remote is, and the kit that lets one be served to a host.
// https://git-annex.branchable.com/design/external_special_remote_protocol/
mod asides;
mod call;
mod describe;
mod finals;
mod kit;
pub mod laws;
mod lists;
mod noted;
mod remote;

pub use asides::{aside, unsupported};
pub use call::{Asked, Call, Said, first_line};
pub use describe::{Availability, Describe, Pair, Where};
pub use finals::{failed, final_lines};
pub use kit::{Kit, Step};
pub use lists::{Lines, Pairs, Values};
pub use noted::Noted;
pub use remote::Remote;
