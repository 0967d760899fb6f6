// Carries the lines between a host and a remote in plain words: one loop for each way, over a machine that both share.
mod carrying;
mod end;
mod way;
mod writing;

pub use carrying::{LONGEST_LINE, READ_SIZE, carry};
pub use end::End;
pub use way::{FromHost, FromRemote, Way};
