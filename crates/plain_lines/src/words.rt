// The lines between a host and a remote in plain words: which are passed on, and how they are changed.
mod fields;
mod host;
mod laws;
mod plain;
mod question;
mod remote;

pub use laws::{other_lines_pass, worked_answers, worked_host_lines, worked_remote_lines};
pub use plain::Plain;
pub use question::Question;
