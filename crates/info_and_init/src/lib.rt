// The commands `info` and `init`: one child is started, and asked about itself or set up.
#![tactic(auto)]

pub mod info;
pub mod init;
