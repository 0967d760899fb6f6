// What the host makes of a line of its remote: one request with what is heard of it, and what a remote that asks is answered.
#![tactic(auto)]

pub mod asks;
pub mod request;
