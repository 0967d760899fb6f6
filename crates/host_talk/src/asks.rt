// What a remote is answered when it asks its host for something, and what it sets.
mod directories;
mod lines;
mod replies;
mod serving;
mod setting;

pub use replies::Replies;
pub use serving::{replies_to, serve, set};
