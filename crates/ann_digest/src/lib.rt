// Digests, hash directories, and whether content fits a key.
#![tactic(auto)]

mod checker;
mod digest;
mod directories;
mod fit;
mod hash_kind;
mod hasher;

pub use checker::Checker;
pub use digest::Digest;
pub use directories::{lower, mixed};
pub use fit::Fit;
