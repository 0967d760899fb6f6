// The entries of a journal: kept as records of one size, with their lines in one store; lent one by one; and what they say, found by
// going through them.
#![tactic(auto)]

pub mod children;
pub mod claims;
pub mod conflicts;
mod entries;
mod entry;
pub mod lines;
mod record;
mod records;
pub mod spans;
pub mod tables;
pub mod talks;

pub use entries::{Entries, Iter};
pub use entry::{EntryRef, WhatRef};
pub use records::Records;
