// The core of a run: a journal that stays legal, one event at a time.
#![tactic(auto)]

mod due;
mod event;
mod group;
mod keeping;
pub mod laws;
mod lines;
mod machine;
mod moves;
mod queued;
mod requests;
mod runs;
mod serving;
mod shared;
mod talks;
mod waits;

pub use event::{Event, Reply};
pub use journal_look::{EntryRef, Journal, WhatRef};
pub use journal_model::{Answer, Entry, Final, Identity, Opening, Verdict, What, Why};
pub use machine::Core;
