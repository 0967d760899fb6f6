// The journal of a run: what it keeps, which journals are legal, and what they mean.
#![tactic(auto)]

pub mod again_laws;
mod answer;
mod entry;
pub mod half_laws;
mod holder;
pub mod laws;
pub mod lead_laws;
pub mod name_laws;
pub mod note_laws;
mod opening;
pub mod opening_laws;
pub mod register_laws;
pub mod reply_laws;
pub mod task_laws;
mod verdict;

pub use annex_model::Final;
pub use answer::Answer;
pub use entry::{Entry, What};
pub use holder::Holder;
pub use opening::{Identity, Opening};
pub use verdict::{Verdict, Why};
