// The end of a child, and what is left of the children of a run.
mod ending;

pub use ending::{close_child, finish, journal_of};
