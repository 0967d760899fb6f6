// The journal file of a run.
mod writing;

pub use writing::{JournalWritten, write_journal};
