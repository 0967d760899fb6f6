// The kept file: what a run hands on to the next one, as text.
mod error;
mod kept;
pub mod laws;
mod order;
mod reading;
mod writing;

pub use error::KeepError;
pub use order::{comes_before, is_written_line};
pub use reading::read_keep;
pub use writing::{note_line, register_line, write_keep};
