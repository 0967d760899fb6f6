// Which chunks a remote is known to have.
mod book;
mod current;
mod error;
mod insert;
mod key_text;
mod laws;
mod layouts;
mod line;
mod note;
mod order;
mod parts;
mod scan;
mod stamp;
mod standing;
mod written;

pub use book::NoteBook;
pub use error::ChunkError;
pub use layouts::Layouts;
pub use line::{ChunkLine, read_line};
pub use note::Note;
pub use stamp::Stamp;
pub use written::write_line;
