// A desk's file as one text: reading all of it, and putting another text in its place.
mod reading;
mod writing;

pub use reading::{FileRead, read_file};
pub use writing::replace_file;
