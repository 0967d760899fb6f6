// The text of a run: its opening and its journal, line by line.
mod printing;

pub use printing::{Kept, print_kept, print_line};
