// What is printed of a run.
mod output;

pub use output::{print_answer, print_words};
