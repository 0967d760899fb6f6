// What the words of a remote's program ask for, and how the texts that they ask for are printed.
mod printing;
mod wish;

pub use printing::print;
pub use wish::{Wish, read_wish, wish_of};
