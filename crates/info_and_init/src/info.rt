// What a remote says of itself: its one child is started and asked the questions, and what is printed of its answers.
mod asking;
mod doing;
mod informed;
mod interview;
pub mod laws;
mod made;
mod printing;
mod questions;
mod telling;
mod words;

pub use doing::inform;
pub use informed::is_informed;
pub use made::{InfoEnd, InfoMade};
pub use printing::print_info;
