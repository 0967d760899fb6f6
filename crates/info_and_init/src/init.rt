// Setting a remote up: what that begins with, what its one child is asked, and what is kept.
mod asking;
mod beginning;
mod doing;
pub mod laws;
mod made;
mod setup;

pub use doing::set_up;
pub use made::{InitEnd, InitMade};
