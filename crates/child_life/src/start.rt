// The start of a child, and its greeting: VERSION, EXTENSIONS, and PREPARE or INITREMOTE.
mod greeting;
pub mod laws;
mod starting;

pub use greeting::{Came, Greeting, Mode};
pub use starting::{greet, wait_for};
