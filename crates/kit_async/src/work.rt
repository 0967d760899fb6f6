// The roles of a kit that serves several jobs at once: what reads, what writes, and what calls a remote, each by its own pass of the
// hall of a kit's core, whatever the others do.
pub mod laws;
mod reader;
mod turn;
mod why;
mod worker;
mod writer;

pub use reader::{First, listen, read_turn};
pub use turn::Turn;
pub use why::Why;
pub use worker::{toil, work_turn};
pub use writer::{speak, write_turn};
