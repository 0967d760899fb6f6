// A directory remote as it is served: it looks whether its directory is there, and touches nothing where it isn't.
mod gates;
mod guarded;
mod keeping;
pub mod laws;
mod left;
mod mem_place;
mod place;
mod real;
mod sentences;
mod sweeping;

pub use gates::Gate;
pub use guarded::Guarded;
pub use left::is_left;
pub use mem_place::{MemFile, MemPlace};
pub use place::{Names, Place, Seen, Step, Want, What};
pub use real::OsPlace;
pub use sweeping::sweep;
