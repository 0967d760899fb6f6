// Roles over the core of a hall: an ear, a mouth and askers in threads of their own.
mod hall_door;
mod job;
mod passes;

pub use hall_door::HallDoor;
pub use job::ask_job;
pub use passes::{run_ear, run_mouth};
