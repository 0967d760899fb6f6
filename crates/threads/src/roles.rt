// A round of threads: each role is started in a thread where one can be made, none takes its first step before it is known which
// were, and each comes back as its run left it.
mod back;
mod crew;
mod gate;
mod pool;
mod role;
mod room;
mod slot;

pub use back::{Back, any_ran};
pub use crew::{Crew, run_crew, run_whole_crew};
pub use pool::run_workers;
pub use role::{RanFrom, Role};
pub use room::Room;
pub use slot::Refused;
