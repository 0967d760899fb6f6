// The command `check`: a run of one task, by one worker, over one child that is started once.
mod checking;
mod made;
mod opening;
mod preparing;

pub use checking::do_check;
pub use made::{CheckEnd, CheckMade};
