// A child of the closed world: its kit, the pipes between it and the host, and what all kits share.
#![tactic(auto)]

mod answer;
mod cue;
mod pair;
mod pipe;
mod shelf;
mod taken;
mod work;

pub use answer::Answer;
pub use pair::Pair;
pub use shelf::Shelf;
pub use taken::Taken;
pub use work::Work;
