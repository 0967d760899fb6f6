// The kept file, which a run hands on to the next one: as text, and at a desk.
#![tactic(auto)]

pub mod desk;
pub mod text;
