use ann_outside::Desk;
use host_core::Core;

/// What the tasks of a run are done with, and what goes from one round to the next: the core, and a desk for each worker.
#[derive(Drop)]
pub struct Bench<K: Desk + Drop> {
    pub core: Core,
    pub desks: Vec<K>,
}
