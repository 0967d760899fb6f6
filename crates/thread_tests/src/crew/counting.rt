use std::sync::atomic::{AtomicU64, Ordering};
use threads::roles::Role;

/// A role that counts its run in a number which all share.
#[derive(Drop)]
pub struct Counting<'a> {
    pub runs: &'a AtomicU64,
}

impl<'a> Role for Counting<'a> {
    ghost can_run = { λ _. Unit {0} };

    ghost ran = { λ _ _. Unit {0} };

    fn run(self) -> Self {
        self.runs.fetch_add(1, Ordering::SeqCst);
        self
    }
}
