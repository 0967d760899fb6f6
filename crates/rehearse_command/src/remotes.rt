// The remotes of a rehearsal.
use ann_key::NoMemory;
use ann_outside::Desks;
use dir_remote::DirRemote;
use kit_memory::Maker;
use shared_desks::{SharedDesk, SharedDesks};
use std::alloc::Global;
use std::marker::{Send, Sync};
use std::sync::Wait;

/// Makes directory remotes over the files that all desks share.
#[derive(Drop)]
pub(crate) struct Remotes<R> {
    alloc: Global,
    desks: SharedDesks<R>,
}

impl<R: Wait + Clone + Drop + Send> Remotes<R> {
    /// Remotes over these desks.
    pub(crate) fn new(alloc: Global, desks: SharedDesks<R>) -> Remotes<R> {
        Remotes { alloc, desks }
    }
}

impl<R: Wait + Clone + Drop + Send + Sync> Maker for Remotes<R> {
    type Remote = DirRemote<SharedDesk<R>>;

    fn make(&mut self) -> Result<DirRemote<SharedDesk<R>>, NoMemory> {
        let desk = self.desks.desk(0)?;
        Ok(DirRemote::new(self.alloc, desk))
    }
}
