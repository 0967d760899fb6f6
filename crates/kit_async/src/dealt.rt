// The passes and the remotes of a kit, dealt to its workers, and taken back.
ghost use Rattle.std.specs.Prelude.{◌≡◌, ◌≤◌, ◌<◌, ◌+◌, ◌^◌, ◌++◌, map, reverse, vec_len, vec_capacity};
ghost use Rattle.threads.specs.Roles.Dealing.{Deals, DealsAll, IsRoomFor};
ghost use Rattle.kit_async.specs.Dealt.{WorkersBegin};

use crate::roles::Worker;
use kit_async_core::KitCore;
use kit_serve::kit::Remote;
use std::alloc::Global;
use std::sync::Wait;
use threads::{Hall, Pass};

/// What the roles of a kit have in common.
#[derive(Drop)]
pub(crate) struct Site<'a, R: Wait> {
    pub(crate) rt: &'a R,
    pub(crate) alloc: Global,
    pub(crate) hall: &'a Hall<KitCore>,
}

// A worker at the site.
fn worker_at<'a, K: Remote + Drop, R: Wait>(
    site: &Site<'a, R>,
    pass: Pass<KitCore>,
    number: u32,
    remote: K,
) -> Worker<'a, K, R>
    ensures dealt { (result.pass ≡ pass) × (result.remote ≡ remote) }
    ensures placed { (result.hall.now ≡ site.now.hall.now) × (result.number ≡ number) }
{
    Worker {
        rt: site.rt,
        hall: site.hall,
        pass,
        number,
        remote,
    }
}

/// Deals the last passes to workers, one for each remote, from the last remote on.
pub(crate) fn deal<'a, K: Remote + Drop, R: Wait>(
    site: &Site<'a, R>,
    passes: &mut Vec<Pass<KitCore>>,
    remotes: &mut Vec<K>,
    mut workers: Vec<Worker<'a, K, R>>,
) -> Vec<Worker<'a, K, R>>
    requires room { IsRoomFor (vec_len remotes.old) workers }
    requires many { (vec_len remotes.old ≤ vec_len passes.old) × (vec_len remotes.old < 2 ^ 32) }
    ensures passes { Deals passes.old passes.new (map (λ w. w.pass) (reverse result.items)) }
    ensures remotes { DealsAll remotes.old remotes.new (map (λ w. w.remote) (reverse result.items)) }
    ensures count { vec_len result ≡ vec_len remotes.old }
    ensures workers { WorkersBegin site.now.hall.now result.items }
{
    'deals: while let Some(remote) = remotes.pop() {
        let Some(pass) = passes.pop() else {
            unreachable!()
        };
        let number = remotes.len() as u32;
        workers.push_reserved(worker_at(site, pass, number, remote));
    }
    workers
}

/// Takes the passes and the remotes back, from the last worker on.
pub(crate) fn take_back<'a, K: Remote + Drop, R: Wait>(
    mut workers: Vec<Worker<'a, K, R>>,
    passes: &mut Vec<Pass<KitCore>>,
    remotes: &mut Vec<K>,
)
    requires passes { vec_len passes.old + vec_len workers ≤ vec_capacity passes.old }
    requires remotes { vec_len remotes.old + vec_len workers ≤ vec_capacity remotes.old }
    ensures passes { passes.new.items ≡ passes.old.items ++ map (λ w. w.pass) (reverse workers.entry.items) }
    ensures remotes { remotes.new.items ≡ remotes.old.items ++ map (λ w. w.remote) (reverse workers.entry.items) }
{
    'backs: while let Some(worker) = workers.pop() {
        let Worker { pass, remote, .. } = worker;
        passes.push_reserved(pass);
        remotes.push_reserved(remote);
    }
}
