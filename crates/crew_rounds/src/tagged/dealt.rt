// The passes and desks of a round, dealt to its workers, and taken back.
ghost use Rattle.std.specs.Prelude.{◌≡◌, ◌≤◌, ◌+◌, ◌++◌, All, map, reverse, vec_len, vec_capacity};
ghost use Rattle.crew_rounds.specs.Tagged.Backs.{roles_of};
ghost use Rattle.crew_rounds.specs.Tagged.Sites.{IsAt};
ghost use Rattle.threads.specs.Roles.Dealing.{Deals, DealsAll, IsRoomFor};

use crate::tagged::Worker;
use ann_outside::Desk;
use crew_work::beside::Shared;
use host_core::Core;
use std::alloc::Global;
use std::sync::Wait;
use task_model::Setup;
use task_text::Task;
use threads::roles::Back;
use threads::{Hall, Pass};

/// A worker over the child that all of a round share.
pub(crate) type SharedWorker<'a, K, R> = Worker<'a, Shared<'a, R>, K, R>;

/// What the roles of a round have in common.
#[derive(Drop)]
pub(crate) struct Site<'a, R: Wait> {
    pub rt: &'a R,
    pub alloc: Global,
    pub hall: &'a Hall<Core>,
    pub tasks: &'a [Task],
    pub setup: &'a Setup,
    pub child: u32,
}

// A worker at the site.
fn worker_at<'a, K: Desk + Drop, R: Wait>(
    site: &Site<'a, R>,
    pass: Pass<Core>,
    desk: K,
) -> SharedWorker<'a, K, R>
    ensures dealt { (result.pass ≡ pass) × (result.desk ≡ desk) }
    ensures placed { IsAt site.now result }
{
    Worker {
        rt: site.rt,
        alloc: site.alloc,
        hall: site.hall,
        tasks: site.tasks,
        setup: site.setup,
        pass,
        way: Shared {
            rt: site.rt,
            child: site.child,
        },
        desk,
    }
}

/// Deals the last passes to workers, one for each desk, from the last desk on.
pub(crate) fn deal<'a, K: Desk + Drop, R: Wait>(
    site: &Site<'a, R>,
    passes: &mut Vec<Pass<Core>>,
    desks: &mut Vec<K>,
    mut workers: Vec<SharedWorker<'a, K, R>>,
) -> Vec<SharedWorker<'a, K, R>>
    requires room { IsRoomFor (vec_len desks.old) workers }
    requires many { vec_len desks.old ≤ vec_len passes.old }
    ensures passes { Deals passes.old passes.new (map (λ w. w.pass) (reverse result.items)) }
    ensures desks { DealsAll desks.old desks.new (map (λ w. w.desk) (reverse result.items)) }
    ensures count { vec_len result ≡ vec_len desks.old }
    ensures placed { All (IsAt site.now) result.items }
{
    'deals: while let Some(desk) = desks.pop() {
        let Some(pass) = passes.pop() else {
            unreachable!()
        };
        workers.push_reserved(worker_at(site, pass, desk));
    }
    workers
}

/// Takes the passes and the desks back, from the last worker on.
pub(crate) fn take_back<'a, K: Desk + Drop, R: Wait>(
    mut workers: Vec<Back<SharedWorker<'a, K, R>>>,
    passes: &mut Vec<Pass<Core>>,
    desks: &mut Vec<K>,
)
    requires passes { vec_len passes.old + vec_len workers ≤ vec_capacity passes.old }
    requires desks { vec_len desks.old + vec_len workers ≤ vec_capacity desks.old }
    ensures passes { passes.new.items ≡ passes.old.items ++ map (λ w. w.pass) (reverse (roles_of workers.entry.items)) }
    ensures desks { desks.new.items ≡ desks.old.items ++ map (λ w. w.desk) (reverse (roles_of workers.entry.items)) }
{
    'backs: while let Some(back) = workers.pop() {
        let Worker { pass, desk, .. } = back.role();
        passes.push_reserved(pass);
        desks.push_reserved(desk);
    }
}
