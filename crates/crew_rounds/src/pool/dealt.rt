// The passes, links and desks of a round, dealt to its workers, and taken back.
ghost use Rattle.std.specs.Prelude.{◌≡◌, ◌≤◌, ◌+◌, ◌++◌, All, map, reverse, vec_len, vec_capacity};
ghost use Rattle.crew_rounds.specs.Pool.Sites.{IsAt};
ghost use Rattle.crew_rounds.specs.Tagged.Backs.{roles_of};
ghost use Rattle.threads.specs.Roles.Dealing.{Deals, DealsAll, IsRoomFor};

use crate::tagged::Worker;
use ann_outside::{Desk, Sink, Source};
use child_link::Lone;
use crew_work::beside::Site;
use host_core::Core;
use std::sync::Wait;
use threads::Pass;
use threads::roles::Back;

/// A worker that has its child for itself.
pub(crate) type LoneWorker<'a, I, O, K, R> = Worker<'a, Lone<I, O>, K, R>;

// A worker at the site.
fn worker_at<'a, I: Sink, O: Source, K: Desk + Drop, R: Wait>(
    site: &Site<'a, R>,
    pass: Pass<Core>,
    link: Lone<I, O>,
    desk: K,
) -> LoneWorker<'a, I, O, K, R>
    ensures dealt { (result.pass ≡ pass) × (result.way ≡ link) × (result.desk ≡ desk) }
    ensures placed { IsAt site.now result }
{
    Worker {
        rt: site.rt,
        alloc: site.alloc,
        hall: site.hall,
        tasks: site.tasks,
        setup: site.setup,
        pass,
        way: link,
        desk,
    }
}

/// Deals the last passes to workers, one for each link and desk, from the last of them on.
pub(crate) fn deal<'a, I: Sink, O: Source, K: Desk + Drop, R: Wait>(
    site: &Site<'a, R>,
    passes: &mut Vec<Pass<Core>>,
    links: &mut Vec<Lone<I, O>>,
    desks: &mut Vec<K>,
    mut workers: Vec<LoneWorker<'a, I, O, K, R>>,
) -> Vec<LoneWorker<'a, I, O, K, R>>
    requires room { IsRoomFor (vec_len desks.old) workers }
    requires many { (vec_len links.old ≡ vec_len desks.old) × (vec_len desks.old ≤ vec_len passes.old) }
    ensures passes { Deals passes.old passes.new (map (λ w. w.pass) (reverse result.items)) }
    ensures links { DealsAll links.old links.new (map (λ w. w.way) (reverse result.items)) }
    ensures desks { DealsAll desks.old desks.new (map (λ w. w.desk) (reverse result.items)) }
    ensures count { vec_len result ≡ vec_len desks.old }
    ensures placed { All (IsAt site.now) result.items }
{
    'deals: while let Some(desk) = desks.pop() {
        let Some(pass) = passes.pop() else {
            unreachable!()
        };
        let Some(link) = links.pop() else {
            unreachable!()
        };
        workers.push_reserved(worker_at(site, pass, link, desk));
    }
    workers
}

/// Takes the passes, links and desks back, from the last worker on.
pub(crate) fn take_back<'a, I: Sink + Drop, O: Source + Drop, K: Desk + Drop, R: Wait>(
    mut workers: Vec<Back<LoneWorker<'a, I, O, K, R>>>,
    passes: &mut Vec<Pass<Core>>,
    links: &mut Vec<Lone<I, O>>,
    desks: &mut Vec<K>,
)
    requires passes { vec_len passes.old + vec_len workers ≤ vec_capacity passes.old }
    requires links { vec_len links.old + vec_len workers ≤ vec_capacity links.old }
    requires desks { vec_len desks.old + vec_len workers ≤ vec_capacity desks.old }
    ensures passes { passes.new.items ≡ passes.old.items ++ map (λ w. w.pass) (reverse (roles_of workers.entry.items)) }
    ensures links { links.new.items ≡ links.old.items ++ map (λ w. w.way) (reverse (roles_of workers.entry.items)) }
    ensures desks { desks.new.items ≡ desks.old.items ++ map (λ w. w.desk) (reverse (roles_of workers.entry.items)) }
{
    'backs: while let Some(back) = workers.pop() {
        let Worker {
            pass,
            way: link,
            desk,
            ..
        } = back.role();
        passes.push_reserved(pass);
        links.push_reserved(link);
        desks.push_reserved(desk);
    }
}
