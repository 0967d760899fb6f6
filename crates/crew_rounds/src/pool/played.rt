// The workers of a round over a pool: they are made, run in threads and taken apart again.
ghost use Rattle.std.specs.Prelude.{◌≡◌, ◌≤◌, ◌+◌, ◌∷◌, All, IfSome, length, map, reverse, vec_len};
ghost use Rattle.std.specs.List.{list_any};
ghost use Rattle.threads.specs.Roles.BackRole.{has_run};
ghost use Rattle.threads.specs.Roles.Dealing.{IsRoomFor};
ghost use Rattle.crew_rounds.specs.Tagged.Backs.{roles_of};
ghost use Rattle.crew_rounds.specs.Tagged.Outcomes.{IfDone, IfKept};
ghost use Rattle.crew_rounds.specs.Tagged.Tagged.{link_of};
ghost use Rattle.threads.specs.Passes.{IsPassOf};
ghost use Rattle.crew_rounds.specs.Pool.Left.{MayPlay, PoolLeft, done_if};
ghost use Rattle.crew_rounds.specs.Pool.Pool.{AreAsBefore, AreSameLinks};
ghost use Rattle.crew_rounds.specs.Pool.Sites.{IsAt};

use crate::pool::dealt::{LoneWorker, deal, take_back};
use crate::tagged::Outcome;
use ann_outside::{Desk, Sink, Source};
use child_link::Lone;
use crew_work::beside::Site;
use host_core::Core;
use std::alloc::Global;
use std::marker::{Send, Sync};
use std::sync::Wait;
use std::thread::Threads;
use threads::Pass;
use threads::roles::{Back, Refused, Room, any_ran, run_workers};

/// What a round shares out among its workers.
#[derive(Drop)]
pub(crate) struct Kit<I: Sink, O: Source, K: Drop> {
    pub passes: Vec<Pass<Core>>,
    pub links: Vec<Lone<I, O>>,
    pub desks: Vec<K>,
}

// The main thread's pass, and room for what comes back.
#[derive(Drop)]
struct Rest<I: Sink, O: Source, K: Drop> {
    main: Pass<Core>,
    room: Kit<I, O, K>,
}

type Workers<'a, I, O, K, R> = Vec<LoneWorker<'a, I, O, K, R>>;

type Backs<'a, I, O, K, R> = Vec<Back<LoneWorker<'a, I, O, K, R>>>;

type Rooms<'a, I, O, K, R> = (Room<LoneWorker<'a, I, O, K, R>>, Workers<'a, I, O, K, R>);

// Room for so many workers.
fn rooms<'a, I: Sink + Drop, O: Source + Drop, K: Desk + Drop, R: Wait>(
    alloc: Global,
    seats: usize,
) -> Option<Rooms<'a, I, O, K, R>>
    ensures { IfSome result (λ r. (r.0 ≡ seats) × IsRoomFor seats r.1) }
{
    let room = Room::new(alloc, seats)?;
    match Vec::with_capacity(alloc, seats) {
        Ok(workers) => Some((room, workers)),
        Err(_) => None,
    }
}

// Makes the workers.
fn cast<'a, I: Sink, O: Source, K: Desk + Drop, R: Wait>(
    site: &Site<'a, R>,
    kit: Kit<I, O, K>,
    workers: Workers<'a, I, O, K, R>,
) -> (Workers<'a, I, O, K, R>, Rest<I, O, K>)
    requires room { IsRoomFor (vec_len kit.desks) workers × (vec_len kit.links ≡ vec_len kit.desks) × (vec_len kit.passes ≡ 1 + vec_len kit.desks) }
    ensures passes { kit.passes.items ≡ result.1.main ∷ map (λ w. w.pass) (reverse result.0.items) }
    ensures links { kit.links.items ≡ map (λ w. w.way) (reverse result.0.items) }
    ensures desks { kit.desks.items ≡ map (λ w. w.desk) (reverse result.0.items) }
    ensures placed { All (IsAt site.now) result.0.items }
    ensures count { vec_len result.0 ≡ vec_len kit.desks }
    ensures rooms { IsRoomFor (1 + vec_len result.0) result.1.room.passes × IsRoomFor (vec_len result.0) result.1.room.links × IsRoomFor (vec_len result.0) result.1.room.desks }
{
    let Kit {
        mut passes,
        mut links,
        mut desks,
    } = kit;
    let workers = deal(site, &mut passes, &mut links, &mut desks, workers);
    let Some(main) = passes.pop() else {
        unreachable!()
    };
    let room = Kit {
        passes,
        links,
        desks,
    };
    (workers, Rest { main, room })
}

// Takes the workers apart.
fn gather<'a, I: Sink + Drop, O: Source + Drop, K: Desk + Drop, R: Wait>(
    backs: Backs<'a, I, O, K, R>,
    rest: Rest<I, O, K>,
) -> Kit<I, O, K>
    requires rooms { IsRoomFor (1 + vec_len backs) rest.room.passes × IsRoomFor (vec_len backs) rest.room.links × IsRoomFor (vec_len backs) rest.room.desks }
    ensures passes { result.passes.items ≡ rest.main ∷ map (λ w. w.pass) (reverse (roles_of backs.entry.items)) }
    ensures links { result.links.items ≡ map (λ w. w.way) (reverse (roles_of backs.entry.items)) }
    ensures desks { result.desks.items ≡ map (λ w. w.desk) (reverse (roles_of backs.entry.items)) }
{
    let Rest { main, room } = rest;
    let Kit {
        mut passes,
        mut links,
        mut desks,
    } = room;
    passes.push_reserved(main);
    take_back(backs, &mut passes, &mut links, &mut desks);
    Kit {
        passes,
        links,
        desks,
    }
}

// Whether a worker ran. Where none did though each had a thread, which the gate excludes, it is as without memory.
fn outcome_of<'a, I: Sink, O: Source, K: Desk + Drop, R: Wait>(
    backs: &Backs<'a, I, O, K, R>,
    refused: Option<Refused>,
) -> Outcome
    ensures { result ≡ done_if (list_any has_run backs.now.items) refused }
{
    if any_ran(backs) {
        return Outcome::Done;
    }
    match refused {
        Some(refused) => Outcome::NoThreads(refused),
        None => Outcome::NoMemory,
    }
}

/// Runs the workers of a round, in as many threads as `most` at most.
pub(crate) fn play<
    'a,
    I: Sink + Send + Drop,
    O: Source + Send + Drop,
    K: Desk + Send + Drop,
    R: Threads + Wait + Sync,
>(site: &Site<'a, R>, most: usize, kit: Kit<I, O, K>) -> (Kit<I, O, K>, Outcome)
    requires desks { (vec_len kit.links ≡ vec_len kit.desks) × (vec_len kit.desks ≤ 64) × (vec_len kit.passes ≡ 1 + vec_len kit.desks) }
    requires may { MayPlay site.now.hall.now site.now.tasks.now site.now.setup.now (map (λ l. link_of l.ear l.mouth) kit.links.items) kit.passes.items }
    ensures own { All (IsPassOf site.now.hall.now) result.0.passes.items × (length result.0.passes.items ≡ length kit.passes.items) }
    ensures left { IfDone result.1 (PoolLeft site.now.hall.now site.now.setup.now
        (map (λ l. link_of l.ear l.mouth) kit.links.items) (map (λ l. link_of l.ear l.mouth) result.0.links.items)
        result.0.passes.items (map K.told kit.desks.items) (map K.told result.0.desks.items)) }
    ensures kept { IfKept result.1 ((result.0.passes.items ≡ kit.passes.items) × AreAsBefore kit.links.items result.0.links.items kit.desks.items result.0.desks.items) }
    ensures same { AreSameLinks (map (λ l. link_of l.ear l.mouth) kit.links.items) (map (λ l. link_of l.ear l.mouth) result.0.links.items) × (vec_len result.0.desks ≡ vec_len kit.desks) }
{
    let Some((room, workers)) = rooms(site.alloc, kit.desks.len()) else {
        return (kit, Outcome::NoMemory);
    };
    let (workers, rest) = cast(site, kit, workers);
    let (backs, refused) = run_workers(site.rt, room, most, workers);
    let outcome = outcome_of(&backs, refused);
    (gather(backs, rest), outcome)
}
