// The roles of a round over a child that its workers share: they are made, run in threads and taken apart again.
ghost use Rattle.std.specs.Prelude.{◌≡◌, ◌≤◌, ◌+◌, ◌||◌, ◌∷◌, true, false, All, IfSome, length, map, reverse, vec_len};
ghost use Rattle.std.specs.List.{list_any};
ghost use Rattle.threads.specs.Roles.BackRole.{has_run, role_of};
ghost use Rattle.threads.specs.Roles.Dealing.{IsRoomFor};
ghost use Rattle.crew_rounds.specs.Tagged.Backs.{roles_of};
ghost use Rattle.crew_rounds.specs.Tagged.Outcomes.{IfDone, IfKept, LinkStays};
ghost use Rattle.crew_rounds.specs.Tagged.Settled.{Settles};
ghost use Rattle.crew_rounds.specs.Tagged.Sites.{IsAt};
ghost use Rattle.crew_rounds.specs.Tagged.Tagged.{CrewLeft, MayPlay, link_of};
ghost use Rattle.threads.specs.Passes.{IsPassOf, seen_of};
ghost use Rattle.journal_model.specs.declared.verdict.Why.TheVariants.{Memory};
ghost use Rattle.journal_model.specs.Journal.{is_ended, is_started};
ghost use Rattle.child_link.specs.Doors.{Ends};
ghost use Rattle.child_link.specs.Moves.{IsSameLink};

use crate::tagged::dealt::{SharedWorker, Site, deal, take_back};
use crate::tagged::outcome::Outcome;
use crate::tagged::{EarRole, MouthRole};
use ann_outside::{Desk, Sink, Source};
use child_link::hall::HallDoor;
use child_link::{Lone, events};
use host_core::Core;
use journal_model::Why;
use std::alloc::Global;
use std::marker::{Send, Sync};
use std::sync::Wait;
use std::thread::Threads;
use threads::roles::{Back, Crew, Refused, Room, any_ran, run_crew};
use threads::{Hall, Pass};

/// What a round shares out among its roles.
#[derive(Drop)]
pub(crate) struct Kit<I: Sink, O: Source, K: Drop> {
    pub passes: Vec<Pass<Core>>,
    pub link: Lone<I, O>,
    pub desks: Vec<K>,
}

// The main thread's pass, and room for what comes back.
#[derive(Drop)]
struct Rest<K: Drop> {
    main: Pass<Core>,
    passes: Vec<Pass<Core>>,
    desks: Vec<K>,
}

type Roles<'a, I, O, K, R> = Crew<EarRole<'a, O, R>, MouthRole<'a, I, R>, SharedWorker<'a, K, R>>;

type Backs<'a, I, O, K, R> = Crew<
    Back<EarRole<'a, O, R>>,
    Back<MouthRole<'a, I, R>>,
    Back<SharedWorker<'a, K, R>>,
>;

type Rooms<'a, K, R> = (Room<SharedWorker<'a, K, R>>, Vec<SharedWorker<'a, K, R>>);

// Room for so many workers.
fn rooms<'a, K: Desk + Drop, R: Wait>(alloc: Global, seats: usize) -> Option<Rooms<'a, K, R>>
    ensures { IfSome result (λ r. (r.0 ≡ seats) × IsRoomFor seats r.1) }
{
    let room = Room::new(alloc, seats)?;
    let workers = Vec::with_capacity(alloc, seats).ok()?;
    Some((room, workers))
}

// Makes the roles.
fn cast<'a, I: Sink, O: Source, K: Desk + Drop, R: Wait>(
    site: &Site<'a, R>,
    kit: Kit<I, O, K>,
    workers: Vec<SharedWorker<'a, K, R>>,
) -> (Roles<'a, I, O, K, R>, Rest<K>)
    requires room { IsRoomFor (vec_len kit.desks) workers }
    requires many { vec_len kit.passes ≡ 3 + vec_len kit.desks }
    ensures passes { kit.passes.items ≡ result.1.main ∷ result.0.ear.pass ∷ result.0.mouth.pass ∷ map (λ w. w.pass) (reverse result.0.workers.items) }
    ensures desks { kit.desks.items ≡ map (λ w. w.desk) (reverse result.0.workers.items) }
    ensures link { (result.0.ear.ear ≡ kit.link.ear) × (result.0.mouth.mouth ≡ kit.link.mouth) }
    ensures placed { (result.0.ear.hall.now ≡ site.now.hall.now) × (result.0.mouth.hall.now ≡ site.now.hall.now) × All (IsAt site.now) result.0.workers.items }
    ensures rooms { IsRoomFor (3 + vec_len result.0.workers) result.1.passes × IsRoomFor (vec_len result.0.workers) result.1.desks }
{
    let Kit {
        mut passes,
        link,
        mut desks,
    } = kit;
    let workers = deal(site, &mut passes, &mut desks, workers);
    let (Some(third), Some(second), Some(main)) = (passes.pop(), passes.pop(), passes.pop()) else {
        unreachable!()
    };
    let (ear, mouth) = link.part();
    let ear = EarRole {
        rt: site.rt,
        hall: site.hall,
        pass: second,
        ear,
    };
    let mouth = MouthRole {
        rt: site.rt,
        hall: site.hall,
        pass: third,
        mouth,
    };
    let crew = Crew {
        ear,
        mouth,
        workers,
    };
    (
        crew,
        Rest {
            main,
            passes,
            desks,
        },
    )
}

// Takes the roles apart.
fn gather<'a, I: Sink, O: Source, K: Desk + Drop, R: Wait>(
    backs: Backs<'a, I, O, K, R>,
    rest: Rest<K>,
) -> Kit<I, O, K>
    requires one_child { (role_of backs.mouth).mouth.child ≡ (role_of backs.ear).ear.child }
    requires rooms { IsRoomFor (3 + vec_len backs.workers) rest.passes × IsRoomFor (vec_len backs.workers) rest.desks }
    ensures passes { result.passes.items ≡ rest.main ∷ (role_of backs.entry.ear).pass ∷ (role_of backs.entry.mouth).pass ∷ map (λ w. w.pass) (reverse (roles_of backs.entry.workers.items)) }
    ensures desks { result.desks.items ≡ map (λ w. w.desk) (reverse (roles_of backs.entry.workers.items)) }
    ensures link { (result.link.ear ≡ (role_of backs.entry.ear).ear) × (result.link.mouth ≡ (role_of backs.entry.mouth).mouth) }
{
    let Rest {
        main,
        mut passes,
        mut desks,
    } = rest;
    let Crew {
        ear,
        mouth,
        workers,
    } = backs;
    let EarRole {
        pass: second,
        ear,
        ..
    } = ear.role();
    let MouthRole {
        pass: third,
        mouth,
        ..
    } = mouth.role();
    passes.push_reserved(main);
    passes.push_reserved(second);
    passes.push_reserved(third);
    take_back(workers, &mut passes, &mut desks);
    Kit {
        passes,
        link: Lone::whole(ear, mouth),
        desks,
    }
}

// Ends the child by the main thread's pass, for lack of memory.
fn give_up<R: Wait>(rt: &R, hall: &Hall<Core>, pass: &mut Pass<Core>, child: u32)
    requires pass { IsPassOf hall.now pass.old }
    requires started { is_started (seen_of pass.old) child ≡ true }
    ensures pass { IsPassOf hall.now pass.new × (pass.new.number ≡ pass.old.number) }
    ensures ends { Ends hall.now.fixed pass.old.number false (seen_of pass.old) (seen_of pass.new) child Memory }
    ensures over { is_ended (seen_of pass.new) child ≡ true }
{
    let mut door = HallDoor { rt, hall, pass };
    events::stop(&mut door, child, Why::Memory);
}

// What came of the round. Where a role ran and no worker did, which the gate excludes and no contract does, the child is ended; and where
// none ran though each had a thread, it is as without memory.
fn settle<'a, I: Sink, O: Source, K: Desk + Drop, R: Wait>(
    site: &Site<'a, R>,
    backs: &Backs<'a, I, O, K, R>,
    refused: Option<Refused>,
    main: &mut Pass<Core>,
) -> Outcome
    requires pass { IsPassOf site.now.hall.now main.old }
    requires started { is_started (seen_of main.old) site.now.child ≡ true }
    ensures { Settles site.now.hall.now site.now.child (list_any has_run backs.now.workers.items) (has_run backs.now.ear || has_run backs.now.mouth) main.old main.new result }
{
    if any_ran(&backs.workers) {
        Outcome::Done
    } else if backs.ear.has_run() || backs.mouth.has_run() {
        give_up(site.rt, site.hall, main, site.child);
        Outcome::Done
    } else {
        match refused {
            Some(refused) => Outcome::NoThreads(refused),
            None => Outcome::NoMemory,
        }
    }
}

/// Runs the roles of a round, in as many threads as `most` at most.
pub(crate) fn play<
    'a,
    I: Sink + Send + Drop,
    O: Source + Send + Drop,
    K: Desk + Send + Drop,
    R: Threads + Wait + Sync,
>(site: &Site<'a, R>, most: usize, kit: Kit<I, O, K>) -> (Kit<I, O, K>, Outcome)
    requires desks { (vec_len kit.desks ≤ 64) × (vec_len kit.passes ≡ 3 + vec_len kit.desks) }
    requires child { site.now.child ≡ kit.link.ear.child }
    requires may { MayPlay site.now.hall.now site.now.tasks.now site.now.setup.now (link_of kit.link.ear kit.link.mouth) kit.passes.items }
    ensures own { All (IsPassOf site.now.hall.now) result.0.passes.items × (length result.0.passes.items ≡ length kit.passes.items) }
    ensures left { IfDone result.1 (CrewLeft site.now.hall.now site.now.setup.now kit.link.ear.child (link_of result.0.link.ear result.0.link.mouth)
        result.0.passes.items (map K.told kit.desks.items) (map K.told result.0.desks.items)) }
    ensures kept { IfKept result.1 ((result.0.passes.items ≡ kit.passes.items) × LinkStays kit.link.ear result.0.link.ear kit.link.mouth result.0.link.mouth kit.desks.items result.0.desks.items) }
    ensures same { IsSameLink kit.link.ear result.0.link.ear kit.link.mouth result.0.link.mouth }
{
    let Some((room, workers)) = rooms(site.alloc, kit.desks.len()) else {
        return (kit, Outcome::NoMemory);
    };
    let (crew, mut rest) = cast(site, kit, workers);
    let (backs, refused) = run_crew(site.rt, room, most, crew);
    let outcome = settle(site, &backs, refused, &mut rest.main);
    (gather(backs, rest), outcome)
}
