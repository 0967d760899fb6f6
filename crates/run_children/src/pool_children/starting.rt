// Starting the children of a pool.
ghost use Rattle.std.specs.Prelude.{◌≡◌, ◌<◌, ◌≤◌, ◌+◌, ◌++◌, ◌∷◌, [], true, map, IfOk, MatchResult, vec_len, vec_capacity};
ghost use Rattle.journal_model.specs.Journal.{is_started};
ghost use Rattle.journal_model.specs.Legality.{Legal, count, is_start, may_stop};
ghost use Rattle.journal_model.specs.declared.verdict.Why.TheVariants.{Closed};
ghost use Rattle.child_link.specs.Alone.{Closes};
ghost use Rattle.child_link.specs.Writings.{LoneWired};
ghost use Rattle.child_life.specs.Start.Cores.{IsSameCore};
ghost use Rattle.crew_rounds.specs.Tagged.Tagged.{link_of};
ghost use Rattle.crew_work.specs.Worker.KnownLayouts.{IsBook};
ghost use Rattle.crew_work.specs.Laws.Rounds.{IsAtRest};
ghost use Rattle.crew_rounds.specs.Tagged.PoolChildren.{PoolCan};
ghost use Rattle.run_children.specs.PoolChildren.Pools.{GathersAs, Serves, links_of, seat_value};
ghost use Rattle.run_children.specs.PoolChildren.Seats.{SeatsNone, SeatsOne, SeatsOver};
ghost use Rattle.run_children.specs.PoolChildren.Slots.{has_pool, is_unclaimed_since, last_slot};

use crate::pool_children::pool::{Gathering, Pool, Seat};
use ann_key::NoMemory;
use ann_outside::{Programs, Sink, Source};
use child_life::end::close_child;
use child_life::start::{Came, Greeting, Mode, greet, wait_for};
use child_link::Lone;
use host_core::Core;
use std::alloc::Global;

// Room for so many links and seats.
fn take_room<I: Sink + Drop, O: Source + Drop, S: Drop>(
    alloc: Global,
    most: u32,
) -> Result<Pool<I, O, S>, NoMemory>
    ensures none { IfOk result (λ p. (p.links.items ≡ []) × (p.seats.items ≡ []) × (vec_len p.links ≡ 0) × (vec_len p.seats ≡ 0)) }
    ensures room { IfOk result (λ p. (most ≤ vec_capacity p.links) × (most ≤ vec_capacity p.seats)) }
{
    let links = Vec::with_capacity(alloc, most as usize)?;
    let seats = Vec::with_capacity(alloc, most as usize)?;
    Ok(Pool { links, seats })
}

// A child that serves has its link and a seat after the others.
fn seat_serving<I: Sink, O: Source, S>(pool: &mut Pool<I, O, S>, link: Lone<I, O>, stub: S)
    requires room { (vec_len pool.old.links < vec_capacity pool.old.links) × (vec_len pool.old.seats < vec_capacity pool.old.seats) }
    ensures seats { map seat_value pool.new.seats.items ≡ map seat_value pool.old.seats.items ++ Serves ∷ [] }
    ensures links { links_of pool.new.links.items ≡ links_of pool.old.links.items ++ link_of link.ear link.mouth ∷ [] }
    ensures lengths { (vec_len pool.new.links ≡ vec_len pool.old.links + 1) × (vec_len pool.new.seats ≡ vec_len pool.old.seats + 1) }
    ensures room { (vec_capacity pool.new.links ≡ vec_capacity pool.old.links) × (vec_capacity pool.new.seats ≡ vec_capacity pool.old.seats) }
{
    pool.links.push_reserved(link);
    pool.seats.push_reserved(Seat::Serving(stub));
}

// A child that isn't ready is closed and finished, and has a seat after the others.
fn seat_over<P: Programs>(
    programs: &mut P,
    core: &mut Core,
    pool: &mut Pool<P::Inlet, P::Outlet, P::Stub>,
    link: Lone<P::Inlet, P::Outlet>,
    stub: P::Stub,
)
where
    P::Inlet: Drop,
    P::Outlet: Drop,
    requires started { is_started core.old.journal link.ear.child ≡ true }
    requires idle { may_stop core.old.journal link.ear.child Closed ≡ true }
    requires wired { LoneWired core.old.journal link.ear link.mouth }
    requires room { vec_len pool.old.seats < vec_capacity pool.old.seats }
    ensures closes { Closes 0 link.ear.child core.old.journal core.new.journal }
    ensures wired { LoneWired core.new.journal link.ear link.mouth }
    ensures over { SeatsOver link.ear link.mouth (P.told programs.old)
        (P.told programs.new) (map seat_value pool.old.seats.items) (map seat_value pool.new.seats.items)
        (links_of pool.old.links.items) (links_of pool.new.links.items) }
    ensures lengths { (vec_len pool.new.links ≡ vec_len pool.old.links) × (vec_len pool.new.seats ≡ vec_len pool.old.seats + 1) }
    ensures room { (vec_capacity pool.new.links ≡ vec_capacity pool.old.links) × (vec_capacity pool.new.seats ≡ vec_capacity pool.old.seats) }
    ensures core { IsSameCore core.old core.new }
{
    close_child(&link, core);
    let wire = link.finish();
    let (inlet, outlet) = wire.halves();
    wait_for(programs, inlet, outlet, stub);
    pool.seats.push_reserved(Seat::Over(wire));
}

// Starts and greets one more child, in this slot. ASYNC isn't offered to it.
fn seat_one<P: Programs>(
    alloc: Global,
    programs: &mut P,
    program: &str,
    slot: u32,
    core: &mut Core,
    pool: &mut Pool<P::Inlet, P::Outlet, P::Stub>,
) -> Result<(), NoMemory>
where
    P::Inlet: Drop,
    P::Outlet: Drop,
    requires legal { Legal core.old.opening core.old.journal }
    requires calm { IsAtRest core.old.journal }
    requires book { IsBook core.old.opening.notes }
    requires few { count is_start core.old.journal < 4294967295 }
    requires room { (vec_len pool.old.links < vec_capacity pool.old.links) × (vec_len pool.old.seats < vec_capacity pool.old.seats) }
    ensures seats { MatchResult result
        (λ _. SeatsOne core.old.opening program.now slot core.old.journal core.new.journal (P.told programs.old)
        (P.told programs.new) (map seat_value pool.old.seats.items) (map seat_value pool.new.seats.items)
        (links_of pool.old.links.items) (links_of pool.new.links.items))
        (λ _. SeatsNone program.now core.old.journal core.new.journal (P.told programs.old)
        (P.told programs.new) (map seat_value pool.old.seats.items) (map seat_value pool.new.seats.items)
        (links_of pool.old.links.items) (links_of pool.new.links.items)) }
    ensures room { (vec_capacity pool.new.links ≡ vec_capacity pool.old.links) × (vec_capacity pool.new.seats ≡ vec_capacity pool.old.seats) }
    ensures core { IsSameCore core.old core.new }
{
    match greet(alloc, programs, program, core, slot, false, Mode::Serve) {
        Greeting::Child { link, stub, came } => match came {
            Came::Ready { .. } => {
                seat_serving(pool, link, stub);
                Ok(())
            }
            _ => {
                seat_over(programs, core, pool, link, stub);
                Ok(())
            }
        },
        Greeting::StartFault => Ok(()),
        Greeting::NoMemory => Err(NoMemory),
    }
}

/// After the child of slot 0, which is ready and takes no tags, starts and greets one more in each slot from 1 that is below the number of
/// jobs and of the tasks that aren't claimed. A child that isn't ready is closed and finished at once; it costs no task.
pub fn gather<P: Programs>(
    alloc: Global,
    programs: &mut P,
    program: &str,
    jobs: u32,
    core: &mut Core,
    link: Lone<P::Inlet, P::Outlet>,
    stub: P::Stub,
) -> Gathering<P::Inlet, P::Outlet, P::Stub>
where
    P::Inlet: Drop,
    P::Outlet: Drop,
    P::Stub: Drop,
    requires few { count is_start core.old.journal + jobs < 4294967295 }
    requires pool { has_pool core.old.journal ≡ true }
    requires last { last_slot core.old.journal ≡ 0 }
    requires since { is_unclaimed_since core.old.journal ≡ true }
    requires last_child { link.ear.child ≡ count is_start core.old.journal }
    requires can { PoolCan core.old.opening core.old.journal (link_of link.ear link.mouth ∷ []) }
    ensures gathers { GathersAs core.old.opening jobs program.now core.old.journal core.new.journal (link_of link.ear link.mouth)
        (P.told programs.old) (P.told programs.new) result }
    ensures core { IsSameCore core.old core.new }
{
    let most = jobs.min(core.unclaimed()).max(1);
    let Ok(pool) = take_room(alloc, most) else {
        return Gathering::NoRoom { link, stub };
    };
    let mut pool = pool;
    seat_serving(&mut pool, link, stub);
    'slots: for slot in 1..most {
        if let Err(NoMemory) = seat_one(alloc, programs, program, slot, core, &mut pool) {
            return Gathering::NoMemory(pool);
        }
    }
    Gathering::Whole(pool)
}
