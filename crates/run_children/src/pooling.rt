// What is done after a child of slot 0 that is ready and takes no tags: a pool is gathered, does tasks and is closed.
ghost use Rattle.std.specs.Prelude.{◌≡◌, ◌≤◌, ◌<◌, ◌+◌, ◌++◌, All, IfErr, IfOk, IsErr, MatchResult, is_ok, map, reverse, vec_len, vec_capacity, false, true};
ghost use Rattle.ann_outside.specs.Causes.{Stays};
ghost use Rattle.annex_model.specs.Lines.{has_newline};
ghost use Rattle.child_life.specs.End.Wires.{IsHeld};
ghost use Rattle.child_life.specs.Start.Cores.{IsSameCore};
ghost use Rattle.crew_rounds.specs.Tagged.Outcomes.{IfDone, IfKept};
ghost use Rattle.crew_work.specs.Laws.Laws.{children_of};
ghost use Rattle.crew_work.specs.Laws.Rounds.{IsAtRest};
ghost use Rattle.run_children.specs.Pools.{PoolServed};
ghost use Rattle.run_children.specs.PoolSteps.{AreLaid, ClosesAll, RoundsPool, ServesFirst, ServesLinks, ServesLinksUnless, ServesOne, StarvedLinks, serving};
ghost use Rattle.run_children.specs.Runs.{IsHanded};
ghost use Rattle.run_children.specs.Servings.{StandsReady};
ghost use Rattle.journal_model.specs.Journal.{is_started};
ghost use Rattle.crew_work.specs.Worker.Works.{AreTasks};
ghost use Rattle.crew_rounds.specs.Tagged.PoolChildren.{PoolCan};
ghost use Rattle.crew_rounds.specs.Pool.Pool.{AreAsBefore, AreSameLinks};
ghost use Rattle.run_children.specs.PoolChildren.Pools.{links_of, seat_value};

use crate::bench::Bench;
use crate::pool_children::{Gathering, Pool, Seat, gather};
use crate::setting::Setting;
use ann_key::NoMemory;
use ann_outside::{Desk, Programs, Sink, Source};
use child_life::end::{close_child, finish};
use child_link::{Lone, Wire};
use crew_rounds::pool::{PoolRound, round_pool};
use crew_rounds::tagged::Outcome;
use host_core::Core;
use run_starts::serve;
use std::alloc::Global;
use std::marker::{Send, Sync};
use std::sync::Wait;
use std::thread::Threads;
use task_model::Setup;
use task_text::Task;
use threads::roles::Refused;

// Closes the children of the links.
fn close_links<I: Sink, O: Source>(links: &[Lone<I, O>], core: &mut Core)
    requires calm { IsAtRest core.old.journal }
    requires started { All (λ l. is_started core.old.journal l.ear.child ≡ true) links.now }
    ensures closes { ClosesAll (children_of (links_of links.now)) core.old.journal core.new.journal }
    ensures core { IsSameCore core.old core.new }
{
    'closings: for link in links {
        close_child(link, core);
    }
}

// Lays a wire for each seat, in order, and waits for the programs of those that served.
fn settle<P: Programs>(
    programs: &mut P,
    mut links: Vec<Lone<P::Inlet, P::Outlet>>,
    mut seats: Vec<Seat<P::Inlet, P::Outlet, P::Stub>>,
    wires: &mut Vec<Wire<P::Inlet, P::Outlet>>,
)
where
    P::Inlet: Drop,
    P::Outlet: Drop,
    P::Stub: Drop,
    requires fits { serving (map seat_value seats.items) ≡ vec_len links }
    requires room { vec_len wires.old + vec_len seats ≤ vec_capacity wires.old }
    ensures laid { AreLaid (map seat_value seats.items) (links_of links.items) wires.old.items wires.new.items }
    ensures room { (vec_len wires.new ≡ vec_len wires.old + vec_len seats) × (vec_capacity wires.new ≡ vec_capacity wires.old) }
    ensures starts { Stays (P.told programs.old).starts (P.told programs.new).starts }
    ensures later { (P.told programs.old).faults ≤ (P.told programs.new).faults }
{
    links.reverse();
    seats.reverse();
    'seats: while let Some(seat) = seats.pop() {
        match seat {
            Seat::Over(wire) => wires.push_reserved(wire),
            Seat::Serving(stub) => {
                let Some(link) = links.pop() else {
                    unreachable!()
                };
                finish(programs, link, stub, wires);
            }
        }
    }
}

// Takes so many desks, the first ones, from the others, which are turned round.
fn take_first<K: Desk + Drop>(
    alloc: Global,
    desks: &mut Vec<K>,
    count: usize,
) -> Result<Vec<K>, NoMemory>
    requires few { count ≤ vec_len desks.old }
    ensures taken { IfOk result (λ used. (desks.old.items ≡ used.items ++ reverse desks.new.items) × (vec_len used ≡ count)) }
    ensures kept { IfErr result (λ _. desks.new.items ≡ desks.old.items) }
    ensures capacity { vec_capacity desks.new ≡ vec_capacity desks.old }
{
    let Ok(mut used) = Vec::with_capacity(alloc, count) else {
        return Err(NoMemory);
    };
    desks.reverse();
    'desks: for taken in 0..count {
        let Some(desk) = desks.pop() else {
            unreachable!()
        };
        used.push_reserved(desk);
    }
    Ok(used)
}

// Puts them back before the others.
fn put_back<K: Desk + Drop>(mut used: Vec<K>, desks: &mut Vec<K>)
    requires room { vec_len desks.old + vec_len used ≤ vec_capacity desks.old }
    ensures back { desks.new.items ≡ used.items ++ reverse desks.old.items }
{
    'desks: while let Some(desk) = used.pop() {
        desks.push_reserved(desk);
    }
    desks.reverse();
}

// A round over the links, with as many desks.
fn round_links<
    I: Sink + Send + Drop,
    O: Source + Send + Drop,
    K: Desk + Send + Drop,
    R: Threads + Wait + Sync,
>(
    rt: &R,
    alloc: Global,
    tasks: &[Task],
    setup: &Setup,
    links: Vec<Lone<I, O>>,
    bench: Bench<K>,
) -> (Vec<Lone<I, O>>, Bench<K>, Outcome)
    requires desks { (0 < vec_len links) × (vec_len links ≤ vec_len bench.desks) × (vec_len bench.desks ≤ 64) }
    requires tasks { (bench.core.opening.tasks ≡ tasks.now) × AreTasks tasks.now }
    requires folder { has_newline setup.now.work ≡ false }
    requires can { PoolCan bench.core.opening bench.core.journal (links_of links.items) }
    ensures round { IfDone result.2 (RoundsPool bench.core.opening setup.now bench.core.journal result.1.core.journal
        (links_of links.items) (links_of result.0.items) (map K.told bench.desks.items) (map K.told result.1.desks.items)) }
    ensures kept { IfKept result.2 ((result.1.core.journal ≡ bench.core.journal) × AreAsBefore links.items result.0.items bench.desks.items result.1.desks.items) }
    ensures same { AreSameLinks (links_of links.items) (links_of result.0.items) }
    ensures opening { result.1.core.opening ≡ bench.core.opening }
    ensures desks { vec_len result.1.desks ≡ vec_len bench.desks }
{
    let Bench { core, mut desks } = bench;
    match take_first(alloc, &mut desks, links.len()) {
        Ok(used) => {
            let PoolRound {
                core,
                links,
                desks: used,
                outcome,
            } = round_pool(rt, alloc, core, tasks, setup, links, used);
            put_back(used, &mut desks);
            (links, Bench { core, desks }, outcome)
        }
        Err(NoMemory) => (links, Bench { core, desks }, Outcome::NoMemory),
    }
}

// Does tasks over the first of the links with the first desk.
fn serve_first<I: Sink, O: Source, K: Desk + Drop>(
    alloc: Global,
    tasks: &[Task],
    setup: &Setup,
    links: &mut Vec<Lone<I, O>>,
    bench: &mut Bench<K>,
)
    requires some { (0 < vec_len links.old) × (0 < vec_len bench.old.desks) }
    requires tasks { (bench.old.core.opening.tasks ≡ tasks.now) × AreTasks tasks.now }
    requires folder { has_newline setup.now.work ≡ false }
    requires can { PoolCan bench.old.core.opening bench.old.core.journal (links_of links.old.items) }
    ensures serves { ServesFirst bench.old.core.opening setup.now (links_of links.old.items) bench.old.core.journal bench.new.core.journal
        (map K.told bench.old.desks.items) (map K.told bench.new.desks.items) }
    ensures held { All (λ l. IsHeld bench.new.core.journal l.ear l.mouth) links.new.items }
    ensures same { AreSameLinks (links_of links.old.items) (links_of links.new.items) }
    ensures core { IsSameCore bench.old.core bench.new.core }
    ensures desks { vec_len bench.new.desks ≡ vec_len bench.old.desks }
{
    serve(
        alloc,
        tasks,
        setup,
        &mut links[0],
        &mut bench.core,
        &mut bench.desks[0],
    );
}

// Does tasks over the first of the links, and closes all.
fn serve_one<I: Sink, O: Source, K: Desk + Drop>(
    alloc: Global,
    tasks: &[Task],
    setup: &Setup,
    links: &mut Vec<Lone<I, O>>,
    bench: &mut Bench<K>,
)
    requires some { (0 < vec_len links.old) × (0 < vec_len bench.old.desks) }
    requires tasks { (bench.old.core.opening.tasks ≡ tasks.now) × AreTasks tasks.now }
    requires folder { has_newline setup.now.work ≡ false }
    requires can { PoolCan bench.old.core.opening bench.old.core.journal (links_of links.old.items) }
    ensures serves { ServesOne bench.old.core.opening setup.now bench.old.core.journal bench.new.core.journal
        (links_of links.old.items) (map K.told bench.old.desks.items) (map K.told bench.new.desks.items) }
    ensures held { All (λ l. IsHeld bench.new.core.journal l.ear l.mouth) links.new.items }
    ensures same { AreSameLinks (links_of links.old.items) (links_of links.new.items) }
    ensures core { IsSameCore bench.old.core bench.new.core }
    ensures desks { vec_len bench.new.desks ≡ vec_len bench.old.desks }
{
    serve_first(alloc, tasks, setup, links, bench);
    close_links(links, &mut bench.core);
}

// Does tasks over all of the links side by side, or where no thread could be started over the first, which is told, and closes all.
// `NoMemory`: there was none for a round, and no task was done.
fn serve_all<
    I: Sink + Send + Drop,
    O: Source + Send + Drop,
    K: Desk + Send + Drop,
    R: Threads + Wait + Sync,
>(
    rt: &R,
    alloc: Global,
    tasks: &[Task],
    setup: &Setup,
    links: Vec<Lone<I, O>>,
    bench: Bench<K>,
) -> (Vec<Lone<I, O>>, Bench<K>, Result<Option<Refused>, NoMemory>)
    requires desks { (0 < vec_len links) × (vec_len links ≤ vec_len bench.desks) × (vec_len bench.desks ≤ 64) }
    requires tasks { (bench.core.opening.tasks ≡ tasks.now) × AreTasks tasks.now }
    requires folder { has_newline setup.now.work ≡ false }
    requires can { PoolCan bench.core.opening bench.core.journal (links_of links.items) }
    ensures serves { MatchResult result.2
        (λ alone. ServesLinksUnless alone bench.core.opening setup.now bench.core.journal result.1.core.journal
        (links_of links.items) (links_of result.0.items) (map K.told bench.desks.items) (map K.told result.1.desks.items))
        (λ _. StarvedLinks bench.core.journal result.1.core.journal
        (links_of links.items) (links_of result.0.items) (map K.told bench.desks.items) (map K.told result.1.desks.items)) }
    ensures held { IfOk result.2 (λ _. All (λ l. IsHeld result.1.core.journal l.ear l.mouth) result.0.items) }
    ensures same { AreSameLinks (links_of links.items) (links_of result.0.items) }
    ensures core { IsSameCore bench.core result.1.core }
    ensures desks { vec_len result.1.desks ≡ vec_len bench.desks }
{
    let (mut links, mut bench, outcome) = round_links(rt, alloc, tasks, setup, links, bench);
    match outcome {
        Outcome::Done => {
            close_links(&links, &mut bench.core);
            (links, bench, Ok(None))
        }
        Outcome::NoMemory => {
            close_links(&links, &mut bench.core);
            (links, bench, Err(NoMemory))
        }
        Outcome::NoThreads(refused) => {
            serve_one(alloc, tasks, setup, &mut links, &mut bench);
            (links, bench, Ok(Some(refused)))
        }
    }
}

// The same, where a single link needs no round.
fn serve_links<
    I: Sink + Send + Drop,
    O: Source + Send + Drop,
    K: Desk + Send + Drop,
    R: Threads + Wait + Sync,
>(
    rt: &R,
    alloc: Global,
    tasks: &[Task],
    setup: &Setup,
    links: Vec<Lone<I, O>>,
    bench: Bench<K>,
) -> (Vec<Lone<I, O>>, Bench<K>, Result<(), NoMemory>)
    requires desks { (0 < vec_len links) × (vec_len links ≤ vec_len bench.desks) × (vec_len bench.desks ≤ 64) }
    requires tasks { (bench.core.opening.tasks ≡ tasks.now) × AreTasks tasks.now }
    requires folder { has_newline setup.now.work ≡ false }
    requires can { PoolCan bench.core.opening bench.core.journal (links_of links.items) }
    ensures serves { MatchResult result.2
        (λ _. ServesLinks bench.core.opening setup.now bench.core.journal result.1.core.journal
        (links_of links.items) (links_of result.0.items) (map K.told bench.desks.items) (map K.told result.1.desks.items))
        (λ _. StarvedLinks bench.core.journal result.1.core.journal
        (links_of links.items) (links_of result.0.items) (map K.told bench.desks.items) (map K.told result.1.desks.items)) }
    ensures held { IfOk result.2 (λ _. All (λ l. IsHeld result.1.core.journal l.ear l.mouth) result.0.items) }
    ensures same { AreSameLinks (links_of links.items) (links_of result.0.items) }
    ensures core { IsSameCore bench.core result.1.core }
    ensures desks { vec_len result.1.desks ≡ vec_len bench.desks }
{
    if links.len() > 1 {
        let (links, bench, served) = serve_all(rt, alloc, tasks, setup, links, bench);
        return match served {
            Ok(_) => (links, bench, Ok(())),
            Err(NoMemory) => (links, bench, Err(NoMemory)),
        };
    }
    let mut links = links;
    let mut bench = bench;
    serve_one(alloc, tasks, setup, &mut links, &mut bench);
    (links, bench, Ok(()))
}

/// After a child of slot 0 that is ready and takes no tags, starts one more in each slot, lets those that are ready do tasks side by side,
/// a worker for each in a thread of its own, and closes all. Where no thread could be started, the main thread does tasks over the first.
/// `NoMemory` is answered where no memory was found to start a child, or for the round: then no task was done, and those that were
/// started are closed.
pub(crate) fn serve_pool<P: Programs, K: Desk + Send + Drop, R: Threads + Wait + Sync>(
    rt: &R,
    setting: &Setting<'_>,
    programs: &mut P,
    link: Lone<P::Inlet, P::Outlet>,
    stub: P::Stub,
    bench: Bench<K>,
    wires: &mut Vec<Wire<P::Inlet, P::Outlet>>,
) -> (Bench<K>, Result<(), NoMemory>)
where
    P::Inlet: Send + Drop,
    P::Outlet: Send + Drop,
    P::Stub: Drop,
    requires desks { (1 < vec_len bench.desks) × (vec_len bench.desks ≤ 64) }
    requires handed { IsHanded bench.core.opening setting.now.tasks.now setting.now.plan.now.setup }
    requires ready { StandsReady bench.core.opening bench.core.journal link.ear link.mouth false }
    requires room { vec_len wires.old + vec_len bench.desks ≤ vec_capacity wires.old }
    ensures served { PoolServed (IsErr result.1) bench.core.opening setting.now.plan.now.setup setting.now.plan.now.starts setting.now.plan.now.program bench.core.journal result.0.core.journal
        (map K.told bench.desks.items) (map K.told result.0.desks.items) (is_ok result.1) link.ear link.mouth
        (P.told programs.old) (P.told programs.new) wires.old.items wires.new.items }
    ensures room { (vec_len wires.new ≤ vec_len wires.old + vec_len bench.desks) × (vec_capacity wires.new ≡ vec_capacity wires.old) }
    ensures core { IsSameCore bench.core result.0.core }
    ensures desks { vec_len result.0.desks ≡ vec_len bench.desks }
{
    let mut bench = bench;
    let program = setting.plan.program.view();
    let jobs = bench.desks.len() as u32;
    match gather(
        setting.alloc,
        programs,
        program,
        jobs,
        &mut bench.core,
        link,
        stub,
    ) {
        Gathering::Whole(Pool { links, seats }) => {
            let (links, bench, served) = serve_links(
                rt,
                setting.alloc,
                setting.tasks,
                &setting.plan.setup,
                links,
                bench,
            );
            settle(programs, links, seats, wires);
            (bench, served)
        }
        Gathering::NoMemory(Pool { links, seats }) => {
            close_links(&links, &mut bench.core);
            settle(programs, links, seats, wires);
            (bench, Err(NoMemory))
        }
        Gathering::NoRoom { link, stub } => {
            close_child(&link, &mut bench.core);
            finish(programs, link, stub, wires);
            (bench, Err(NoMemory))
        }
    }
}
