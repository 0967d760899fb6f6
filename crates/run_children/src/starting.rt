// The starts of a run by many workers: one child of slot 0 after the other.
ghost use Rattle.std.specs.Prelude.{◌≡◌, ◌≤◌, ◌+◌, true, IsErr, MatchResult, is_ok, length, map, vec_len, vec_capacity};
ghost use Rattle.child_life.specs.Start.Cores.{IsSameCore};
ghost use Rattle.run_starts.specs.Stints.{KeptOr};
ghost use Rattle.run_children.specs.Runs.{AreDesks, IsHanded, MayRun};
ghost use Rattle.run_children.specs.Servings.{FirstServed, StandsReady};
ghost use Rattle.run_children.specs.Starts.{JobsStarted, MayStartOne, OneJobStart, RunLacksMemory};

use crate::beginning::begin_one;
use crate::bench::Bench;
use crate::pooling::serve_pool;
use crate::ready::{Begun, Ready};
use crate::serving::serve_ready;
use crate::setting::Setting;
use ann_key::NoMemory;
use ann_outside::{Desk, Programs};
use child_life::end::finish;
use child_link::Wire;
use run_starts::is_offered;
use std::marker::{Send, Sync};
use std::sync::Wait;
use std::thread::Threads;

// Lets a child that is ready do tasks, and closes it. Where it takes no tags and there are several desks, a pool is gathered after it.
fn serve_child<P: Programs, K: Desk + Send + Drop, R: Threads + Wait + Sync>(
    rt: &R,
    setting: &Setting<'_>,
    programs: &mut P,
    child: Ready<P::Inlet, P::Outlet, P::Stub>,
    bench: Bench<K>,
    wires: &mut Vec<Wire<P::Inlet, P::Outlet>>,
) -> (Bench<K>, Result<(), NoMemory>)
where
    P::Inlet: Send + Drop,
    P::Outlet: Send + Drop,
    P::Stub: Drop,
    requires handed { IsHanded bench.core.opening setting.now.tasks.now setting.now.plan.now.setup }
    requires desks { AreDesks (vec_len bench.desks) }
    requires ready { StandsReady bench.core.opening bench.core.journal child.link.ear child.link.mouth child.tagged }
    requires room { vec_len wires.old + vec_len bench.desks ≤ vec_capacity wires.old }
    ensures served { FirstServed (IsErr result.1) bench.core.opening setting.now.plan.now.setup setting.now.plan.now.starts setting.now.plan.now.program bench.core.journal result.0.core.journal
        (map K.told bench.desks.items) (map K.told result.0.desks.items) (is_ok result.1) child.link.ear child.link.mouth
        (P.told programs.old) (P.told programs.new) wires.old.items wires.new.items }
    ensures room { (vec_len wires.new ≤ vec_len wires.old + vec_len bench.desks) × (vec_capacity wires.new ≡ vec_capacity wires.old) }
    ensures core { IsSameCore bench.core result.0.core }
{
    let Ready { link, stub, tagged } = child;
    if !tagged && bench.desks.len() > 1 {
        return serve_pool(rt, setting, programs, link, stub, bench, wires);
    }
    let (link, bench, served) = serve_ready(
        rt,
        setting.alloc,
        setting.tasks,
        &setting.plan.setup,
        link,
        tagged,
        bench,
    );
    finish(programs, link, stub, wires);
    (bench, served)
}

// Starts one child of slot 0 and lets it do tasks. Whether ASYNC is to be offered to the next one.
fn start_one<P: Programs, K: Desk + Send + Drop, R: Threads + Wait + Sync>(
    rt: &R,
    setting: &Setting<'_>,
    programs: &mut P,
    offer: bool,
    bench: Bench<K>,
    wires: &mut Vec<Wire<P::Inlet, P::Outlet>>,
) -> (Bench<K>, Result<bool, NoMemory>)
where
    P::Inlet: Send + Drop,
    P::Outlet: Send + Drop,
    P::Stub: Drop,
    requires handed { IsHanded bench.core.opening setting.now.tasks.now setting.now.plan.now.setup }
    requires may { MayStartOne bench.core.opening bench.core.journal }
    requires desks { AreDesks (vec_len bench.desks) }
    requires room { vec_len wires.old + vec_len bench.desks ≤ vec_capacity wires.old }
    ensures starts { MatchResult result.1
        (λ next. OneJobStart bench.core.opening setting.now.plan.now.setup setting.now.plan.now.starts offer next true setting.now.plan.now.program bench.core.journal result.0.core.journal
        (map K.told bench.desks.items) (map K.told result.0.desks.items) (P.told programs.old) (P.told programs.new) wires.old.items wires.new.items)
        (λ _. RunLacksMemory bench.core.opening setting.now.plan.now.setup setting.now.plan.now.starts offer setting.now.plan.now.program bench.core.journal result.0.core.journal
        (map K.told bench.desks.items) (map K.told result.0.desks.items) (P.told programs.old) (P.told programs.new) wires.old.items wires.new.items) }
    ensures room { (vec_len wires.new ≤ vec_len wires.old + vec_len bench.desks) × (vec_capacity wires.new ≡ vec_capacity wires.old) }
    ensures core { IsSameCore bench.core result.0.core }
{
    let mut bench = bench;
    match begin_one(setting, programs, offer, &mut bench.core, wires) {
        Begun::Ready(child) => {
            let tagged = child.tagged;
            let (bench, served) = serve_child(rt, setting, programs, child, bench, wires);
            match served {
                Ok(()) => (bench, Ok(is_offered(offer, tagged))),
                Err(NoMemory) => (bench, Err(NoMemory)),
            }
        }
        Begun::Turned => (bench, Ok(offer)),
        Begun::NoMemory => (bench, Err(NoMemory)),
    }
}

/// Starts children of slot 0, one after the other, until all starts of slot 0 are made or all tasks claimed, or no memory is found to
/// start one or for a round.
pub(crate) fn start_children<P: Programs, K: Desk + Send + Drop, R: Threads + Wait + Sync>(
    rt: &R,
    setting: &Setting<'_>,
    programs: &mut P,
    bench: Bench<K>,
    wires: &mut Vec<Wire<P::Inlet, P::Outlet>>,
) -> (Bench<K>, Result<(), NoMemory>)
where
    P::Inlet: Send + Drop,
    P::Outlet: Send + Drop,
    P::Stub: Drop,
    requires handed { IsHanded bench.core.opening setting.now.tasks.now setting.now.plan.now.setup }
    requires may { MayRun bench.core.journal setting.now.plan.now.starts (vec_len bench.desks) wires.old.items (vec_capacity wires.old) }
    ensures started { JobsStarted bench.core.opening setting.now.plan.now.setup setting.now.plan.now.offers setting.now.plan.now.starts result.0.core.journal
        (map K.told bench.desks.items) (map K.told result.0.desks.items) result.1 }
    ensures kept { KeptOr setting.now.plan.now.program result.0.core.journal (P.told programs.old)
        (P.told programs.new) wires.new.items result.1 }
    ensures core { IsSameCore bench.core result.0.core }
{
    let mut bench = bench;
    let mut offer = setting.plan.offers;
    'children: for made in 0..setting.plan.starts {
        if bench.core.unclaimed() == 0 {
            return (bench, Ok(()));
        }
        let (after, next) = start_one(rt, setting, programs, offer, bench, wires);
        bench = after;
        match next {
            Ok(next) => offer = next,
            Err(NoMemory) => return (bench, Err(NoMemory)),
        }
    }
    (bench, Ok(()))
}
