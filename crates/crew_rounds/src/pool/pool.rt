// A round over a pool of children without tags, each with a worker of its own.
ghost use Rattle.std.specs.Prelude.{◌≡◌, ◌≤◌, ◌<◌, ◌+◌, map, vec_len};
ghost use Rattle.std.specs.List.{range_with_len};
ghost use Rattle.crew_rounds.specs.Tagged.Outcomes.{IfDone, IfKept};
ghost use Rattle.crew_rounds.specs.Tagged.Roles.{CanRunTasks};
ghost use Rattle.crew_rounds.specs.Tagged.Tagged.{link_of};
ghost use Rattle.crew_work.specs.Laws.Laws.{GoesOn};
ghost use Rattle.crew_rounds.specs.Tagged.PoolChildren.{PoolCan};
ghost use Rattle.crew_rounds.specs.Pool.Pool.{AreAsBefore, AreSameLinks, PoolLeaves};

use crate::pool::played::{Kit, play};
use crate::tagged::{Outcome, Starter};
use ann_outside::{Desk, Sink, Source};
use child_link::Lone;
use crew_work::beside::Site;
use host_core::Core;
use std::alloc::Global;
use std::marker::{Send, Sync};
use std::sync::Wait;
use std::thread::Threads;
use task_model::Setup;
use task_text::Task;
use threads::Hall;

/// What a round over a pool hands back: the core, the links and the desks in their order, and what came of it.
#[derive(Drop)]
pub struct PoolRound<I: Sink, O: Source, K: Drop> {
    pub core: Core,
    pub links: Vec<Lone<I, O>>,
    pub desks: Vec<K>,
    pub outcome: Outcome,
}

/// Runs tasks over a pool of children, in as many threads at most as the starter tries: one worker's for each link, with the desk
/// at its place.
pub fn round_pool_some<
    I: Sink + Send + Drop,
    O: Source + Send + Drop,
    K: Desk + Send + Drop,
    R: Threads + Wait + Sync,
>(
    starter: &Starter<'_, R>,
    core: Core,
    tasks: &[Task],
    setup: &Setup,
    links: Vec<Lone<I, O>>,
    desks: Vec<K>,
) -> PoolRound<I, O, K>
    requires desks { (vec_len desks ≡ vec_len links) × (0 < vec_len desks) × (vec_len desks ≤ 64) }
    requires can { PoolCan core.opening core.journal (map (λ l. link_of l.ear l.mouth) links.items) }
    requires run { CanRunTasks core.opening tasks.now setup.now }
    ensures round { IfDone result.outcome (GoesOn core.journal result.core.journal
        (λ rest. PoolLeaves core.opening setup.now (range_with_len 1 (1 + vec_len desks)) core.journal rest
        (map (λ l. link_of l.ear l.mouth) links.items) (map (λ l. link_of l.ear l.mouth) result.links.items) (map K.told desks.items) (map K.told result.desks.items))) }
    ensures kept { IfKept result.outcome ((result.core.journal ≡ core.journal) × AreAsBefore links.items result.links.items desks.items result.desks.items) }
    ensures opening { result.core.opening ≡ core.opening }
    ensures same { AreSameLinks (map (λ l. link_of l.ear l.mouth) links.items) (map (λ l. link_of l.ear l.mouth) result.links.items) × (vec_len result.desks ≡ vec_len desks) }
{
    let seats = desks.len() as u32 + 1;
    match Hall::begin(starter.alloc, core, seats) {
        Err(core) => PoolRound {
            core,
            links,
            desks,
            outcome: Outcome::NoMemory,
        },
        Ok((hall, passes)) => {
            let site = Site {
                rt: starter.rt,
                alloc: starter.alloc,
                hall: &hall,
                tasks,
                setup,
            };
            let kit = Kit {
                passes,
                links,
                desks,
            };
            let (kit, outcome) = play(&site, starter.most, kit);
            let Kit {
                passes,
                links,
                desks,
            } = kit;
            PoolRound {
                core: hall.close(passes),
                links,
                desks,
                outcome,
            }
        }
    }
}

/// The same with as many threads as there are workers.
pub fn round_pool<
    I: Sink + Send + Drop,
    O: Source + Send + Drop,
    K: Desk + Send + Drop,
    R: Threads + Wait + Sync,
>(
    rt: &R,
    alloc: Global,
    core: Core,
    tasks: &[Task],
    setup: &Setup,
    links: Vec<Lone<I, O>>,
    desks: Vec<K>,
) -> PoolRound<I, O, K>
    requires desks { (vec_len desks ≡ vec_len links) × (0 < vec_len desks) × (vec_len desks ≤ 64) }
    requires can { PoolCan core.opening core.journal (map (λ l. link_of l.ear l.mouth) links.items) }
    requires run { CanRunTasks core.opening tasks.now setup.now }
    ensures round { IfDone result.outcome (GoesOn core.journal result.core.journal
        (λ rest. PoolLeaves core.opening setup.now (range_with_len 1 (1 + vec_len desks)) core.journal rest
        (map (λ l. link_of l.ear l.mouth) links.items) (map (λ l. link_of l.ear l.mouth) result.links.items) (map K.told desks.items) (map K.told result.desks.items))) }
    ensures kept { IfKept result.outcome ((result.core.journal ≡ core.journal) × AreAsBefore links.items result.links.items desks.items result.desks.items) }
    ensures opening { result.core.opening ≡ core.opening }
    ensures same { AreSameLinks (map (λ l. link_of l.ear l.mouth) links.items) (map (λ l. link_of l.ear l.mouth) result.links.items) × (vec_len result.desks ≡ vec_len desks) }
{
    let starter = Starter {
        rt,
        alloc,
        most: usize::MAX,
    };
    round_pool_some(&starter, core, tasks, setup, links, desks)
}
