// A round over one child that its workers share.
ghost use Rattle.std.specs.Prelude.{◌≡◌, ◌≤◌, ◌<◌, ◌+◌, map, vec_len};
ghost use Rattle.std.specs.List.{range_with_len};
ghost use Rattle.crew_rounds.specs.Tagged.TaggedRounds.{TaggedLeaves};
ghost use Rattle.crew_rounds.specs.Tagged.Outcomes.{IfDone, IfKept, LinkStays};
ghost use Rattle.crew_rounds.specs.Tagged.Roles.{CanRunTasks};
ghost use Rattle.crew_rounds.specs.Tagged.Tagged.{TaggedCan, link_of};
ghost use Rattle.crew_work.specs.Laws.Laws.{GoesOn};
ghost use Rattle.child_link.specs.Moves.{IsSameLink};

use crate::tagged::dealt::Site;
use crate::tagged::outcome::Outcome;
use crate::tagged::played::{Kit, play};
use ann_outside::{Desk, Sink, Source};
use child_link::Lone;
use host_core::Core;
use std::alloc::Global;
use std::marker::{Send, Sync};
use std::sync::Wait;
use std::thread::Threads;
use task_model::Setup;
use task_text::Task;
use threads::Hall;

/// What a round over one tagged child hands back: the core, the link, the desks in their order, and what came of it.
#[derive(Drop)]
pub struct TaggedRound<I: Sink, O: Source, K: Drop> {
    pub core: Core,
    pub link: Lone<I, O>,
    pub desks: Vec<K>,
    pub outcome: Outcome,
}

/// Where the threads of a round are started, and how many of them are tried at most.
#[derive(Drop)]
pub struct Starter<'a, R: Threads + Wait> {
    pub rt: &'a R,
    pub alloc: Global,
    pub most: usize,
}

/// Runs tasks over a tagged child, in as many threads at most as the starter tries: an ear's, a mouth's and one worker's for each
/// desk.
pub fn round_tagged_some<
    I: Sink + Send + Drop,
    O: Source + Send + Drop,
    K: Desk + Send + Drop,
    R: Threads + Wait + Sync,
>(
    starter: &Starter<'_, R>,
    core: Core,
    tasks: &[Task],
    setup: &Setup,
    link: Lone<I, O>,
    desks: Vec<K>,
) -> TaggedRound<I, O, K>
    requires desks { (0 < vec_len desks) × (vec_len desks ≤ 64) }
    requires can { TaggedCan core.opening core.journal (link_of link.ear link.mouth) }
    requires run { CanRunTasks core.opening tasks.now setup.now }
    ensures round { IfDone result.outcome (GoesOn core.journal result.core.journal
        (λ rest. TaggedLeaves core.opening setup.now (range_with_len 1 (3 + vec_len desks)) core.journal rest (link_of result.link.ear result.link.mouth)
        (map K.told desks.items) (map K.told result.desks.items))) }
    ensures kept { IfKept result.outcome ((result.core.journal ≡ core.journal) × LinkStays link.ear result.link.ear link.mouth result.link.mouth desks.items result.desks.items) }
    ensures opening { result.core.opening ≡ core.opening }
    ensures same { IsSameLink link.ear result.link.ear link.mouth result.link.mouth }
{
    let child = link.child();
    let seats = desks.len() as u32 + 3;
    match Hall::begin(starter.alloc, core, seats) {
        Err(core) => TaggedRound {
            core,
            link,
            desks,
            outcome: Outcome::NoMemory,
        },
        Ok((hall, passes)) => {
            let site = Site {
                rt: starter.rt,
                alloc: starter.alloc,
                hall: &hall,
                tasks,
                setup,
                child,
            };
            let kit = Kit {
                passes,
                link,
                desks,
            };
            let (kit, outcome) = play(&site, starter.most, kit);
            let Kit {
                passes,
                link,
                desks,
            } = kit;
            TaggedRound {
                core: hall.close(passes),
                link,
                desks,
                outcome,
            }
        }
    }
}

/// The same with as many threads as there are roles.
pub fn round_tagged<
    I: Sink + Send + Drop,
    O: Source + Send + Drop,
    K: Desk + Send + Drop,
    R: Threads + Wait + Sync,
>(
    rt: &R,
    alloc: Global,
    core: Core,
    tasks: &[Task],
    setup: &Setup,
    link: Lone<I, O>,
    desks: Vec<K>,
) -> TaggedRound<I, O, K>
    requires desks { (0 < vec_len desks) × (vec_len desks ≤ 64) }
    requires can { TaggedCan core.opening core.journal (link_of link.ear link.mouth) }
    requires run { CanRunTasks core.opening tasks.now setup.now }
    ensures round { IfDone result.outcome (GoesOn core.journal result.core.journal
        (λ rest. TaggedLeaves core.opening setup.now (range_with_len 1 (3 + vec_len desks)) core.journal rest (link_of result.link.ear result.link.mouth)
        (map K.told desks.items) (map K.told result.desks.items))) }
    ensures kept { IfKept result.outcome ((result.core.journal ≡ core.journal) × LinkStays link.ear result.link.ear link.mouth result.link.mouth desks.items result.desks.items) }
    ensures opening { result.core.opening ≡ core.opening }
    ensures same { IsSameLink link.ear result.link.ear link.mouth result.link.mouth }
{
    let starter = Starter {
        rt,
        alloc,
        most: usize::MAX,
    };
    round_tagged_some(&starter, core, tasks, setup, link, desks)
}
