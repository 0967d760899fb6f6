// What a child that is ready does, up to its closing.
ghost use Rattle.std.specs.Prelude.{◌≡◌, ◌≤◌, ◌<◌, [], MatchResult, map, vec_len, false, true};
ghost use Rattle.annex_model.specs.Lines.{has_newline};
ghost use Rattle.child_life.specs.End.Wires.{IsHeld};
ghost use Rattle.child_life.specs.Start.Cores.{IsSameCore};
ghost use Rattle.run_children.specs.Servings.{CanBeServed, Serves, ServesAlone, ServesUnless, Starved, plainly};
ghost use Rattle.child_link.specs.Moves.{IsSameLink};
ghost use Rattle.crew_work.specs.Worker.Works.{AreTasks};

use crate::bench::Bench;
use ann_key::NoMemory;
use ann_outside::{Desk, Sink, Source};
use child_life::end::close_child;
use child_link::Lone;
use crew_rounds::tagged::{Outcome, TaggedRound, round_tagged};
use run_starts::serve;
use std::alloc::Global;
use std::marker::{Send, Sync};
use std::sync::Wait;
use std::thread::Threads;
use task_model::Setup;
use task_text::Task;
use threads::roles::Refused;

/// Does tasks over the child with the first desk, and closes it.
pub(crate) fn serve_alone<I: Sink, O: Source, K: Desk + Drop>(
    alloc: Global,
    tasks: &[Task],
    setup: &Setup,
    link: &mut Lone<I, O>,
    bench: &mut Bench<K>,
    tagged: bool,
)
    requires desks { 0 < vec_len bench.old.desks }
    requires tasks { (bench.old.core.opening.tasks ≡ tasks.now) × AreTasks tasks.now }
    requires folder { has_newline setup.now.work ≡ false }
    requires can { CanBeServed bench.old.core.opening bench.old.core.journal link.old.ear link.old.mouth tagged }
    ensures serves { ServesAlone bench.old.core.opening setup.now link.old.ear.child bench.old.core.journal bench.new.core.journal
        (map K.told bench.old.desks.items) (map K.told bench.new.desks.items) }
    ensures held { IsHeld bench.new.core.journal link.new.ear link.new.mouth }
    ensures same { IsSameLink link.old.ear link.new.ear link.old.mouth link.new.mouth }
    ensures core { IsSameCore bench.old.core bench.new.core }
    ensures desks { vec_len bench.new.desks ≡ vec_len bench.old.desks }
{
    serve(
        alloc,
        tasks,
        setup,
        link,
        &mut bench.core,
        &mut bench.desks[0],
    );
}

/// Does tasks over the child, which takes tags, with a worker for each desk, and closes it. Where no thread could be started, the main
/// thread does them alone with the first desk, and it is told that a thread was refused. `NoMemory`: there was none for a round, and no task
/// was done.
pub(crate) fn serve_round<
    I: Sink + Send + Drop,
    O: Source + Send + Drop,
    K: Desk + Send + Drop,
    R: Threads + Wait + Sync,
>(
    rt: &R,
    alloc: Global,
    tasks: &[Task],
    setup: &Setup,
    link: Lone<I, O>,
    bench: Bench<K>,
) -> (Lone<I, O>, Bench<K>, Result<Option<Refused>, NoMemory>)
    requires desks { (1 < vec_len bench.desks) × (vec_len bench.desks ≤ 64) }
    requires tasks { (bench.core.opening.tasks ≡ tasks.now) × AreTasks tasks.now }
    requires folder { has_newline setup.now.work ≡ false }
    requires can { CanBeServed bench.core.opening bench.core.journal link.ear link.mouth true }
    ensures serves { MatchResult result.2
        (λ alone. ServesUnless alone bench.core.opening setup.now link.ear.child bench.core.journal result.1.core.journal (map K.told bench.desks.items) (map K.told result.1.desks.items))
        (λ _. Starved bench.core.journal result.1.core.journal link.ear result.0.ear link.mouth result.0.mouth (map K.told bench.desks.items) (map K.told result.1.desks.items)) }
    ensures held { IsHeld result.1.core.journal result.0.ear result.0.mouth }
    ensures same { IsSameLink link.ear result.0.ear link.mouth result.0.mouth }
    ensures core { IsSameCore bench.core result.1.core }
    ensures desks { vec_len result.1.desks ≡ vec_len bench.desks }
{
    let Bench { core, desks } = bench;
    let TaggedRound {
        core,
        mut link,
        desks,
        outcome,
    } = round_tagged(rt, alloc, core, tasks, setup, link, desks);
    let mut bench = Bench { core, desks };
    match outcome {
        Outcome::Done => {
            close_child(&link, &mut bench.core);
            (link, bench, Ok(None))
        }
        Outcome::NoMemory => {
            close_child(&link, &mut bench.core);
            (link, bench, Err(NoMemory))
        }
        Outcome::NoThreads(refused) => {
            serve_alone(alloc, tasks, setup, &mut link, &mut bench, true);
            (link, bench, Ok(Some(refused)))
        }
    }
}

// Without whether a thread was refused.
fn plainly(served: Result<Option<Refused>, NoMemory>) -> Result<(), NoMemory>
    ensures { result ≡ plainly served }
{
    served.map(|_| ())
}

/// Does tasks over the child with a worker for each desk, where it takes tags, else with one, and closes it. `NoMemory`: there was none
/// for a round, and no task was done.
pub(crate) fn serve_ready<
    I: Sink + Send + Drop,
    O: Source + Send + Drop,
    K: Desk + Send + Drop,
    R: Threads + Wait + Sync,
>(
    rt: &R,
    alloc: Global,
    tasks: &[Task],
    setup: &Setup,
    link: Lone<I, O>,
    tagged: bool,
    bench: Bench<K>,
) -> (Lone<I, O>, Bench<K>, Result<(), NoMemory>)
    requires desks { (0 < vec_len bench.desks) × (vec_len bench.desks ≤ 64) }
    requires tasks { (bench.core.opening.tasks ≡ tasks.now) × AreTasks tasks.now }
    requires folder { has_newline setup.now.work ≡ false }
    requires can { CanBeServed bench.core.opening bench.core.journal link.ear link.mouth tagged }
    ensures serves { MatchResult result.2
        (λ _. Serves bench.core.opening setup.now link.ear.child bench.core.journal result.1.core.journal (map K.told bench.desks.items) (map K.told result.1.desks.items))
        (λ _. Starved bench.core.journal result.1.core.journal link.ear result.0.ear link.mouth result.0.mouth (map K.told bench.desks.items) (map K.told result.1.desks.items)) }
    ensures held { IsHeld result.1.core.journal result.0.ear result.0.mouth }
    ensures same { IsSameLink link.ear result.0.ear link.mouth result.0.mouth }
    ensures core { IsSameCore bench.core result.1.core }
    ensures desks { vec_len result.1.desks ≡ vec_len bench.desks }
{
    if tagged && bench.desks.len() > 1 {
        let (link, bench, served) = serve_round(rt, alloc, tasks, setup, link, bench);
        return (link, bench, plainly(served));
    }
    let mut link = link;
    let mut bench = bench;
    serve_alone(alloc, tasks, setup, &mut link, &mut bench, tagged);
    (link, bench, Ok(()))
}
