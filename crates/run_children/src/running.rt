ghost use Rattle.std.specs.Prelude.{◌≡◌, ◌≤◌, ◌<◌, ◌*◌, [], ◌∷◌, map, IfOk, IsErr, vec_len, vec_capacity, false};
ghost use Rattle.annex_model.specs.Lines.{has_newline};
ghost use Rattle.child_life.specs.End.Programs.{Leaves};
ghost use Rattle.child_life.specs.Start.Cores.{IsSameCore};
ghost use Rattle.run_children.specs.JobRuns.{RanJobs};
ghost use Rattle.run_children.specs.Runs.{IsHanded, MayRun};
ghost use Rattle.run_starts.specs.Rounds.{EndsClosed, IsWhole};
ghost use Rattle.crew_work.specs.Worker.Works.{AreTasks};

use crate::alone::start_all;
use crate::bench::Bench;
use crate::setting::Setting;
use crate::starting::start_children;
use ann_key::NoMemory;
use ann_outside::{Desk, Programs};
use child_link::Wire;
use host_core::Core;
use run_starts::{Plan, answer_left};
use std::alloc::Global;
use std::marker::{Send, Sync};
use std::sync::Wait;
use std::thread::Threads;
use task_text::Task;

/// Does all tasks over children, and answers each, in one thread and with one desk. Children are started one after the other. Where one is
/// lost the next one goes on; where no start is left, the tasks that are left are answered `nochild`. `NoMemory` is answered where no memory
/// was found to start a child; what was done until then stands in the journal.
pub fn run_alone<P: Programs, K: Desk>(
    alloc: Global,
    programs: &mut P,
    plan: &Plan,
    tasks: &[Task],
    core: &mut Core,
    desk: &mut K,
    wires: &mut Vec<Wire<P::Inlet, P::Outlet>>,
) -> Result<(), NoMemory>
where
    P::Inlet: Drop,
    P::Outlet: Drop,
    requires handed { IsHanded core.old.opening tasks.now plan.now.setup }
    requires may { MayRun core.old.journal plan.now.starts 1 wires.old.items (vec_capacity wires.old) }
    ensures ran { RanJobs core.old.opening plan.now.setup plan.now.offers plan.now.starts core.new.journal (K.told desk.old ∷ []) (K.told desk.new ∷ []) }
    ensures whole { IsWhole core.old.opening core.new.journal result }
    ensures last { IfOk result (λ _. EndsClosed core.new.journal) }
    ensures leaves { Leaves (IsErr result) plan.now.program core.new.journal (P.told programs.old)
        (P.told programs.new) wires.new.items }
    ensures core { IsSameCore core.old core.new }
{
    let setting = Setting { alloc, plan, tasks };
    start_all(&setting, programs, core, desk, wires)?;
    if core.unclaimed() > 0 {
        answer_left(core);
    }
    Ok(())
}

/// Does all tasks over children, and answers each. Over a child that takes tags, a worker for each desk does tasks side by side, in a thread
/// of its own. After one that takes none, one more is started for each further desk, and each has a worker of its own. Where there are no
/// threads, one worker does the tasks over the first. Where a child is lost the next start goes on; where none is left, the tasks that are
/// left are answered `nochild`. `NoMemory` is answered where no memory was found to start a child or for a round; what was done until then
/// stands in the journal.
pub fn run_jobs<P: Programs, K: Desk + Send + Drop, R: Threads + Wait + Sync>(
    rt: &R,
    alloc: Global,
    programs: &mut P,
    plan: &Plan,
    tasks: &[Task],
    bench: Bench<K>,
    wires: &mut Vec<Wire<P::Inlet, P::Outlet>>,
) -> (Bench<K>, Result<(), NoMemory>)
where
    P::Inlet: Send + Drop,
    P::Outlet: Send + Drop,
    P::Stub: Drop,
    requires empty { bench.core.journal ≡ [] }
    requires tasks { (bench.core.opening.tasks ≡ tasks.now) × AreTasks tasks.now }
    requires starts { (0 < plan.now.starts) × (plan.now.starts ≤ 16) }
    requires folder { has_newline plan.now.setup.work ≡ false }
    requires desks { (0 < vec_len bench.desks) × (vec_len bench.desks ≤ 64) }
    requires room { plan.now.starts * vec_len bench.desks ≤ vec_capacity wires.old }
    requires none { wires.old.items ≡ [] }
    ensures ran { RanJobs bench.core.opening plan.now.setup plan.now.offers plan.now.starts result.0.core.journal (map K.told bench.desks.items) (map K.told result.0.desks.items) }
    ensures whole { IsWhole bench.core.opening result.0.core.journal result.1 }
    ensures leaves { Leaves (IsErr result.1) plan.now.program result.0.core.journal (P.told programs.old)
        (P.told programs.new) wires.new.items }
    ensures core { IsSameCore bench.core result.0.core }
    ensures desks { vec_len result.0.desks ≡ vec_len bench.desks }
{
    let setting = Setting { alloc, plan, tasks };
    let (bench, started) = start_children(rt, &setting, programs, bench, wires);
    let mut bench = bench;
    match started {
        Ok(()) => {
            if bench.core.unclaimed() > 0 {
                answer_left(&mut bench.core);
                return (bench, Ok(()));
            }
            (bench, Ok(()))
        }
        Err(NoMemory) => (bench, Err(NoMemory)),
    }
}
