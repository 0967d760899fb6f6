// What the tasks of a rehearsal are done with.
ghost use Rattle.std.specs.Prelude.{◌≡◌, ◌≤◌, IfOk, true};
ghost use Rattle.journal_model.specs.Beginnings.{MayBegin};
ghost use Rattle.rehearse_plan.specs.Plans.{opening_of};
ghost use Rattle.rehearse_plan.specs.declared.tasks.TheConstants.{MOST_TASKS};
ghost use Rattle.rehearse_command.specs.Rehearsals.{IsReady, setup};

use ann_key::{NoMemory, Text};
use host_core::Core;
use rehearse_plan::{MOST_TASKS, opening_of};
use run_starts::Plan;
use std::alloc::Global;
use task_model::Setup;
use task_text::Tasks;

/// How many workers do the tasks.
pub(crate) const WORKERS: u32 = 4;

/// The core, how the tasks are done, and the tasks.
#[derive(Drop)]
pub(crate) struct Ready {
    pub(crate) core: Core,
    pub(crate) plan: Plan,
    pub(crate) tasks: Tasks,
}

// One start in each slot, and ASYNC may be offered. The program's name is never asked for.
fn plan(alloc: Global) -> Result<Plan, NoMemory>
    ensures { IfOk result (λ p. (p.starts ≡ 1) × (p.offers ≡ true) × (p.setup ≡ setup)) }
{
    Ok(Plan {
        program: Text::copy(alloc, "annex-remote-dir")?,
        starts: 1,
        offers: true,
        setup: Setup {
            work: Text::copy(alloc, ".")?,
            stamp: 0,
            chunk: 64,
        },
    })
}

/// All that so many tasks by that seed are done with.
pub(crate) fn prepare(alloc: Global, seed: u32, tasks: u32) -> Result<Ready, NoMemory>
    requires { tasks ≤ MOST_TASKS }
    ensures opening { IfOk result (λ r. r.core.opening ≡ opening_of seed tasks) }
    ensures ready { IfOk result IsReady }
    ensures may { IfOk result (λ r. MayBegin r.core.opening) }
{
    let opening = opening_of(alloc, seed, tasks)?;
    let plan = plan(alloc)?;
    let tasks = opening.tasks.copy(alloc)?;
    let core = Core::new(alloc, opening)?;
    Ok(Ready { core, plan, tasks })
}
