// What a check is done with.
ghost use Rattle.std.specs.Prelude.{◌≡◌, [], None, IfOk, false};
ghost use Rattle.ann_key.specs.KeyRefs.{text_of};
ghost use Rattle.cli_words.specs.Refusals.{reason_refused};
ghost use Rattle.journal_model.specs.Beginnings.{MayBegin};
ghost use Rattle.run_and_check.specs.Check.Checks.{check_opening, check_setup};
ghost use Rattle.run_and_check.specs.Check.Preparings.{IsPrepared};

use crate::check::opening::check_opening;
use ann_key::{KeyRef, NoMemory, Text};
use ann_outside::MemDesk;
use host_core::Core;
use run_starts::Plan;
use std::alloc::Global;
use task_model::Setup;
use task_text::Tasks;

/// What the one task of a check is done with. The desk is in memory, and is asked for nothing.
#[derive(Drop)]
pub(crate) struct Ready {
    pub core: Core,
    pub tasks: Tasks,
    pub plan: Plan,
    pub desk: MemDesk,
}

// The core of a check and its task.
#[tactic(auto, using(crate::proofs::CheckLemmas::Checked::check_begins))]
fn begin(alloc: Global, key: KeyRef<'_>, stamp: u64) -> Result<(Core, Tasks), NoMemory>
    requires fit { reason_refused (text_of key) ≡ None }
    ensures opening { IfOk result (λ b. b.0.opening ≡ check_opening (text_of key.entry) stamp) }
    ensures empty { IfOk result (λ b. b.0.journal ≡ []) }
    ensures tasks { IfOk result (λ b. b.1 ≡ b.0.opening.tasks) }
    ensures may { IfOk result (λ b. MayBegin b.0.opening) }
{
    let opening = check_opening(alloc, key, stamp)?;
    let tasks = opening.tasks.copy(alloc)?;
    let core = Core::new(alloc, opening)?;
    Ok((core, tasks))
}

// How a check is to be run.
fn plan_of(alloc: Global, program: &str, stamp: u64) -> Result<Plan, NoMemory>
    ensures { IfOk result (λ plan. plan ≡ record { program = program.now; starts = 1; offers = false; setup = check_setup stamp }) }
{
    let setup = Setup {
        work: Text::copy(alloc, ".")?,
        stamp,
        chunk: 0,
    };
    Ok(Plan {
        program: Text::copy(alloc, program)?,
        starts: 1,
        offers: false,
        setup,
    })
}

/// All that a check is done with.
pub(crate) fn prepare(
    alloc: Global,
    program: &str,
    key: KeyRef<'_>,
    stamp: u64,
) -> Result<Ready, NoMemory>
    requires fit { reason_refused (text_of key) ≡ None }
    ensures prepared { IfOk result (IsPrepared program.now (text_of key.entry) stamp) }
    ensures may { IfOk result (λ r. MayBegin r.core.opening) }
{
    let plan = plan_of(alloc, program, stamp)?;
    let (core, tasks) = begin(alloc, key, stamp)?;
    let desk = MemDesk::new(alloc, Vec::new(alloc), Vec::new(alloc))?;
    Ok(Ready {
        core,
        tasks,
        plan,
        desk,
    })
}
