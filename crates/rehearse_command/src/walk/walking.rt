// The walk, its answers, and what is found of its journal.
ghost use Rattle.std.specs.Prelude.{◌≡◌, ◌≤◌, IfOk};
ghost use Rattle.journal_audit.specs.Audits.{IsAudit};
ghost use Rattle.pair_world.specs.Standing.{Stands};
ghost use Rattle.rehearse_plan.specs.declared.tasks.TheConstants.{MOST_TASKS};
ghost use Rattle.run_answers.specs.Answers.{given};
ghost use Rattle.rehearse_command.specs.Walk.Walks.{EndsWalk, IsWalkOf};

use crate::walk::made::{WalkEnd, WalkMade};
use crate::world::{Walk, walk};
use ann_key::NoMemory;
use journal_audit::{Audit, audit};
use journal_look::Journal;
use journal_model::Answer;
use pair_world::World;
use rehearse_plan::MOST_TASKS;
use run_answers::answers_given;
use std::alloc::Global;

// What the journal of a world answers, and what is found of it.
fn found_of(alloc: Global, world: &World) -> Result<(Vec<Answer>, Audit), NoMemory>
    requires { Stands world.now }
    ensures answers { IfOk result (λ found. found.0.items ≡ given world.now.opening world.now.journal) }
    ensures audit { IfOk result (λ found. IsAudit world.now.opening world.now.journal found.1) }
{
    let core = world.core();
    let answers = answers_given(alloc, core)?;
    let found = audit(alloc, core.opening(), core.journal())?;
    Ok((answers, found))
}

// The journal of a world that is no longer needed.
fn journal_of(world: World) -> Journal
    ensures { result.entries ≡ world.journal }
{
    let (journal, _, _) = world.close().close();
    journal
}

// The answers, and what is found of the journal of a world to which tasks were walked.
fn finish(alloc: Global, seed: u32, tasks: u32, walked: Walk) -> WalkMade
    requires { IsWalkOf seed tasks walked }
    ensures { EndsWalk seed tasks result.journal.entries result.answers.items result.end }
{
    let Walk {
        counts: _,
        equal,
        world,
    } = walked;
    let found = found_of(alloc, &world);
    let journal = journal_of(world);
    match found {
        Ok((answers, found)) => WalkMade {
            journal,
            answers,
            end: WalkEnd::Done { equal, found },
        },
        Err(NoMemory) => WalkMade::nothing(alloc),
    }
}

/// Does so many tasks, which the seed gives, in a world of its own, and audits their journal. It touches nothing outside.
pub fn walk_tasks(alloc: Global, seed: u32, tasks: u32) -> WalkMade
    requires { tasks ≤ MOST_TASKS }
    ensures { EndsWalk seed tasks result.journal.entries result.answers.items result.end }
{
    match walk(alloc, u64::from(seed), tasks) {
        Ok(walked) => finish(alloc, seed, tasks, walked),
        Err(NoMemory) => WalkMade::nothing(alloc),
    }
}
