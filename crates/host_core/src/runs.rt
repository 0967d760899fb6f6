// What is kept of each task, so that a claim and an answer needn't go through the journal.
ghost use Rattle.std.specs.Prelude.{◌≡◌, ◌≤◌, ◌<◌, ◌-◌, ◌^◌, [], length, List, IfOk};
ghost use Rattle.std.specs.List.{slice_set};
ghost use Rattle.journal_model.specs.declared.entry.Entry.{Entry};
ghost use Rattle.journal_model.specs.declared.opening.Opening.{Opening};
ghost use Rattle.journal_model.specs.Legality.{is_of_lost_child, is_run_again, turn_of_task};
ghost use Rattle.journal_model.specs.Limits.{most_tasks};
ghost use Rattle.host_core.specs.Runs.{AreRuns, IsCounted, held_so, no_run, run_again, run_in, runs_after};

use ann_key::NoMemory;
use journal_model::{Answer, Opening, What};
use std::alloc::Global;

/// How often a task was to be run again, and whether it is held for a child.
#[derive(Clone, Copy)]
pub struct Run {
    pub renewed: u8,
    pub over_child: bool,
}

fn no_run() -> Run
    ensures { result ≡ no_run }
{
    Run {
        renewed: 0,
        over_child: false,
    }
}

/// The table before the first entry.
pub(super) fn first_runs(alloc: Global, opening: &Opening) -> Result<Vec<Run>, NoMemory>
    requires { length opening.now.tasks ≤ most_tasks }
    ensures { IfOk result (λ runs. AreRuns opening.now [] runs.items) }
{
    let mut runs = Vec::new(alloc);
    runs.resize(opening.tasks.view().len() + 1, no_run())?;
    Ok(runs)
}

fn run_in(runs: &[Run], task: u32) -> Run
    ensures { result ≡ run_in runs.now task }
{
    match runs.get(task as usize) {
        Some(run) => *run,
        None => no_run(),
    }
}

/// The task's turn at its next claim, or at its last one while it is held.
pub(super) fn turn_of_task(runs: &[Run], task: u32) -> u32
    ensures { (o : Opening) (past : List Entry) → AreRuns o past runs.now → result ≡ turn_of_task past task }
{
    1 + u32::from(run_in(runs, task).renewed)
}

/// Whether the answer says that the child was lost.
fn is_of_lost_child(answer: Answer) -> bool
    ensures { result ≡ is_of_lost_child answer }
{
    matches!(answer, Answer::Ended { .. } | Answer::Unsent)
}

/// Whether the task is run again in place of this answer.
pub(super) fn is_run_again(opening: &Opening, runs: &[Run], task: u32, answer: Answer) -> bool
    ensures { (past : List Entry) → AreRuns opening.now past runs.now → result ≡ is_run_again opening.now past task answer }
{
    let run = run_in(runs, task);
    is_of_lost_child(answer) && run.over_child && u32::from(run.renewed) < opening.again
}

fn put(runs: &mut Vec<Run>, task: u32, run: Run)
    ensures { runs.new.items ≡ slice_set runs.old.items task run }
{
    let at = task as usize;
    if at < runs.len() {
        runs[at] = run;
    }
}

fn hold(runs: &mut Vec<Run>, task: u32, over_child: bool)
    ensures { runs.new.items ≡ slice_set runs.old.items task (held_so over_child (run_in runs.old.items task)) }
{
    let renewed = run_in(runs, task).renewed;
    put(
        runs,
        task,
        Run {
            renewed,
            over_child,
        },
    );
}

fn renew(runs: &mut Vec<Run>, task: u32)
    requires { (run_in runs.old.items task).renewed < 2 ^ 8 - 1 }
    ensures { runs.new.items ≡ slice_set runs.old.items task (run_again (run_in runs.old.items task)) }
{
    let renewed = run_in(runs, task).renewed + 1;
    put(
        runs,
        task,
        Run {
            renewed,
            over_child: false,
        },
    );
}

/// Notes the first entry of a group. It takes no memory.
pub(super) fn note(runs: &mut Vec<Run>, what: &Option<What>)
    requires { IsCounted what.now runs.old.items }
    ensures { runs.new.items ≡ runs_after what.now runs.old.items }
{
    match what {
        Some(What::Claim { task, child }) => hold(runs, *task, *child != 0),
        Some(What::Answer { task, .. }) => hold(runs, *task, false),
        Some(What::Again { task, .. }) => renew(runs, *task),
        _ => {}
    }
}
