// The command `rehearse` with `world`: tasks in a closed world, and the audit of their journal.
ghost use Rattle.std.specs.Prelude.{◌≡◌, ◌≤◌, IfOk};
ghost use Rattle.special_cli.specs.Sayings.{Says};
ghost use Rattle.special_cli.specs.Tells.{IsPrintedOr};
ghost use Rattle.special_cli.specs.Walks.{WalksTasks, end_of_walk, is_walk_well, walk_status, walk_text};

use crate::end::End;
use crate::outside::Outside;
use crate::ran::Ran;
use crate::saying::Saying;
use crate::telling::{found_line, found_status};
use ann_key::{Bytes, NoMemory};
use ann_outside::{Desks, Programs};
use journal_audit::Audit;
use journal_model::Answer;
use rehearse_command::walk::WalkEnd;
use rehearse_plan::{Word, count_of, print_counts};
use std::alloc::Global;

/// Does so many tasks, which the seed gives, in a world of its own. What was handed in stays untouched.
pub(crate) fn walk_tasks<P: Programs, K: Desks>(
    alloc: Global,
    seed: u32,
    tasks: u32,
    outside: Outside<P, K>,
) -> Ran<P, K>
    requires { tasks ≤ 65536 }
    ensures { WalksTasks seed tasks outside result }
{
    let made = rehearse_command::walk::walk_tasks(alloc, seed, tasks);
    Ran {
        outside,
        journal: made.journal,
        answers: made.answers,
        wires: Vec::new(alloc),
        tables: Vec::new(alloc),
        end: end_of_walk(tasks, made.end),
    }
}

// What is to be told of a walk of so many tasks that ended so.
fn end_of_walk(tasks: u32, end: WalkEnd) -> End
    ensures { result ≡ end_of_walk tasks end }
{
    match end {
        WalkEnd::Memory => End::Memory,
        WalkEnd::Done { equal, found } => End::Walked {
            tasks,
            equal,
            found,
        },
    }
}

/// What is said of the answers, of how many tasks got the content of their keys, and of what was found of the journal.
pub(crate) fn walk_saying(
    alloc: Global,
    tasks: u32,
    answers: &[Answer],
    equal: u64,
    found: Audit,
) -> Saying
    ensures { Says result (IsPrintedOr (walk_status tasks answers.now equal found) (walk_text answers.now equal found)) }
{
    let text = walk_text(alloc, answers, equal, found);
    Saying::on_out(text, walk_status(tasks, answers, equal, found))
}

// The counts, and what was found of the journal.
fn walk_text(alloc: Global, answers: &[Answer], equal: u64, found: Audit) -> Result<Bytes, NoMemory>
    ensures { IfOk result (λ b. b ≡ walk_text answers.now equal found) }
{
    let mut text = print_counts(alloc, answers)?.into_vec();
    let line = format!(in alloc; "equal {equal}\n")?;
    text.extend_from_slice(line.as_bytes())?;
    text.extend_from_slice(found_line(alloc, found)?.view())?;
    Ok(Bytes::from_vec(text))
}

// Whether each task is answered by a word of its own, and got the content of its key if it got any.
fn is_walk_well(tasks: u32, answers: &[Answer], equal: u64) -> bool
    ensures { result ≡ is_walk_well tasks answers.now equal }
{
    answers.len() as u64 == u64::from(tasks)
        && count_of(Word::Other, answers) == 0
        && count_of(Word::Got, answers) == equal
}

fn walk_status(tasks: u32, answers: &[Answer], equal: u64, found: Audit) -> u8
    ensures { result ≡ walk_status tasks answers.now equal found }
{
    if is_walk_well(tasks, answers, equal) {
        found_status(found)
    } else {
        1
    }
}
