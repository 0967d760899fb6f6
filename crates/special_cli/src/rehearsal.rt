// The command `rehearse`: tasks over remotes in memory, and the audit of their journal.
ghost use Rattle.std.specs.Prelude.{◌≡◌, ◌≤◌, IfOk};
ghost use Rattle.special_cli.specs.Rehearsals.{HasRehearsed, end_of_rehearsal, rehearsal_status, rehearsal_text};
ghost use Rattle.special_cli.specs.Sayings.{Says};
ghost use Rattle.special_cli.specs.Tells.{IsPrintedOr};

use crate::end::End;
use crate::outside::Outside;
use crate::ran::Ran;
use crate::saying::Saying;
use crate::telling::{found_line, found_status};
use ann_key::{Bytes, NoMemory};
use ann_outside::{Desks, Programs};
use journal_audit::Audit;
use journal_model::Answer;
use rehearse_command::{RehearsalEnd, rehearse};
use rehearse_plan::{Word, count_of, print_counts};
use std::alloc::Global;
use std::marker::Sync;
use std::sync::Wait;
use std::thread::Threads;

/// Does so many tasks, which the seed gives, over remotes of its own. What was handed in stays untouched.
pub(crate) fn rehearse_tasks<P: Programs, K: Desks, R: Threads + Wait + Sync>(
    rt: &R,
    alloc: Global,
    seed: u32,
    tasks: u32,
    outside: Outside<P, K>,
) -> Ran<P, K>
    requires { tasks ≤ 65536 }
    ensures { HasRehearsed seed tasks outside result }
{
    let made = rehearse(rt, alloc, seed, tasks);
    Ran {
        outside,
        journal: made.journal,
        answers: made.answers,
        wires: Vec::new(alloc),
        tables: Vec::new(alloc),
        end: end_of(made.end),
    }
}

// What is to be told of a rehearsal that ended so.
fn end_of(end: RehearsalEnd) -> End
    ensures { result ≡ end_of_rehearsal end }
{
    match end {
        RehearsalEnd::Memory => End::Memory,
        RehearsalEnd::Done(found) => End::Rehearsed(found),
    }
}

/// What is said of the answers, and of what was found of the journal.
pub(crate) fn rehearsal_saying(alloc: Global, answers: &[Answer], found: Audit) -> Saying
    ensures { Says result (IsPrintedOr (rehearsal_status answers.now found) (rehearsal_text answers.now found)) }
{
    let text = rehearsal_text(alloc, answers, found);
    Saying::on_out(text, rehearsal_status(answers, found))
}

// The counts of the answers, and what was found of the journal.
fn rehearsal_text(alloc: Global, answers: &[Answer], found: Audit) -> Result<Bytes, NoMemory>
    ensures { IfOk result (λ b. b ≡ rehearsal_text answers.now found) }
{
    let mut text = print_counts(alloc, answers)?.into_vec();
    text.extend_from_slice(found_line(alloc, found)?.view())?;
    Ok(Bytes::from_vec(text))
}

fn rehearsal_status(answers: &[Answer], found: Audit) -> u8
    ensures { result ≡ rehearsal_status answers.now found }
{
    if count_of(Word::Other, answers) == 0 {
        found_status(found)
    } else {
        1
    }
}
