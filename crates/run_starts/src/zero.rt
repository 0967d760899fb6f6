// Tasks that are claimed without a child, and answered at once.
ghost use Rattle.std.specs.Prelude.{◌≡◌, ◌++◌, ◌∷◌, ℕ, [], true, false};
ghost use Rattle.journal_model.specs.declared.entry.What.TheVariants.{Answer as Answered};
ghost use Rattle.journal_model.specs.Legality.{Legal, holder, is_busy, is_held_over_child, turn_of_task};
ghost use Rattle.host_core.specs.Steps.{may_answer};
ghost use Rattle.child_life.specs.Start.Cores.{IsSameCore};
ghost use Rattle.run_starts.specs.Rounds.{left_answer, unserved_answer};
ghost use Rattle.run_starts.specs.Stints.{AnswersLeft, AnswersOne, ClaimsZero, main_entry, task_in};

use crate::renewed::last_again;
use crate::starved::is_starved;
use ann_key::NoMemory;
use host_core::{Core, Event, Reply};
use journal_look::Journal;
use journal_model::Answer;
use task_model::TaskTurn;

fn task_in(reply: Reply) -> Option<TaskTurn>
    ensures { result ≡ task_in reply }
{
    match reply {
        Reply::Task { task, turn } => Some(TaskTurn { task, turn }),
        _ => None,
    }
}

// Claims the next task without a child. None where all are claimed.
fn claim(core: &mut Core) -> Option<TaskTurn>
    requires rest { (t : ℕ) → is_busy core.old.journal t ≡ false }
    ensures claims { ClaimsZero core.old.opening core.old.journal core.new.journal result }
    ensures core { IsSameCore core.old core.new }
{
    match core.step(0, Event::Claim { child: 0 }) {
        Ok(reply) => task_in(reply),
        Err(NoMemory) => unreachable!(),
    }
}

// No task is run again that was claimed without a child.
fn give(core: &mut Core, task: u32, answer: Answer)
    requires may { may_answer core.old.journal 0 task ≡ true }
    requires alone { is_held_over_child (holder core.old.journal task) ≡ false }
    ensures given { core.new.journal ≡ core.old.journal ++ main_entry (Answered task answer) ∷ [] }
    ensures core { IsSameCore core.old core.new }
{
    let _done = core.step(0, Event::Answer { task, answer });
}

/// Claims the next task without a child, and answers it so. Whether there was one.
pub fn answer_one(core: &mut Core, answer: Answer) -> bool
    requires legal { Legal core.old.opening core.old.journal }
    requires rest { (t : ℕ) → is_busy core.old.journal t ≡ false }
    ensures answers { AnswersOne core.old.opening core.old.journal core.new.journal (λ t. answer) result }
    ensures core { IsSameCore core.old core.new }
{
    match claim(core) {
        Some(turn) => {
            give(core, turn.task, answer);
            true
        }
        None => false,
    }
}

/// How a task is answered that was never to be run again, when no child can be started any more.
fn unserved_answer(journal: &Journal) -> Answer
    ensures { result ≡ unserved_answer journal.now.entries }
{
    if is_starved(journal) {
        Answer::Memory
    } else {
        Answer::NoChild
    }
}

// How this turn of a task is answered, which was just claimed without a child.
fn left_answer(journal: &Journal, turn: TaskTurn, unserved: Answer) -> Answer
    requires turn { turn.turn ≡ turn_of_task journal.now.entries turn.task }
    requires unserved { unserved ≡ unserved_answer journal.now.entries }
    ensures { result ≡ left_answer journal.now.entries turn.task }
{
    if turn.turn == 1 {
        return unserved;
    }
    match last_again(journal, turn.task) {
        Some(answer) => answer,
        None => unserved,
    }
}

// Claims the next task without a child, and answers it as it is when no child can be started any more. Whether there was one.
fn answer_left_one(core: &mut Core, unserved: Answer) -> bool
    requires legal { Legal core.old.opening core.old.journal }
    requires rest { (t : ℕ) → is_busy core.old.journal t ≡ false }
    requires unserved { unserved ≡ unserved_answer core.old.journal }
    ensures answers { AnswersOne core.old.opening core.old.journal core.new.journal (left_answer core.old.journal) result }
    ensures core { IsSameCore core.old core.new }
{
    match claim(core) {
        Some(turn) => {
            let answer = left_answer(core.journal(), turn, unserved);
            give(core, turn.task, answer);
            true
        }
        None => false,
    }
}

/// Answers all tasks that are left, where no child can be started any more: as its last Again says where a task has one, and else
/// `nochild`, or `memory` where a child ended for lack of it.
pub fn answer_left(core: &mut Core)
    requires legal { Legal core.old.opening core.old.journal }
    requires rest { (t : ℕ) → is_busy core.old.journal t ≡ false }
    ensures answers { AnswersLeft core.old.opening core.old.journal core.new.journal (left_answer core.old.journal) }
    ensures core { IsSameCore core.old core.new }
{
    let unserved = unserved_answer(core.journal());
    'tasks: loop {
        if !answer_left_one(core, unserved) {
            return;
        }
    }
}
