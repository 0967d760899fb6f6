// The answers of a run, taken from its journal in one pass.
ghost use Rattle.std.specs.Prelude.{◌≡◌, ◌<◌, ◌∷◌, ◌++◌, [], IfOk, OnOk, Some, is_some, map, filter_map, slice_get, length, true};
ghost use Rattle.std.specs.List.{list_all};
ghost use Rattle.journal_model.specs.Legality.{numbers_of};
ghost use Rattle.journal_scan.specs.Shown.{entry_shown};
ghost use Rattle.run_answers.specs.Answering.{AreAllAnswered, HoldsAnswers, TakesUp, held_by};
ghost use Rattle.run_answers.specs.Answers.{AreAnswers, answer_of, given};

use ann_key::NoMemory;
use host_core::Core;
use journal_look::{EntryRef, Journal, WhatRef};
use journal_model::Answer;
use std::alloc::Global;

// Takes the entry's answer up, where the place of its task has none yet.
fn take_up(places: &mut [Option<Answer>], entry: EntryRef<'_>)
    ensures { TakesUp (entry_shown entry.entry) places.old places.new }
{
    let WhatRef::Answer { task, answer } = entry.what else {
        return;
    };
    let task = task as usize;
    if task == 0 || places.len() < task {
        return;
    }
    if places[task - 1].is_some() {
        return;
    }
    places[task - 1] = Some(answer);
}

/// The first answer of each of so many tasks, where it has one, in the order of the tasks.
pub fn answers_in(
    alloc: Global,
    journal: &Journal,
    tasks: usize,
) -> Result<Vec<Option<Answer>>, NoMemory>
    ensures { IfOk result (λ places. HoldsAnswers tasks journal.now.entries places.items) }
{
    let mut places = vec![in alloc; None; tasks]?;
    for at in 0..journal.len() {
        let Some(entry) = journal.entry(at) else {
            unreachable!();
        };
        take_up(places.as_mut_slice(), entry);
    }
    Ok(places)
}

// The answers of the places, each of which has one.
fn all_of(alloc: Global, places: &[Option<Answer>]) -> Result<Vec<Answer>, NoMemory>
    requires { list_all is_some places.now ≡ true }
    ensures { IfOk result (λ answers. map (λ answer. Some answer) answers.items ≡ places.now) }
{
    let mut answers = Vec::with_capacity(alloc, places.len())?;
    for place in places {
        let Some(answer) = place else {
            unreachable!();
        };
        answers.push(*answer)?;
    }
    Ok(answers)
}

/// The answers of all tasks, in their order. Each was answered.
pub fn answers_of(alloc: Global, core: &Core) -> Result<Vec<Answer>, NoMemory>
    requires { AreAllAnswered core.now.opening core.now.journal }
    ensures { IfOk result (λ answers. AreAnswers core.now.opening core.now.journal answers.items) }
{
    let tasks = core.opening().tasks.view().len();
    let places = answers_in(alloc, core.journal(), tasks)?;
    all_of(alloc, places.as_slice())
}

/// The answer of each task, where it has one, in the order of the tasks.
pub fn answers_by_task(alloc: Global, core: &Core) -> Result<Vec<Option<Answer>>, NoMemory>
    ensures { IfOk result (λ answers. answers.items ≡ map (answer_of core.now.journal) (numbers_of core.now.opening)) }
{
    let tasks = core.opening().tasks.view().len();
    answers_in(alloc, core.journal(), tasks)
}

// Adds the answer of a place, where it has one.
fn push_some(answers: &mut Vec<Answer>, place: Option<Answer>) -> Result<(), NoMemory>
    ensures { OnOk result (answers.new.items ≡ answers.old.items ++ held_by place) }
{
    if let Some(answer) = place {
        answers.push(answer)?;
    }
    Ok(())
}

// The answers of the places that have one.
fn some_of(alloc: Global, places: &[Option<Answer>]) -> Result<Vec<Answer>, NoMemory>
    ensures { IfOk result (λ answers. answers.items ≡ filter_map (λ place. place) places.now) }
{
    let mut answers = Vec::with_capacity(alloc, places.len())?;
    for place in places {
        push_some(&mut answers, *place)?;
    }
    Ok(answers)
}

/// The answers of the tasks that have one, in the order of the tasks.
#[tactic(auto, using(crate::proofs::Giving::given_of))]
pub fn answers_given(alloc: Global, core: &Core) -> Result<Vec<Answer>, NoMemory>
    ensures { IfOk result (λ answers. answers.items ≡ given core.now.opening core.now.journal) }
{
    let answers = answers_by_task(alloc, core)?;
    some_of(alloc, answers.as_slice())
}
