// What a walk comes to: its answers by their words, and the files that have what they were to get.
ghost use Rattle.std.specs.Prelude.{◌≡◌, ◌≤◌, ◌+◌, length, map, option_copied, slice_get, IfOk, Some};
ghost use Rattle.journal_model.specs.Legality.{task_of};
ghost use Rattle.journal_model.specs.Limits.{most_tasks};
ghost use Rattle.rehearse_plan.specs.Tallies.{count_of, words};
ghost use Rattle.rehearse_plan.specs.declared.tasks.TheConstants.{MOST_TASKS};
ghost use Rattle.run_answers.specs.Answers.{answer_of};
ghost use Rattle.pair_kit.specs.Shelves.{content};
ghost use Rattle.rehearse_command.specs.World.Walks.{counts_in, equal_in, file_of, has_bytes, has_content, is_equal, is_got};

use ann_key::NoMemory;
use host_core::Answer;
use journal_look::task_of;
use pair_world::World;
use rehearse_plan::{MOST_TASKS, Word, content_for, count_of};
use run_answers::{answers_by_task, answers_given};
use std::alloc::Global;

// How many of the answers count for each word.
fn count_all(answers: &[Answer]) -> [u64; 7]
    ensures { result ≡ map (λ word. count_of word answers.now) words }
{
    [
        count_of(Word::Stored, answers),
        count_of(Word::Got, answers),
        count_of(Word::Present, answers),
        count_of(Word::Absent, answers),
        count_of(Word::Dropped, answers),
        count_of(Word::Failed, answers),
        count_of(Word::Other, answers),
    ]
}

/// How many answers of the world's tasks count for each word.
pub(crate) fn counts_in(alloc: Global, world: &World) -> Result<[u64; 7], NoMemory>
    ensures { IfOk result (λ counts. counts ≡ counts_in world.now) }
{
    let answers = answers_given(alloc, world.core())?;
    Ok(count_all(answers.as_slice()))
}

fn is_got(answer: Option<Answer>) -> bool
    ensures { result ≡ is_got answer }
{
    matches!(answer, Some(Answer::Got))
}

// What is in the task's file, if there is one.
fn content_in(world: &World, task: u32) -> Option<&[u8]>
    ensures { option_copied result ≡ content (file_of (task_of world.entry.now.opening task)) world.entry.now.files }
{
    match task_of(world.core().opening(), task) {
        Some(task) => world.file(task.file.view()),
        None => world.file(""),
    }
}

fn has_bytes(bytes: Option<&[u8]>, wanted: &[u8]) -> bool
    ensures { result ≡ has_bytes (option_copied bytes.entry) wanted.now }
{
    match bytes {
        Some(bytes) => bytes == wanted,
        None => false,
    }
}

// Whether the task's file has the content of its key.
fn has_content(
    alloc: Global,
    world: &World,
    seed: u32,
    tasks: u32,
    task: u32,
) -> Result<bool, NoMemory>
    requires tasks { tasks ≤ MOST_TASKS }
    requires task { task ≤ MOST_TASKS }
    ensures { IfOk result (λ has. has ≡ has_content seed tasks world.now task) }
{
    let wanted = content_for(alloc, seed, tasks, task)?;
    Ok(has_bytes(content_in(world, task), wanted.view()))
}

// Whether the task, which was answered so, got the content of its key.
fn is_equal(
    alloc: Global,
    world: &World,
    seed: u32,
    tasks: u32,
    task: u32,
    answer: Option<Answer>,
) -> Result<bool, NoMemory>
    requires tasks { tasks ≤ MOST_TASKS }
    requires task { task ≤ MOST_TASKS }
    requires answer { answer ≡ answer_of world.now.journal task }
    ensures { IfOk result (λ equal. equal ≡ is_equal seed tasks world.now task) }
{
    if !is_got(answer) {
        return Ok(false);
    }
    has_content(alloc, world, seed, tasks, task)
}

/// How many tasks got the content of their keys, as their files have it.
pub(crate) fn equal_in(alloc: Global, world: &World, seed: u32, tasks: u32) -> Result<u64, NoMemory>
    requires tasks { tasks ≤ MOST_TASKS }
    requires few { length world.now.opening.tasks ≤ most_tasks }
    ensures { IfOk result (λ n. n ≡ equal_in seed tasks world.now) }
{
    let answers = answers_by_task(alloc, world.core())?;
    let count = world.core().opening().tasks.view().len() as u32;
    let mut equal = 0;
    'tasks: for before in 0..count {
        let Some(answer) = answers.get(before as usize) else {
            unreachable!();
        };
        if is_equal(alloc, world, seed, tasks, before + 1, *answer)? {
            equal += 1;
        }
    }
    Ok(equal)
}
