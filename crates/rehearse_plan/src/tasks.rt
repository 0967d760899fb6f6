// The tasks of a rehearsal.
ghost use Rattle.std.specs.Prelude.{◌≡◌, ◌≤◌, ◌<◌, IfOk};
ghost use Rattle.rehearse_plan.specs.Plans.{key_number, key_text, keys, number_of, size_of, source_of, target_of, task_file, task_of, tasks_of, work_of};
ghost use Rattle.rehearse_plan.specs.declared.tasks.TheConstants.{MOST_TASKS};

use ann_key::{Key, KeyRef, NoMemory, Text};
use std::alloc::Global;
use task_text::{Task, Tasks, Work};

/// How many tasks a rehearsal has at most.
pub const MOST_TASKS: u32 = 65536;

/// How many keys there are.
pub(crate) fn keys(tasks: u32) -> u32
    ensures { result ≡ keys tasks }
{
    tasks / 4 + 1
}

/// The number that the task is made of.
pub(crate) fn number_of(seed: u32, task: u32) -> u64
    requires { task ≤ MOST_TASKS }
    ensures { result ≡ number_of seed task }
{
    let task = u64::from(task);
    u64::from(seed) + 30 * task + task * task
}

/// The number of the key that a task has which is made of that number.
#[tactic(auto, using(crate::proofs::Planned::few_keys))]
pub(crate) fn key_number(tasks: u32, number: u64) -> u32
    requires { tasks ≤ MOST_TASKS }
    ensures value { result ≡ key_number tasks number }
    ensures few { result ≤ MOST_TASKS }
{
    (number % u64::from(keys(tasks))) as u32
}

fn work_of(number: u64) -> Work
    ensures { result ≡ work_of number }
{
    match number / 5 % 4 {
        0 => Work::Store,
        1 => Work::Get,
        2 => Work::Check,
        _ => Work::Drop,
    }
}

/// How many bytes the content of the key of that number has.
pub(crate) fn size_of(key: u32) -> u32
    ensures { result ≡ size_of key }
{
    16 + key % 200
}

// The key that the text of that number spells.
fn read_key(alloc: Global, text: &[u8], key: u32) -> Result<Key, NoMemory>
    requires { text.now ≡ key_text key }
    ensures { IfOk result (λ k. k ≡ key_text key) }
{
    match KeyRef::read(text) {
        Ok(key) => Key::copy(alloc, key),
        Err(_) => unreachable!(),
    }
}

// The key of that number.
fn key_of(alloc: Global, key: u32) -> Result<Key, NoMemory>
    ensures { IfOk result (λ k. k ≡ key_text key) }
{
    let size = size_of(key);
    let text = format!(in alloc; "WORM-s{size}--r{key}")?;
    read_key(alloc, text.as_bytes(), key)
}

/// The file that has the content of the key of that number.
pub(crate) fn source_of(alloc: Global, key: u32) -> Result<Text, NoMemory>
    ensures { IfOk result (λ name. name ≡ source_of key) }
{
    let name = format!(in alloc; "src/{key}")?;
    Text::copy(alloc, name.as_str())
}

// The file that the task makes, if it gets a key.
fn target_of(alloc: Global, task: u32) -> Result<Text, NoMemory>
    ensures { IfOk result (λ name. name ≡ target_of task) }
{
    let name = format!(in alloc; "dst/{task}")?;
    Text::copy(alloc, name.as_str())
}

fn task_file(alloc: Global, work: Work, key: u32, task: u32) -> Result<Text, NoMemory>
    ensures { IfOk result (λ name. name ≡ task_file work key task) }
{
    match work {
        Work::Store => source_of(alloc, key),
        Work::Get => target_of(alloc, task),
        Work::Check | Work::Drop => Text::copy(alloc, ""),
        // no rehearsal has tasks of exports
        Work::XStore | Work::XGet | Work::XCheck | Work::XDrop | Work::XRename => Text::copy(
            alloc, "",
        ),
    }
}

// The task of that number, from 1.
fn task_of(alloc: Global, seed: u32, tasks: u32, task: u32) -> Result<Task, NoMemory>
    requires { (task ≤ MOST_TASKS) × (tasks ≤ MOST_TASKS) }
    ensures { IfOk result (λ t. t ≡ task_of seed tasks task) }
{
    let number = number_of(seed, task);
    let work = work_of(number);
    let key = key_number(tasks, number);
    Ok(Task {
        work,
        key: key_of(alloc, key)?,
        file: task_file(alloc, work, key, task)?,
        name: Text::copy(alloc, "")?,
        onto: Text::copy(alloc, "")?,
    })
}

/// So many tasks, by the seed.
#[tactic(auto, using(crate::proofs::Looping::tasks_more))]
pub fn tasks_of(alloc: Global, seed: u32, tasks: u32) -> Result<Tasks, NoMemory>
    requires { tasks ≤ MOST_TASKS }
    ensures { IfOk result (λ list. list ≡ tasks_of seed tasks) }
{
    let mut list = Vec::new(alloc);
    'tasks: for before in 0..tasks {
        list.push(task_of(alloc, seed, tasks, before + 1)?)?;
    }
    Ok(Tasks::new(list))
}
