// The files that a rehearsal begins with.
ghost use Rattle.std.specs.Prelude.{◌≡◌, ◌≤◌, IfOk};
ghost use Rattle.rehearse_plan.specs.Plans.{byte_of, content_of, files_of, key_number, number_of};
ghost use Rattle.rehearse_plan.specs.declared.tasks.TheConstants.{MOST_TASKS};

use crate::tasks::{key_number, keys, number_of, size_of, source_of};
use ann_key::{Bytes, NoMemory, Text};
use std::alloc::Global;

// A byte of the content of the key of that number, at a place from 0.
fn byte_of(key: u32, place: u32) -> u8
    requires { (key ≤ MOST_TASKS) × (place ≤ MOST_TASKS) }
    ensures { result ≡ byte_of key place }
{
    ((key + 7 * place) % 256) as u8
}

// The content of the key of that number.
#[tactic(auto, using(crate::proofs::Looping::bytes_more))]
fn content_of(alloc: Global, key: u32) -> Result<Bytes, NoMemory>
    requires { key ≤ MOST_TASKS }
    ensures { IfOk result (λ bytes. bytes ≡ content_of key) }
{
    let mut bytes = Vec::new(alloc);
    'bytes: for at in 0..size_of(key) {
        bytes.push(byte_of(key, at))?;
    }
    Ok(Bytes::from_vec(bytes))
}

/// The content of the key of the task of that number, from 1.
pub fn content_for(alloc: Global, seed: u32, tasks: u32, task: u32) -> Result<Bytes, NoMemory>
    requires { (task ≤ MOST_TASKS) × (tasks ≤ MOST_TASKS) }
    ensures { IfOk result (λ bytes. bytes ≡ content_of (key_number tasks (number_of seed task))) }
{
    content_of(alloc, key_number(tasks, number_of(seed, task)))
}

/// The files that a rehearsal of so many tasks begins with: the content of each key, in the file of its number.
#[tactic(auto, using(crate::proofs::Looping::files_more))]
pub fn files_of(alloc: Global, tasks: u32) -> Result<Vec<(Text, Bytes)>, NoMemory>
    requires { tasks ≤ MOST_TASKS }
    ensures { IfOk result (λ files. files.items ≡ files_of tasks) }
{
    let mut files = Vec::new(alloc);
    'keys: for key in 0..keys(tasks) {
        files.push((source_of(alloc, key)?, content_of(alloc, key)?))?;
    }
    Ok(files)
}
