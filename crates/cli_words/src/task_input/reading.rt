// Reads an input.
ghost use Rattle.std.specs.Prelude.{◌≡◌, ℕ, List, IfSome, true};
ghost use Rattle.ann_outside.specs.Causes.{StaysUntold};
ghost use Rattle.cli_words.specs.TaskInput.Inputs.{IsInput};
ghost use Rattle.cli_words.specs.TaskInput.Reads.{InputComesTo, Gave, IsCounted};
ghost use Rattle.cli_words.specs.TaskInput.Steps.{Holds, IsStep};

use crate::task_input::error::InputError;
use crate::task_input::limits::Limits;
use crate::task_input::lines::tasks_in;
use ann_outside::{Failed, Source};
use std::alloc::Global;
use task_text::Tasks;

const STEP: usize = 4096;

/// Reads the source to its end, or to a byte past the limit, and then its tasks. The memory that it takes is a few times the
/// limit at most.
pub fn read_tasks<S: Source>(
    alloc: Global,
    source: &mut S,
    limits: &Limits,
) -> Result<Tasks, InputError>
    requires { (S.told source.old).is_open ≡ true }
    ensures input { (bytes : List ℕ) × Gave S.Source source.old source.new bytes × InputComesTo limits.now bytes (S.told source.new).left result }
    ensures told { IfSome (S.told source.old).left (λ all. IsInput limits.now all result) }
    ensures faults { IsCounted (S.told source.old).faults (S.told source.new).faults result }
    ensures silent { StaysUntold (S.told source.old).given (S.told source.new).given × StaysUntold (S.told source.old).left (S.told source.new).left }
    ensures open { (S.told source.new).is_open ≡ true }
    ensures number { (S.told source.new).number ≡ (S.told source.old).number }
{
    let bytes = read_bytes(alloc, source, limits.bytes)?;
    tasks_in(alloc, bytes.as_slice(), limits)
}

// What the source gives up to its end, or past the limit.
fn read_bytes<S: Source>(alloc: Global, source: &mut S, limit: usize) -> Result<Vec<u8>, InputError>
    requires { (S.told source.old).is_open ≡ true }
    ensures given { (bytes : List ℕ) × Gave S.Source source.old source.new bytes × Holds limit bytes (S.told source.new).left result }
    ensures faults { IsCounted (S.told source.old).faults (S.told source.new).faults result }
    ensures silent { StaysUntold (S.told source.old).given (S.told source.new).given × StaysUntold (S.told source.old).left (S.told source.new).left }
    ensures open { (S.told source.new).is_open ≡ true }
    ensures number { (S.told source.new).number ≡ (S.told source.old).number }
{
    let mut bytes = Vec::new(alloc);
    while bytes.len() <= limit {
        if !read_step(source, &mut bytes)? {
            return Ok(bytes);
        }
    }
    Ok(bytes)
}

// Reads once, and says whether there was something to read.
fn read_step<S: Source>(source: &mut S, bytes: &mut Vec<u8>) -> Result<bool, InputError>
    requires { (S.told source.old).is_open ≡ true }
    ensures given { (piece : List ℕ) × Gave S.Source source.old source.new piece × IsStep bytes.old.items bytes.new.items piece (S.told source.new).left result }
    ensures faults { IsCounted (S.told source.old).faults (S.told source.new).faults result }
    ensures silent { StaysUntold (S.told source.old).given (S.told source.new).given × StaysUntold (S.told source.old).left (S.told source.new).left }
    ensures open { (S.told source.new).is_open ≡ true }
    ensures number { (S.told source.new).number ≡ (S.told source.old).number }
{
    let mut piece = [0; STEP];
    match source.read(&mut piece) {
        Ok(0) => Ok(false),
        Ok(n) => {
            bytes.extend_from_slice(&piece[..n])?;
            Ok(true)
        }
        Err(Failed) => Err(InputError::Failed),
    }
}
