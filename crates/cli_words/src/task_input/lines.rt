// The tasks that bytes spell.
ghost use Rattle.std.specs.Prelude.{◌≡◌};
ghost use Rattle.cli_words.specs.TaskInput.InputLines.{lines_of};
ghost use Rattle.cli_words.specs.TaskInput.Inputs.{IsInput};
ghost use Rattle.cli_words.specs.TaskInput.Steps.{error_for, AreTaken, IsTaken};

use crate::Reason;
use crate::task_input::cutting::has_line;
use crate::task_input::error::InputError;
use crate::task_input::limits::Limits;
use ann_key::cut_at;
use std::alloc::Global;
use task_text::{Task, TaskError, Tasks, read_task};

/// The tasks that the lines of the bytes spell, of which the last may lack its end; or the first line that is refused.
///
/// It is refused where in it the bytes pass their limit, where it is one too many, where it is too long, and where it is no
/// task, asked in this order.
pub fn tasks_in(alloc: Global, bytes: &[u8], limits: &Limits) -> Result<Tasks, InputError>
    ensures input { IsInput limits.now bytes.now result }
    ensures read { result ≡ Err InputError.Failed → ⊥ }
{
    if limits.bytes < bytes.len() {
        let (_, number) = take_lines(alloc, &bytes[..limits.bytes], false, limits)?;
        return Err(InputError::Refused {
            line: number,
            reason: Reason::Large,
        });
    }
    let (list, _) = take_lines(alloc, bytes, true, limits)?;
    Ok(Tasks::new(list))
}

// The tasks of the lines, and the number of the line after them.
fn take_lines(
    alloc: Global,
    text: &[u8],
    last: bool,
    limits: &Limits,
) -> Result<(Vec<Task>, u64), InputError>
    ensures lines { AreTaken limits.now (lines_of last text.now) result }
    ensures read { result ≡ Err InputError.Failed → ⊥ }
{
    let mut list = Vec::new(alloc);
    let mut number: u64 = 1;
    let mut rest = text;
    while has_line(last, rest) {
        let (line, more) = cut_at(rest, b'\n');
        list.push(task_at(alloc, number, line, limits)?)?;
        number += 1;
        rest = more;
    }
    Ok((list, number))
}

// The task of the line, which has that number.
fn task_at(alloc: Global, number: u64, line: &[u8], limits: &Limits) -> Result<Task, InputError>
    ensures line { IsTaken limits.now number line.now result }
    ensures read { result ≡ Err InputError.Failed → ⊥ }
{
    if limits.lines < number {
        return Err(InputError::Refused {
            line: number,
            reason: Reason::Many,
        });
    }
    if limits.line < line.len() {
        return Err(InputError::Refused {
            line: number,
            reason: Reason::Long,
        });
    }
    match read_task(alloc, line) {
        Ok(task) => Ok(task),
        Err(fault) => Err(error_for(fault, number)),
    }
}

// What that fault of a line is.
fn error_for(fault: TaskError, line: u64) -> InputError
    ensures { result ≡ error_for fault line }
{
    let reason = match fault {
        TaskError::Word => Reason::Word,
        TaskError::Key => Reason::Key,
        TaskError::Unsendable => Reason::Unsendable,
        TaskError::ChunkKey => Reason::ChunkKey,
        TaskError::File => Reason::File,
        TaskError::Name => Reason::Name,
        TaskError::NoMemory => return InputError::NoMemory,
    };
    InputError::Refused { line, reason }
}
