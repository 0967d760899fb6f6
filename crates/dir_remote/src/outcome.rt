// How a call went, and the word for it.
ghost use Rattle.std.specs.Prelude.{◌≡◌, IsTrue, IfOk};
ghost use Rattle.kit_serve.specs.Kit.Calls.{is_line_said};
ghost use Rattle.dir_remote.specs.Outcomes.{Says, refusal_of};

use ann_key::NoMemory;
use ann_outside::DeskError;
use kit_serve::kit::Said;
use std::alloc::Global;

#[derive(Clone, Copy)]
pub enum Outcome {
    Done,
    /// The content to check isn't there.
    NotThere,
    NotPrepared,
    NoDirectory,
    NotText,
    DiskFailed,
    NoSuchFile,
    NoMemory,
}

// Says the word.
pub fn say(alloc: Global, outcome: Outcome) -> Result<Said, NoMemory>
    ensures says { Says outcome result }
    ensures line { IfOk result (λ said. IsTrue (is_line_said said)) }
{
    match outcome {
        Outcome::Done => Ok(Said::Yes),
        Outcome::NotThere => Ok(Said::No),
        Outcome::NotPrepared => Said::failure(alloc, b"not prepared"),
        Outcome::NoDirectory => Said::failure(alloc, b"no directory"),
        Outcome::NotText => Said::failure(alloc, b"not text"),
        Outcome::DiskFailed => Said::failure(alloc, b"disk failed"),
        Outcome::NoSuchFile => Said::failure(alloc, b"no such file"),
        Outcome::NoMemory => Err(NoMemory),
    }
}

pub fn refusal(error: DeskError) -> Outcome
    ensures { result ≡ refusal_of error }
{
    match error {
        DeskError::Failed => Outcome::DiskFailed,
        DeskError::Missing => Outcome::NoSuchFile,
        DeskError::NoMemory => Outcome::NoMemory,
    }
}
