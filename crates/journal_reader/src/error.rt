use ann_key::NoMemory as OutOfMemory;
use thiserror::Error;

/// Why lines are no text of a run.
#[derive(Clone, Copy, Debug, PartialEq, Eq, Error)]
pub enum JournalError {
    /// The first line that can't follow those before it, counted from 1.
    #[error("line {line} can't follow")]
    BadLine { line: u64 },
    /// The last line is missing after this many.
    #[error("no end after line {line}")]
    Cut { line: u64 },
    #[error("no memory")]
    NoMemory,
}

impl From<OutOfMemory> for JournalError {
    ghost use Rattle.std.specs.Prelude.{◌≡◌};
    ghost use Rattle.journal_reader.specs.declared.error.JournalError.TheVariants as is;

    ghost from_gives = { λ _ error. error ≡ is.NoMemory };

    fn from(_error: OutOfMemory) -> JournalError {
        JournalError::NoMemory
    }
}
