use crate::Reason;
use std::alloc::{AllocError, AllocFailed};
use thiserror::Error;

/// Why there are no tasks.
#[derive(Clone, Copy, Debug, PartialEq, Eq, Error)]
pub enum InputError {
    /// The line of that number, counted from 1, is the first that is refused.
    #[error("line {line}: {reason}")]
    Refused { line: u64, reason: Reason },
    /// The input couldn't be read.
    #[error("input failed")]
    Failed,
    /// No memory was found.
    #[error("no memory")]
    NoMemory,
}

impl From<AllocError> for InputError {
    ghost use Rattle.std.specs.Prelude.{◌≡◌};
    ghost use Rattle.cli_words.specs.declared.task_input.error.InputError.TheVariants.{NoMemory};

    ghost from_gives = { λ _ e. e ≡ NoMemory };

    fn from(_error: AllocError) -> InputError {
        InputError::NoMemory
    }
}

impl<T: Drop> From<AllocFailed<T>> for InputError {
    ghost use Rattle.std.specs.Prelude.{◌≡◌};
    ghost use Rattle.cli_words.specs.declared.task_input.error.InputError.TheVariants.{NoMemory};

    ghost from_gives = { λ _ e. e ≡ NoMemory };

    fn from(_error: AllocFailed<T>) -> InputError {
        InputError::NoMemory
    }
}
