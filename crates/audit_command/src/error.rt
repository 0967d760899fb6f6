use ann_key::NoMemory as OutOfMemory;
use thiserror::Error;

/// Why nothing is found of an input.
#[derive(Clone, Copy, Debug, PartialEq, Eq, Error)]
pub enum AuditError {
    /// The line of that number, counted from 1, is the first that can't follow those before it in a text of a run, or the one
    /// in which the input passes a limit.
    #[error("line {line}: entry")]
    Entry { line: u64 },
    /// The text has so many lines, and its end is missing.
    #[error("line {line}: cut")]
    Cut { line: u64 },
    /// The input couldn't be read.
    #[error("input failed")]
    Failed,
    #[error("no memory")]
    NoMemory,
}

impl From<OutOfMemory> for AuditError {
    ghost use Rattle.std.specs.Prelude.{◌≡◌};
    ghost use Rattle.audit_command.specs.declared.error.AuditError.TheVariants as is;

    ghost from_gives = { λ _ error. error ≡ is.NoMemory };

    fn from(_error: OutOfMemory) -> AuditError {
        AuditError::NoMemory
    }
}
