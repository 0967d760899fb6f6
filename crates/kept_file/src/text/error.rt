use ann_key::NoMemory as OutOfMemory;
use thiserror::Error;

/// Why a text is no kept file.
#[derive(Clone, Copy, Debug, PartialEq, Eq, Error)]
pub enum KeepError {
    /// The first line that may not stand there, counted from 1.
    #[error("line {line} is none of a kept file")]
    BadLine { line: u64 },
    #[error("no memory")]
    NoMemory,
}

impl From<OutOfMemory> for KeepError {
    ghost use Rattle.std.specs.Prelude.{◌≡◌};
    ghost use Rattle.kept_file.specs.declared.text.error.KeepError.TheVariants as is;

    ghost from_gives = { λ _ error. error ≡ is.NoMemory };

    fn from(_error: OutOfMemory) -> KeepError {
        KeepError::NoMemory
    }
}
