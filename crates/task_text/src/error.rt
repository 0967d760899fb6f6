use ann_key::NoMemory as OutOfMemory;
use thiserror::Error;

/// Why a line is no task: the first of these that holds, in this order.
#[derive(Clone, Copy, Debug, PartialEq, Eq, Error)]
pub enum TaskError {
    /// The first word is no work.
    #[error("no work")]
    Word,
    /// The key is missing or is none.
    #[error("no key")]
    Key,
    /// The key holds a blank or a control byte, so that no request can carry it.
    #[error("a key that cannot be sent")]
    Unsendable,
    /// The key is that of a chunk.
    #[error("a key of a chunk")]
    ChunkKey,
    /// The file is missing, isn't text, or holds a line's end.
    #[error("no file")]
    File,
    /// A name or a new name is missing, isn't text, or holds a byte 9 or a line's end.
    #[error("no name")]
    Name,
    /// The line spells a task, and no memory was found for it.
    #[error("no memory")]
    NoMemory,
}

impl From<OutOfMemory> for TaskError {
    ghost use Rattle.std.specs.Prelude.{◌≡◌};
    ghost use Rattle.task_text.specs.declared.error.TaskError.TheVariants.{NoMemory};

    ghost from_gives = { λ _ e. e ≡ NoMemory };

    fn from(_error: OutOfMemory) -> TaskError {
        TaskError::NoMemory
    }
}
