use ann_key::NoMemory;
use thiserror::Error;

/// Why bytes were not read as a line of a chunk log.
#[derive(Clone, Copy, Debug, PartialEq, Eq, Error)]
pub enum ChunkError {
    #[error("no stamp")]
    BadStamp,
    #[error("no uuid")]
    BadUuid,
    #[error("no count")]
    BadCount,
    #[error("no memory")]
    NoMemory,
}

impl From<NoMemory> for ChunkError {
    ghost use Rattle.std.specs.Prelude.{◌≡◌};
    ghost use Rattle.task_text.specs.declared.chunk_log.error.ChunkError.TheVariants as is;

    ghost from_gives = { λ _ error. error ≡ is.NoMemory };

    fn from(_error: NoMemory) -> ChunkError {
        ChunkError::NoMemory
    }
}
