// Chunks of a size, how many, and since when.
ghost use Rattle.std.specs.Prelude.{◌≡◌};

use crate::chunk_log::stamp::Stamp;

/// What a line that counts says of a key at a remote.
#[derive(Clone, Copy, Debug, PartialEq, Eq)]
pub struct Standing {
    pub stamp: Stamp,
    pub chunk: u64,
    pub count: u64,
}

impl Standing {
    ghost use Rattle.task_text.specs.ChunkLog.Current.{stands_before};

    /// Whether it stands before another: the newer first, then the larger chunks first.
    pub fn stands_before(&self, other: &Standing) -> bool
        ensures { result ≡ stands_before self.now other.now }
    {
        if self.stamp.seconds != other.stamp.seconds {
            return self.stamp.seconds > other.stamp.seconds;
        }
        if self.stamp.nanos != other.stamp.nanos {
            return self.stamp.nanos > other.stamp.nanos;
        }
        self.chunk > other.chunk
    }
}
