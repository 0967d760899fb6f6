use crate::verdict::Why;
use ann_digest::Digest;

/// The answer of a task.
#[derive(Clone, Copy, PartialEq, Eq, Debug)]
pub enum Answer {
    /// The remote took the content.
    Stored,
    /// The content was fetched, and fits its key.
    Got,
    /// The remote has the content.
    Present,
    /// The remote has it no more.
    Dropped,
    /// The remote has renamed the file.
    Renamed,
    /// The remote doesn't have it.
    Absent,
    /// The remote doesn't know the request.
    Unsupported,
    /// Writing to the child failed before the request was written.
    Unsent,
    /// The program couldn't be started.
    StartFault,
    /// No child was left to do it.
    NoChild,
    /// A call on the files of the task failed.
    FileFault,
    /// A file that the task needs isn't there.
    NoFile,
    /// No memory was found.
    Memory,
    /// The remote failed; the line at that place says why.
    Failed { at: u64 },
    /// The remote doesn't know whether it has the content; the line at that place says why.
    Unknown { at: u64 },
    /// The child couldn't get ready; the line at that place says why.
    NotPrepared { at: u64 },
    /// The child ended before it had answered.
    Ended { why: Why },
    /// The content is of this length, which is not its key's.
    Size { bytes: u64 },
    /// The content has this digest, which is not its key's.
    Hash { digest: Digest },
}
