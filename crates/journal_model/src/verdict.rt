/// Why a child ended. A place is that of the line in the run's journal.
#[derive(Clone, Copy, PartialEq, Eq, Debug)]
pub enum Why {
    /// Its output came to an end.
    Eof,
    /// Its output couldn't be read.
    ReadFault,
    /// A line was longer than the limit.
    LongLine,
    /// The journal has reached its limit, and takes no further line.
    Full,
    /// No memory was found to go on with it.
    Memory,
    /// The host was done with it.
    Closed,
    /// It said this line where it can't follow.
    Foul { at: u64 },
    /// It said `ERROR` in this line.
    Error { at: u64 },
    /// Its first line was not `VERSION 1`.
    Version { at: u64 },
}

/// How a job was settled: by the line at that place, or with its child, or unsent.
#[derive(Clone, Copy, PartialEq, Eq, Debug)]
pub enum Verdict {
    Done { at: u64 },
    Failed { at: u64 },
    Absent { at: u64 },
    Unknown { at: u64 },
    Unsupported { at: u64 },
    Ended { why: Why },
    Unsent,
}
