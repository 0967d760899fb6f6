/// Why no more lines are carried one way.
#[derive(Clone, Copy, Debug, PartialEq, Eq)]
pub enum End {
    /// The lines came to an end.
    Eof,
    /// A line is longer than the limit.
    Long,
    /// Reading failed.
    ReadFault,
    /// Writing failed.
    WriteFault,
    /// No memory was found.
    Memory,
}
