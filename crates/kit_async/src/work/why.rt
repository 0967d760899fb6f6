/// Why a role of a kit ended by itself.
#[derive(Clone, Copy)]
pub enum Why {
    /// The host's lines came to an end.
    Eof,
    /// Reading failed.
    ReadFault,
    /// A line of the host is too long.
    Long,
    /// Writing failed.
    WriteFault,
    /// No memory was found.
    Memory,
}
