ghost use Rattle.std.specs.Prelude.{◌≡◌};
ghost use Rattle.kit_async.specs.Served.{status_of};

/// Why a kit stopped.
#[derive(Clone, Copy)]
pub enum Why {
    /// The host's lines came to an end.
    Eof,
    /// Reading failed.
    ReadFault,
    /// Writing failed.
    WriteFault,
    /// A line of the host is too long, is ERROR, has no tag where it should, or has no place where it stands.
    Bad,
    /// No memory was found.
    Memory,
}

impl Why {
    /// The exit status of a program that stops so.
    pub fn status(self) -> u8
        ensures { result ≡ status_of self }
    {
        match self {
            Why::Eof => 0,
            Why::Bad => 1,
            Why::ReadFault => 4,
            Why::WriteFault => 5,
            Why::Memory => 7,
        }
    }
}
