ghost use Rattle.std.specs.Prelude.{◌≡◌};
ghost use Rattle.kit_serve.specs.Ends.{status_of};

/// Why no more of the host is heard.
#[derive(Clone, Copy)]
pub enum End {
    /// The host's lines came to an end.
    Eof,
    /// A line spells no message, is too long, or was the last that the kit heard.
    Bad,
    /// Reading failed.
    ReadFault,
    /// Writing failed.
    WriteFault,
    /// No memory was found.
    Memory,
}

impl End {
    /// The exit status of a program that ends so.
    pub fn status(self) -> u8
        ensures { result ≡ status_of self }
    {
        match self {
            End::Eof => 0,
            End::Bad => 1,
            End::ReadFault => 4,
            End::WriteFault => 5,
            End::Memory => 7,
        }
    }
}
