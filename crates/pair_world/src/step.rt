use host_core::{Event, Reply};

/// A step of the world, by the number of its child. Bytes are moved in order, and lines are taken one at a time.
#[derive(Drop)]
pub enum Move {
    /// An event of the core by this number, but for those that other moves bring.
    Event { by: u32, event: Event },
    /// The next line for the child goes into its pipe.
    Write { child: u32 },
    /// So many bytes reach the kit's side.
    ToKit { child: u32, n: u32 },
    /// The kit takes a line, and what it says goes into its pipe.
    Work { child: u32 },
    /// So many bytes reach the host's side.
    ToHost { child: u32, n: u32 },
    /// The core takes a line of the child.
    Hear { child: u32 },
    /// The child's output is at its end.
    End { child: u32 },
}

/// What came of a move.
#[derive(Drop)]
pub enum Moved {
    /// It was made, and the core answered so; Done where the core wasn't asked.
    Did(Reply),
    /// It can't be made now, and nothing has changed.
    Not,
}
