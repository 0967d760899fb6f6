use ann_key::Bytes;
use kit_serve::kit::{Asked, Said};

/// What a pass tells the core, or asks it. Hear and Close are the reader's, Next and Wrote the writer's, Take and Called a remote's.
#[derive(Drop)]
pub enum Event {
    /// A line of the host.
    Hear(Bytes),
    /// The remote has nothing to do.
    Take,
    /// What the remote said when it was called for what it took.
    Called(Said),
    /// The next line that is to be written is asked for.
    Next,
    /// It was written whole.
    Wrote,
    /// No more is heard.
    Close,
    /// From now on nothing is begun.
    Break,
}

/// What the core answers.
#[derive(Drop)]
pub enum Reply {
    Done,
    /// It was heard, and it is the last.
    Last,
    /// Nothing can be done now.
    Wait,
    /// Nothing more will come.
    Over,
    /// That can't be said here.
    Odd,
    /// The call is noted, and there was no memory for its answer.
    Unsaid,
    /// The core is broken off.
    Broken,
    /// The remote is to be called for this.
    Work(Asked),
    /// This is to be written.
    Line(Bytes),
}
