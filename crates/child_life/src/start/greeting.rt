use ann_outside::{Sink, Source};
use child_link::Lone;
use journal_model::{Verdict, Why};

/// What a child is prepared for.
#[derive(Clone, Copy, Debug, PartialEq, Eq)]
pub enum Mode {
    /// To serve: it is asked PREPARE.
    Serve,
    /// To be set up: it is asked INITREMOTE, and nothing after it.
    Init,
}

/// What a child came to that was started and greeted.
#[derive(Clone, Copy, Debug, PartialEq, Eq)]
pub enum Came {
    /// It did what it was prepared for. Where that is to serve, it takes requests, with tags or without.
    Ready { tagged: bool },
    /// A line of it said that it can't get ready, or that it doesn't know the request. It may have ended since, or be mute.
    Refused { verdict: Verdict },
    /// It has ended, and it isn't prepared and hasn't refused to be.
    Ended { why: Why },
    /// A request couldn't be written to it, and it isn't prepared and hasn't refused to be.
    Unsent,
}

/// What became of a child that was to be started.
pub enum Greeting<I: Sink, O: Source, S> {
    /// It was started, and this came of its greeting.
    Child {
        link: Lone<I, O>,
        stub: S,
        came: Came,
    },
    /// The program couldn't be started.
    StartFault,
    /// No memory was found before anything was noted. A child that was started for nothing is closed and finished.
    NoMemory,
}
