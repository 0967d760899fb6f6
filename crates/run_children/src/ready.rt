use ann_outside::{Sink, Source};
use child_link::Lone;

/// A child that is ready: its link, what waits for its program, and whether it takes tags.
pub(crate) struct Ready<I: Sink, O: Source, S> {
    pub link: Lone<I, O>,
    pub stub: S,
    pub tagged: bool,
}

/// What came of one start of slot 0.
pub(crate) enum Begun<I: Sink, O: Source, S> {
    /// Its child is ready.
    Ready(Ready<I, O, S>),
    /// It gave no child that is ready, and one task was answered by what came of it.
    Turned,
    /// No memory was found to start a child.
    NoMemory,
}
