use ann_outside::{Sink, Source};
use child_link::{Lone, Wire};

/// What became of a child of a pool, up to where the pool serves.
#[derive(Drop)]
pub enum Seat<I: Sink, O: Source, S> {
    /// It isn't ready. It is closed, and its program was waited for.
    Over(Wire<I, O>),
    /// It serves, by the link in its turn. Its program is waited for by this.
    Serving(S),
}

/// The children of a pool: a seat for each, and a link for each that serves, both in the order of the starts. The child of slot 0 is the
/// first.
#[derive(Drop)]
pub struct Pool<I: Sink, O: Source, S> {
    pub links: Vec<Lone<I, O>>,
    pub seats: Vec<Seat<I, O, S>>,
}

/// What came of gathering a pool.
pub enum Gathering<I: Sink, O: Source, S> {
    /// Each slot had its start.
    Whole(Pool<I, O, S>),
    /// No memory was found to start a child; these were started before.
    NoMemory(Pool<I, O, S>),
    /// No memory was found for a pool, and nothing was done.
    NoRoom { link: Lone<I, O>, stub: S },
}
