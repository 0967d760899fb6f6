// What came of a round.
use threads::roles::Refused;

/// What came of a round.
#[derive(Clone, Copy, Debug, PartialEq, Eq)]
pub enum Outcome {
    /// It is over.
    Done,
    /// Memory kept it from beginning.
    NoMemory,
    /// It had no threads: there was none for an ear, a mouth or any worker.
    NoThreads(Refused),
}
