/// What came of a copy.
#[derive(Clone, Copy, Debug, PartialEq, Eq)]
pub enum Copied {
    /// So many bytes were copied.
    Done(u64),
    /// A call of the desk failed, and was counted.
    Fault,
    /// A file wasn't there, and that was counted.
    Missing,
}
