/// What an audit finds.
#[derive(Clone, Copy, PartialEq, Eq, Debug)]
pub enum Audit {
    /// The journal is legal.
    Legal,
    /// The entry at this place is the first that may not stand, and is of this kind; or the journal has so many entries,
    /// each of which may stand, and others are due after them, where the kind is 0.
    Wrong { entry: u64, kind: u8 },
}

/// The place of the first entry that may not stand, and the number of its kind.
#[derive(Clone, Copy, PartialEq, Eq, Debug)]
pub struct Misplaced {
    pub entry: u64,
    pub kind: u8,
}
