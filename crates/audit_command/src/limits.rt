/// How much an input may have.
#[derive(Clone, Copy, Debug, PartialEq, Eq)]
pub struct Limits {
    /// How many lines.
    pub lines: u32,
    /// How many bytes.
    pub bytes: u64,
}

impl Limits {
    /// Those of the input of `audit`.
    pub const AUDIT: Limits = Limits {
        lines: 16_000_000,
        bytes: 4_294_967_296,
    };
}
