/// How much an input may have.
#[derive(Clone, Copy, Debug, PartialEq, Eq)]
pub struct Limits {
    /// How many lines.
    pub lines: u64,
    /// How many bytes.
    pub bytes: usize,
    /// How many bytes a line may have, its end not counted.
    pub line: usize,
}

impl Limits {
    /// Those of the input of `run`.
    pub const TASKS: Limits = Limits {
        lines: 65_536,
        bytes: 67_108_864,
        line: 65_536,
    };
}
