use ann_key::Bytes;

/// What a kit did with what waits at its side.
#[derive(Drop)]
pub enum Work {
    /// There is no line to take.
    Nothing,
    /// It is over: what stands first is no line that it takes.
    Over,
    /// It took a line. Where it gave an answer, this line was said, and these bytes were put under a key or in a file.
    Line { answer: Option<Bytes>, bytes: Bytes },
}
