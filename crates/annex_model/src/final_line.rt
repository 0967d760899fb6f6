/// What a final line says of its request.
#[derive(Clone, Copy, PartialEq, Eq, Debug)]
pub enum Final {
    Done,
    Failed,
    Absent,
    Unknown,
    /// The remote doesn't know the request.
    Unsupported,
}
