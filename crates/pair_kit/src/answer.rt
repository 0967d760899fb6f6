use ann_key::Bytes;

/// An answer of a kit: the child, the line of its request, the last line that it said to it, and the bytes that the call after
/// that line put under a key or in a file. Lines are without byte 10.
#[derive(Drop)]
pub struct Answer {
    pub child: u32,
    pub request: Bytes,
    pub line: Bytes,
    pub bytes: Bytes,
}
