use crate::digest::Digest;

/// What is said of content that was checked against a key.
#[derive(Clone, Copy, Debug, PartialEq, Eq)]
pub enum Fit {
    /// The content fits the key.
    Fits,
    /// The key has another size. This is the content's length in bytes.
    Size(u64),
    /// The key's name is not made of this digest, which is the content's.
    Hash(Digest),
}
