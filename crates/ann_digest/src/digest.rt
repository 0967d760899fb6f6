// What a hash function gave.
ghost use Rattle.std.specs.Prelude.{◌≡◌, ℕ, ◌≤◌, ◌<◌, slice_index, length, Some};

use std::fmt;

/// A digest of at most 64 bytes. It is printed in lower-case hex.
#[derive(Clone, Copy, Debug, PartialEq, Eq)]
pub struct Digest {
    /// The digest, and zeros after it.
    pub bytes: [u8; 64],
    /// How many of the bytes are the digest.
    pub len: u8,
    ghost short: { len ≤ 64 },
    ghost blank: { (k : ℕ) → len ≤ k → k < 64 → slice_index bytes k ≡ 0 },
}

impl Digest {
    ghost use Rattle.ann_digest.specs.Digests.{digest_bytes};

    /// The digest of these bytes, which a hash function gave.
    pub fn of(given: &[u8]) -> Digest
        requires { length given.now ≤ 64 }
        ensures { digest_bytes result ≡ given.now }
    {
        let mut bytes = [0; 64];
        bytes[..given.len()].copy_from_slice(given);
        Digest {
            bytes,
            len: given.len() as u8,
        }
    }

    /// The bytes that the hash function gave.
    pub fn given(&self) -> &[u8]
        ensures { result.now ≡ digest_bytes self.now }
    {
        &self.bytes[..self.len as usize]
    }
}

impl fmt::Display for Digest {
    ghost use Rattle.ann_digest.specs.Digests.{digest_text};

    ghost output = { λ digest. Some (digest_text digest) };

    fn fmt<W: fmt::Write>(&self, f: &mut fmt::Formatter<W>) -> fmt::Result {
        for byte in self.given() {
            write!(f, "{byte:02x}")?;
        }
        Ok(())
    }
}
