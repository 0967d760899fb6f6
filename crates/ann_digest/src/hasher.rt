// A running hash.
ghost use Rattle.std.specs.Prelude.{◌≡◌, ℕ, List, [], ◌++◌};
ghost use Rattle.ann_digest.specs.Digests.{digest_bytes};
ghost use Rattle.ann_digest.specs.HashKinds.{digest_by};
ghost use Rattle.ann_digest.specs.Hashers.{running, Hashes};

use crate::digest::Digest;
use crate::hash_kind::HashKind;
use md5::{Digest as _, Md5};
use sha1::Sha1;
use sha2::{Digest as _, Sha224, Sha256, Sha384, Sha512};

#[derive(Drop)]
pub enum Hasher {
    Md5(Md5),
    Sha1(Sha1),
    Sha224(Sha224),
    Sha256(Sha256),
    Sha384(Sha384),
    Sha512(Sha512),
}

impl Hasher {
    pub fn new(kind: HashKind) -> Hasher
        ensures kind { running result ≡ kind }
        ensures empty { Hashes result [] }
    {
        match kind {
            HashKind::Md5 => Hasher::Md5(Md5::new()),
            HashKind::Sha1 => Hasher::Sha1(Sha1::new()),
            HashKind::Sha224 => Hasher::Sha224(Sha224::new()),
            HashKind::Sha256 => Hasher::Sha256(Sha256::new()),
            HashKind::Sha384 => Hasher::Sha384(Sha384::new()),
            HashKind::Sha512 => Hasher::Sha512(Sha512::new()),
        }
    }

    pub fn update(&mut self, piece: &[u8])
        ensures kind { running self.new ≡ running self.old }
        ensures bytes { (bytes : List ℕ) → Hashes self.old bytes → Hashes self.new (bytes ++ piece.now) }
    {
        match self {
            Hasher::Md5(hash) => hash.update(piece),
            Hasher::Sha1(hash) => hash.update(piece),
            Hasher::Sha224(hash) => hash.update(piece),
            Hasher::Sha256(hash) => hash.update(piece),
            Hasher::Sha384(hash) => hash.update(piece),
            Hasher::Sha512(hash) => hash.update(piece),
        }
    }

    pub fn finish(self) -> Digest
        ensures { (bytes : List ℕ) → Hashes self bytes → digest_bytes result ≡ digest_by (running self) bytes }
    {
        match self {
            Hasher::Md5(hash) => Digest::of(&hash.finalize()),
            Hasher::Sha1(hash) => Digest::of(&hash.finalize()),
            Hasher::Sha224(hash) => Digest::of(&hash.finalize()),
            Hasher::Sha256(hash) => Digest::of(&hash.finalize()),
            Hasher::Sha384(hash) => Digest::of(&hash.finalize()),
            Hasher::Sha512(hash) => Digest::of(&hash.finalize()),
        }
    }
}
