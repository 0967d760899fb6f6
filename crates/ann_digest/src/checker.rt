// Whether content fits a key.
ghost use Rattle.std.specs.Prelude.{◌≡◌, ℕ, ◌+◌, ◌^◌, ◌<◌, ◌↔◌, List, [], ◌++◌, length, IsTrue};
ghost use Rattle.ann_key.specs.Keys.{Parts};
ghost use Rattle.ann_digest.specs.Digests.{digest_text};
ghost use Rattle.ann_digest.specs.Fits.{HasSize, IsTold};
ghost use Rattle.ann_digest.specs.HashKinds.{IsNamed};

use crate::digest::Digest;
use crate::fit::Fit;
use crate::hash_kind::{is_named, naming_of};
use crate::hasher::Hasher;
use ann_key::KeyRef;

/// Checks content, which comes in pieces, against a key.
///
/// A chunk's content is never checked: the key says what the whole content is, and not what the chunk is.
#[derive(Drop)]
pub struct Checker<'a> {
    key: KeyRef<'a>,
    taken: u64,
    hasher: Option<Hasher>,
    extended: bool,
}

impl<'a> Checker<'a> {
    ghost use Rattle.ann_key.specs.KeyRefs.{parts_of};
    ghost use Rattle.ann_digest.specs.Checkers.{taken_of, Holds};
    ghost use Rattle.ann_digest.specs.Fits.{FitsKey, IsSaidOf};

    /// A checker that has taken in nothing.
    pub fn new(key: KeyRef<'a>) -> Checker<'a>
        ensures { Holds result (parts_of key.entry) [] }
    {
        match naming_of(key.backend()) {
            Some(naming) => Checker {
                key,
                taken: 0,
                hasher: Some(Hasher::new(naming.kind)),
                extended: naming.extended,
            },
            None => Checker {
                key,
                taken: 0,
                hasher: None,
                extended: false,
            },
        }
    }

    /// Takes in one more piece of the content.
    pub fn update(&mut self, piece: &[u8])
        requires { taken_of self.old + length piece.now < 2 ^ 64 }
        ensures taken { taken_of self.new ≡ taken_of self.old + length piece.now }
        ensures bytes { (key : Parts) (bytes : List ℕ) → Holds self.old key bytes → Holds self.new key (bytes ++ piece.now) }
    {
        self.taken += piece.len() as u64;
        if let Some(hasher) = &mut self.hasher {
            hasher.update(piece);
        }
    }

    /// What is to be said of all the pieces together.
    pub fn finish(self) -> Fit
        ensures said { (key : Parts) (bytes : List ℕ) → Holds self.entry key bytes → IsSaidOf key bytes result }
        ensures fits { (key : Parts) (bytes : List ℕ) → Holds self.entry key bytes → (result ≡ Fit.Fits) ↔ FitsKey key bytes }
    {
        if !is_size(self.key.size(), self.taken) {
            return Fit::Size(self.taken);
        }
        match self.hasher {
            Some(hasher) => fit_of(self.key.name(), self.extended, hasher.finish()),
            None => Fit::Fits,
        }
    }
}

fn is_size(size: Option<u64>, taken: u64) -> bool
    ensures { IsTrue result ↔ HasSize size taken }
{
    match size {
        Some(size) => size == taken,
        None => true,
    }
}

fn fit_of(name: &[u8], extended: bool, digest: Digest) -> Fit
    ensures { IsTold extended name.now digest result }
{
    if is_digest_named(name, extended, &digest) {
        Fit::Fits
    } else {
        Fit::Hash(digest)
    }
}

fn is_digest_named(name: &[u8], extended: bool, digest: &Digest) -> bool
    ensures { IsTrue result ↔ IsNamed extended (digest_text digest.now) name.now }
{
    let mut text = [0; 128];
    let end = 2 * digest.len as usize;
    match hex::encode_to_slice(digest.given(), &mut text[..end]) {
        Ok(()) => is_named(name, &text[..end], extended),
        Err(_) => unreachable!(),
    }
}
