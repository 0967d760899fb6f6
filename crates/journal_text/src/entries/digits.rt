// Digests in lower-case hex.
ghost use Rattle.std.specs.Prelude.{◌≡◌, ◌≤◌, IfOk, length};
ghost use Rattle.journal_text.specs.Entries.Digits.{digest_at, digest_of};

use ann_digest::Digest;
use ann_key::NoMemory;
use hex::FromHexError;
use std::alloc::Global;

/// The digest that the text spells.
pub(crate) fn digest_at(alloc: Global, text: &[u8]) -> Result<Option<Digest>, NoMemory>
    ensures { IfOk result (λ digest. digest ≡ digest_at text.now) }
{
    match hex::decode(alloc, text) {
        Ok(given) => {
            if given.len() <= 64 {
                Ok(Some(digest_of(given.as_slice())))
            } else {
                Ok(None)
            }
        }
        Err(FromHexError::OutOfMemory) => Err(NoMemory),
        Err(_) => Ok(None),
    }
}

fn digest_of(given: &[u8]) -> Digest
    requires { length given.now ≤ 64 }
    ensures { result ≡ digest_of given.now }
{
    let digest = Digest::of(given);
    let _room = room(&digest.bytes);
    digest
}

// How many bytes a digest has room for.
fn room(bytes: &[u8; 64]) -> usize
    ensures { length bytes.now ≡ 64 }
{
    bytes.len()
}
