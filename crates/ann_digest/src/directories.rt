// The directories that a key's content lies in.
ghost use Rattle.std.specs.Prelude.{◌≡◌, ℕ, ◌<◌, ◌^◌, List, ◌++◌};
ghost use Rattle.ann_key.specs.Keys.{without_chunk, IsKey};
ghost use Rattle.ann_key.specs.KeyRefs.{parts_of};
ghost use Rattle.ann_digest.specs.Directories.{letter, lower_of, lower_under, mixed_of, mixed_under};
ghost use Rattle.md5.specs.Md5.{md5};

use ann_key::KeyRef;
use md5::{Digest as _, Md5};

const LETTERS: &[u8; 32] = b"0123456789zqjxkmvwgpfZQJXKMVWGPF";

/// The directories in lower case, as in `f87/4d5`. A chunk lies where the whole content would.
///
/// <https://git-annex.branchable.com/internals/hashing/>
pub fn lower(key: KeyRef<'_>) -> [u8; 7]
    ensures { (base : List ℕ) → IsKey base (without_chunk (parts_of key.entry)) → result ≡ lower_of base }
{
    lower_directories(&base_digest(key))
}

/// The directories in mixed case, as in `pX/ZJ`. A chunk lies where the whole content would.
///
/// <https://git-annex.branchable.com/internals/hashing/>
pub fn mixed(key: KeyRef<'_>) -> [u8; 5]
    ensures { (base : List ℕ) → IsKey base (without_chunk (parts_of key.entry)) → result ≡ mixed_of base }
{
    mixed_directories(&base_digest(key))
}

fn base_digest(key: KeyRef<'_>) -> [u8; 16]
    ensures { (base : List ℕ) → IsKey base (without_chunk (parts_of key.entry)) → result ≡ md5 base }
{
    let (head, tail) = key.outside_chunk();
    let mut hash = Md5::new();
    hash.update(head);
    hash.update(tail);
    hash.finalize()
}

fn lower_directories(digest: &[u8; 16]) -> [u8; 7]
    ensures { result ≡ lower_under digest.now }
{
    let mut hex = [0; 32];
    match hex::encode_to_slice(digest, &mut hex) {
        Ok(()) => [hex[0], hex[1], hex[2], b'/', hex[3], hex[4], hex[5]],
        Err(_) => unreachable!(),
    }
}

fn mixed_directories(digest: &[u8; 16]) -> [u8; 5]
    ensures { result ≡ mixed_under digest.now }
{
    let word = u32::from_le_bytes([digest[0], digest[1], digest[2], digest[3]]);
    [
        letter(word, 1),
        letter(word, 0),
        b'/',
        letter(word, 3),
        letter(word, 2),
    ]
}

fn letter(word: u32, n: u32) -> u8
    requires { n < 4 }
    ensures { result ≡ letter word n }
{
    LETTERS[(word >> (6 * n) & 31) as usize]
}
