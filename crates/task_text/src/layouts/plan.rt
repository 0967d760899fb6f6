// The chunks of content of a size: how many, which bytes, and under which keys.
ghost use Rattle.std.specs.Prelude.{◌≡◌, ◌≤◌, ◌<◌, None, IfOk};
ghost use Rattle.ann_key.specs.Keys.{with_chunk, IsKey};
ghost use Rattle.ann_key.specs.KeyRefs.{parts_of};
ghost use Rattle.task_text.specs.Layouts.Layouts.{count_of, from_of, held_of, to_of};

use ann_key::{Key, KeyRef, NoMemory};
use std::alloc::Global;

/// How many chunks there are. Empty content has one.
///
/// <https://git-annex.branchable.com/chunking/>
pub fn count(size: u64, chunk: u64) -> u64
    requires { 0 < chunk }
    ensures { result ≡ count_of size chunk }
{
    if size == 0 { 1 } else { size.div_ceil(chunk) }
}

/// The first byte of a chunk, and the first one after it. Chunks are numbered from 1.
pub fn range(size: u64, chunk: u64, number: u64) -> (u64, u64)
    requires chunk { 0 < chunk }
    requires first { 0 < number }
    requires last { number ≤ count_of size chunk }
    ensures { result ≡ (from_of chunk number, to_of size chunk number) }
{
    let from = (number - 1) * chunk;
    if size - from < chunk {
        (from, size)
    } else {
        (from, from + chunk)
    }
}

/// How many chunks that aren't empty lie whole in the first `part` bytes.
pub fn held(size: u64, chunk: u64, part: u64) -> u64
    requires { 0 < chunk }
    ensures { result ≡ held_of size chunk part }
{
    if size == 0 {
        0
    } else if size <= part {
        count(size, chunk)
    } else {
        part / chunk
    }
}

/// The key of a chunk, which are numbered from 1.
pub fn piece(alloc: Global, key: KeyRef<'_>, chunk: u64, number: u64) -> Result<Key, NoMemory>
    requires whole { (parts_of key).chunk ≡ None }
    requires chunk { 0 < chunk }
    requires number { 0 < number }
    ensures { IfOk result (λ piece. IsKey piece (with_chunk chunk number (parts_of key.entry))) }
{
    key.with_chunk(alloc, chunk, number)
}
