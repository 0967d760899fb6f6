// The directory that a host is told to keep.
ghost use Rattle.std.specs.Prelude.{◌≡◌, ◌∷◌, [], IfOk, codes};
ghost use Rattle.dir_remote.specs.Guard.Guards.{is_kept};

use crate::guard::gates::is_whole;
use ann_key::{Bytes, NoMemory};
use kit_serve::kit::{Pair, Pairs, Values};
use std::alloc::Global;

/// Whether the path goes from the root, and a line can hold it.
pub(crate) fn is_kept(path: &str) -> bool
    ensures { result ≡ is_kept path.now }
{
    is_whole(path.as_bytes()) && !path.as_bytes().contains(&b'\n')
}

/// The setting, with that path.
pub(crate) fn keeping(alloc: Global, path: &str) -> Result<Pairs, NoMemory>
    ensures { IfOk result (λ pairs. pairs ≡ record { name = codes "directory"; text = path.now } ∷ []) }
{
    let name = Bytes::copy(alloc, b"directory")?;
    let text = Bytes::copy(alloc, path.as_bytes())?;
    let mut pairs = Vec::new(alloc);
    pairs.push(Pair { name, text })?;
    Ok(Pairs::new(pairs))
}

/// The path, as the one value.
pub(crate) fn one_value(alloc: Global, path: &str) -> Result<Values, NoMemory>
    ensures { IfOk result (λ values. values ≡ path.now ∷ []) }
{
    let path = Bytes::copy(alloc, path.as_bytes())?;
    let mut values = Vec::new(alloc);
    values.push(path)?;
    Ok(Values::new(values))
}
