// A key's text as the name of a file.
ghost use Rattle.std.specs.Prelude.{◌≡◌, ◌++◌, IfOk};
ghost use Rattle.ann_key.specs.FileNames.{escape, file_name_of};

use crate::bytes::NoMemory;
use std::alloc::Global;

fn push_escaped(name: &mut Vec<u8>, b: u8) -> Result<(), NoMemory>
    ensures { IfOk result (λ _. name.new.items ≡ name.old.items ++ escape b) }
{
    match b {
        b'&' => name.extend_from_slice(b"&a")?,
        b'%' => name.extend_from_slice(b"&s")?,
        b':' => name.extend_from_slice(b"&c")?,
        b'/' => name.push(b'%')?,
        _ => name.push(b)?,
    }
    Ok(())
}

pub(super) fn file_name(alloc: Global, text: &[u8]) -> Result<Vec<u8>, NoMemory>
    ensures { IfOk result (λ name. name.items ≡ file_name_of text.now) }
{
    let mut name = Vec::new(alloc);
    for b in text {
        push_escaped(&mut name, *b)?;
    }
    Ok(name)
}
