// The files of a desk in memory.
ghost use Rattle.std.specs.Prelude.{◌≡◌, ◌≤◌, ◌<◌, ℕ, List, None, Some, option_copied, option_map, take, drop, length, vec_len, vec_capacity, ◌++◌, ◌+◌, ◌^◌, IfOk, IfSome, MatchOption};
ghost use Rattle.ann_outside.specs.Files.{content, OthersStay, IsAt};

use ann_key::{Bytes, NoMemory, Text};
use std::alloc::Global;

pub type FileList = Vec<(Text, Bytes)>;

// The first file of that name.
fn position(files: &[(Text, Bytes)], name: &str) -> Option<usize>
    ensures { MatchOption result (content name.now files.now ≡ None) (λ at. IsAt files.now at name.now) }
{
    let mut at = 0;
    for file in files {
        if file.0.view() == name {
            return Some(at);
        }
        at += 1;
    }
    None
}

// The bytes of the file of that name.
pub fn find<'a>(files: &'a [(Text, Bytes)], name: &str) -> Option<&'a Bytes>
    ensures { option_copied result ≡ content name.now files.entry.now }
{
    for file in files {
        if file.0.view() == name {
            return Some(&file.1);
        }
    }
    None
}

// Takes away the files of that name.
pub fn take_away(files: &mut FileList, name: &str)
    ensures gone { content name.now files.new.items ≡ None }
    ensures others { OthersStay (λ other. other ≡ name.now) files.old.items files.new.items }
    ensures room { (vec_capacity files.new ≡ vec_capacity files.old) × (vec_len files.new ≤ vec_len files.old) }
{
    while let Some(at) = position(files.as_slice(), name) {
        files.remove(at);
    }
}

// Puts the file in the place of those of its name.
pub fn put(files: &mut FileList, name: Text, bytes: Bytes)
    requires { vec_len files.old < vec_capacity files.old }
    ensures there { content name files.new.items ≡ Some bytes }
    ensures others { OthersStay (λ other. other ≡ name) files.old.items files.new.items }
{
    take_away(files, name.view());
    files.push_reserved((name, bytes));
}

// The file's length; none where there is no such file.
pub fn size_of(files: &[(Text, Bytes)], name: &str) -> Option<u64>
    ensures { result ≡ option_map (λ bytes. length bytes) (content name.now files.now) }
{
    match find(files, name) {
        Some(bytes) => Some(bytes.view().len() as u64),
        None => None,
    }
}

// A copy of the file's bytes from a place on, as many as there is room for; none where there is no such file.
pub fn piece_of(
    alloc: Global,
    files: &[(Text, Bytes)],
    name: &str,
    from: u64,
    room: usize,
) -> Result<Option<Bytes>, NoMemory>
    ensures bytes { IfOk result (λ piece. piece ≡ option_map (λ bytes. take room (drop from bytes)) (content name.now files.now)) }
    ensures place { IfOk result (λ piece. IfSome piece (λ b. from + length b < 2 ^ 64)) }
{
    let Some(bytes) = find(files, name) else {
        return Ok(None);
    };
    Ok(Some(Bytes::copy(alloc, window(bytes.view(), from, room))?))
}

// The bytes from a place on, as many as there is room for.
fn window(bytes: &[u8], from: u64, room: usize) -> &[u8]
    ensures bytes { result.now ≡ take room (drop from bytes.now) }
    ensures place { from + length result.now < 2 ^ 64 }
{
    let Ok(from) = usize::try_from(from) else {
        return &[];
    };
    if bytes.len() <= from {
        return &[];
    }
    let rest = &bytes[from..];
    if rest.len() <= room {
        return rest;
    }
    &rest[..room]
}

// A copy of all the files.
pub fn copy_all(alloc: Global, files: &[(Text, Bytes)]) -> Result<FileList, NoMemory>
    ensures { IfOk result (λ copy. copy.items ≡ files.now) }
{
    let mut copy = Vec::with_capacity(alloc, files.len())?;
    for file in files {
        let name = Text::copy(alloc, file.0.view())?;
        copy.push((name, Bytes::copy(alloc, file.1.view())?))?;
    }
    Ok(copy)
}

// A copy of the file's bytes; none where there is no such file.
pub fn copy_of(
    alloc: Global,
    files: &[(Text, Bytes)],
    name: &str,
) -> Result<Option<Bytes>, NoMemory>
    ensures { IfOk result (λ copy. copy ≡ content name.now files.now) }
{
    match find(files, name) {
        Some(bytes) => Ok(Some(Bytes::copy(alloc, bytes.view())?)),
        None => Ok(None),
    }
}

// The file's bytes with the piece after them; none where there is no such file.
pub fn joined(
    alloc: Global,
    files: &[(Text, Bytes)],
    name: &str,
    piece: &[u8],
) -> Result<Option<Bytes>, NoMemory>
    ensures { IfOk result (λ joined. joined ≡ option_map (λ bytes. bytes ++ piece.now) (content name.now files.now)) }
{
    let Some(bytes) = find(files, name) else {
        return Ok(None);
    };
    let mut joined = Vec::from_slice(alloc, bytes.view())?;
    joined.extend_from_slice(piece)?;
    Ok(Some(Bytes::from_vec(joined)))
}
