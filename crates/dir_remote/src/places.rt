// The names of the files in the directory.
ghost use Rattle.std.specs.Prelude.{◌≡◌, IfOk, IsTrue, MatchOption, MatchResult};
ghost use Rattle.std.specs.Str.{IsUtf8};
ghost use Rattle.ann_key.specs.FileNames.{file_name_of};
ghost use Rattle.ann_key.specs.KeyRefs.{text_of};
ghost use Rattle.dir_remote.specs.Contents.{IsContentName, IsMark, marked, place_of, temporary_name};
ghost use Rattle.dir_remote.specs.Outcomes.{IsNoText, IsUnnamed};

use crate::outcome::Outcome;
use ann_digest::lower;
use ann_key::{KeyRef, NoMemory, Text};
use std::alloc::Global;
use std::str;

/// Whether that can be the mark of a remote: it isn't empty, and has neither a slash nor a dash.
pub fn is_mark(mark: &str) -> bool
    ensures { IsTrue result → IsMark mark.now }
{
    let bytes = mark.as_bytes();
    !bytes.is_empty() && !bytes.contains(&b'/') && !bytes.contains(&b'-')
}

// DIRECTORY/FOLDER/FILE
fn place(alloc: Global, directory: &str, folder: &str, file: &str) -> Result<Text, NoMemory>
    ensures { IfOk result (λ name. name ≡ place_of directory.now folder.now file.now) }
{
    let mut name = String::from_str(alloc, directory)?;
    name.push_str("/")?;
    name.push_str(folder)?;
    name.push_str("/")?;
    name.push_str(file)?;
    Ok(Text::from_string(name))
}

// The bytes as text.
fn text_of_bytes(alloc: Global, bytes: &[u8]) -> Result<Text, Outcome>
    ensures { MatchResult result (λ name. (name ≡ bytes.now) × IsUtf8 bytes.now) (IsNoText bytes.now) }
{
    match str::from_utf8(bytes) {
        Ok(name) => match Text::copy(alloc, name) {
            Ok(name) => Ok(name),
            Err(_) => Err(Outcome::NoMemory),
        },
        Err(_) => Err(Outcome::NotText),
    }
}

// The name of the key's file, where it is text.
fn file_name(alloc: Global, key: KeyRef<'_>) -> Result<Text, Outcome>
    ensures { MatchResult result (λ name. (name ≡ file_name_of (text_of key.entry)) × IsUtf8 (file_name_of (text_of key.entry))) (IsUnnamed (text_of key.entry)) }
{
    let Ok(name) = key.file_name(alloc) else {
        return Err(Outcome::NoMemory);
    };
    match text_of_bytes(alloc, name.view()) {
        Ok(name) => Ok(name),
        Err(Outcome::NotText) => Err(Outcome::NotText),
        Err(_) => Err(Outcome::NoMemory),
    }
}

// Where the content of the key stands.
pub fn content_place(alloc: Global, directory: &str, key: KeyRef<'_>) -> Result<Text, Outcome>
    ensures { MatchResult result (λ name. IsContentName directory.now (text_of key.entry) name × IsUtf8 (file_name_of (text_of key.entry))) (IsUnnamed (text_of key.entry)) }
{
    let file = file_name(alloc, key)?;
    let folder = lower(key);
    let Ok(folder) = str::from_utf8(&folder) else {
        unreachable!()
    };
    match place(alloc, directory, folder, file.view()) {
        Ok(name) => Ok(name),
        Err(_) => Err(Outcome::NoMemory),
    }
}

// The name of a file after the mark, where there is one.
fn marked_name(alloc: Global, mark: &Option<Text>, file: &str) -> Result<Text, NoMemory>
    ensures { IfOk result (λ name. name ≡ marked mark.now file.now) }
{
    match mark {
        Some(mark) => {
            let mut name = String::from_str(alloc, mark.view())?;
            name.push_str("-")?;
            name.push_str(file)?;
            Ok(Text::from_string(name))
        }
        None => Ok(Text::copy(alloc, file)?),
    }
}

// Where the content is put together before it gets its name.
pub fn temporary_place(
    alloc: Global,
    directory: &str,
    mark: &Option<Text>,
    key: KeyRef<'_>,
) -> Result<Text, Outcome>
    ensures { MatchResult result (λ name. name ≡ temporary_name mark.now directory.now (text_of key.entry)) (IsUnnamed (text_of key.entry)) }
{
    let file = file_name(alloc, key)?;
    let Ok(file) = marked_name(alloc, mark, file.view()) else {
        return Err(Outcome::NoMemory);
    };
    match place(alloc, directory, "tmp", file.view()) {
        Ok(name) => Ok(name),
        Err(_) => Err(Outcome::NoMemory),
    }
}
