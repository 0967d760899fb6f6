// What is passed on of a line of the host.
ghost use Rattle.std.specs.Prelude.{◌≡◌, [], ◌∷◌, ◌++◌, if◌then◌else◌, OnOk, IfOk, map};
ghost use Rattle.std.specs.List.{join_with_byte, filter, list_any};
ghost use Rattle.plain_lines.specs.Words.Changes.{names, is_async, is_other, offers_async, without_async, said_by_host, ends_with};

use crate::words::fields::{is, parameter, says};
use crate::words::question::{Question, is_folder};
use ann_key::{Bytes, NoMemory};
use std::alloc::{AllocError, Global};

fn names_async(line: &[u8]) -> bool
    ensures { result ≡ list_any is_async (names line.now) }
{
    parameter(line)
        .split(|b| *b == b' ')
        .any(|name| is(name, b"ASYNC"))
}

fn offers_async(line: &[u8]) -> bool
    ensures { result ≡ offers_async line.now }
{
    says(b"EXTENSIONS", line) && names_async(line)
}

fn is_other(name: &[u8]) -> bool
    ensures { result ≡ is_other name.now }
{
    !is(name, b"ASYNC")
}

fn other_names<'a>(alloc: Global, line: &'a [u8]) -> Result<Vec<&'a [u8]>, AllocError>
    ensures { IfOk result (λ v. map (λ name. name.now) v.items ≡ filter is_other (names line.entry.now)) }
{
    parameter(line)
        .split(|b| *b == b' ')
        .filter(|name| is_other(name))
        .collect(alloc)
}

// Appends the name, after a blank where it isn't the first.
fn push_name(text: &mut Vec<u8>, is_first: bool, name: &[u8]) -> Result<(), NoMemory>
    ensures { OnOk result (text.new.items ≡ text.old.items ++ (if is_first then name.now else 32 ∷ name.now)) }
{
    if !is_first {
        text.push(b' ')?;
    }
    text.extend_from_slice(name)?;
    Ok(())
}

// Appends the names, with a blank between each two.
fn push_names(text: &mut Vec<u8>, names: &[&[u8]]) -> Result<(), NoMemory>
    ensures { OnOk result (text.new.items ≡ text.old.items ++ join_with_byte 32 (map (λ name. name.now) names.now)) }
{
    for (i, name) in names.iter().enumerate() {
        push_name(text, i == 0, name)?;
    }
    Ok(())
}

fn without_async(alloc: Global, line: &[u8]) -> Result<Bytes, NoMemory>
    ensures { IfOk result (λ b. b ≡ without_async line.now) }
{
    let names = other_names(alloc, line)?;
    let mut text = Vec::from_slice(alloc, b"EXTENSIONS ")?;
    push_names(&mut text, &names)?;
    Ok(Bytes::from_vec(text))
}

fn with_slash(alloc: Global, line: &[u8]) -> Result<Bytes, NoMemory>
    ensures { IfOk result (λ b. b ≡ line.now ++ 47 ∷ []) }
{
    let mut text = Vec::from_slice(alloc, line)?;
    text.push(b'/')?;
    Ok(Bytes::from_vec(text))
}

fn ends_with_slash(line: &[u8]) -> bool
    ensures { result ≡ ends_with 47 line.now }
{
    line.last() == Some(&b'/')
}

/// What is passed on of the line, where that question is the oldest that is open.
pub(super) fn said_by_host(
    alloc: Global,
    oldest: Option<Question>,
    line: &[u8],
) -> Result<Bytes, NoMemory>
    ensures { IfOk result (λ b. b ≡ said_by_host oldest line.now) }
{
    if offers_async(line) {
        without_async(alloc, line)
    } else if is_folder(oldest) && says(b"VALUE", line) && !ends_with_slash(line) {
        with_slash(alloc, line)
    } else {
        Bytes::copy(alloc, line)
    }
}
