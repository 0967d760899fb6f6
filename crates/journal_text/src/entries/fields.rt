// The fields of a line: those that it begins with, read, and those that are put after it.
ghost use Rattle.std.specs.Prelude.{◌≡◌, ◌∷◌, ◌++◌, [], OnOk, decimal};
ghost use Rattle.journal_text.specs.Entries.Fields.{followed, first_of, rest_of, number_at, small_at, smalls_at, numbers_at};

use ann_key::{NoMemory, cut_at, number_of};
use std::alloc::Global;

// ---- reading

/// What stands before the first space, or all.
pub(crate) fn first_of(text: &[u8]) -> &[u8]
    ensures { result.now ≡ first_of text.now }
{
    let (first, _) = cut_at(text, b' ');
    first
}

/// What stands after the first space.
pub(crate) fn rest_of(text: &[u8]) -> &[u8]
    ensures { result.now ≡ rest_of text.now }
{
    let (_, rest) = cut_at(text, b' ');
    rest
}

/// The number that the text begins with.
pub(crate) fn number_at(text: &[u8]) -> Option<u64>
    ensures { result ≡ number_at text.now }
{
    number_of(first_of(text))
}

/// The number of 32 bits that it begins with.
pub(crate) fn small_at(text: &[u8]) -> Option<u32>
    ensures { result ≡ small_at text.now }
{
    let value = number_at(text)?;
    if value < 4_294_967_296 {
        Some(value as u32)
    } else {
        None
    }
}

/// The two numbers of 32 bits that it begins with.
pub(crate) fn smalls_at(text: &[u8]) -> Option<(u32, u32)>
    ensures { result ≡ smalls_at text.now }
{
    let first = small_at(text)?;
    let second = small_at(rest_of(text))?;
    Some((first, second))
}

/// A number of 32 bits and one of 64.
pub(crate) fn numbers_at(text: &[u8]) -> Option<(u32, u64)>
    ensures { result ≡ numbers_at text.now }
{
    let first = small_at(text)?;
    let second = number_at(rest_of(text))?;
    Some((first, second))
}

// ---- printing

/// Puts a field after the line.
pub(crate) fn push_field(line: &mut Vec<u8>, field: &[u8]) -> Result<(), NoMemory>
    ensures { OnOk result (line.new.items ≡ line.old.items ++ followed (field.now ∷ [])) }
{
    line.push(b' ')?;
    line.extend_from_slice(field)?;
    Ok(())
}

/// Puts a number after it.
pub(crate) fn push_number(alloc: Global, line: &mut Vec<u8>, n: u64) -> Result<(), NoMemory>
    ensures { OnOk result (line.new.items ≡ line.old.items ++ followed (decimal n ∷ [])) }
{
    let digits = format!(in alloc; "{n}")?;
    push_field(line, digits.as_bytes())
}

/// Puts a word and a number after it.
pub(crate) fn push_one(
    alloc: Global,
    line: &mut Vec<u8>,
    word: &[u8],
    n: u64,
) -> Result<(), NoMemory>
    ensures { OnOk result (line.new.items ≡ line.old.items ++ followed (word.now ∷ decimal n ∷ [])) }
{
    push_field(line, word)?;
    push_number(alloc, line, n)
}

/// Puts a word and two numbers after it.
pub(crate) fn push_two(
    alloc: Global,
    line: &mut Vec<u8>,
    word: &[u8],
    first: u64,
    second: u64,
) -> Result<(), NoMemory>
    ensures { OnOk result (line.new.items ≡ line.old.items ++ followed (word.now ∷ decimal first ∷ decimal second ∷ [])) }
{
    push_one(alloc, line, word, first)?;
    push_number(alloc, line, second)
}

/// Puts a word and three numbers after it.
pub(crate) fn push_three(
    alloc: Global,
    line: &mut Vec<u8>,
    word: &[u8],
    first: u64,
    second: u64,
    third: u64,
) -> Result<(), NoMemory>
    ensures { OnOk result (line.new.items ≡ line.old.items ++ followed (word.now ∷ decimal first ∷ decimal second ∷ decimal third ∷ [])) }
{
    push_two(alloc, line, word, first, second)?;
    push_number(alloc, line, third)
}
