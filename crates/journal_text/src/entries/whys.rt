// Why a child ended, as fields.
ghost use Rattle.std.specs.Prelude.{◌≡◌, ◌++◌, OnOk, drop};
ghost use Rattle.journal_text.specs.Entries.Fields.{followed, by_rows};
ghost use Rattle.journal_text.specs.Entries.Whys.{why_fields, why_at, why_rows};

use crate::entries::fields::{first_of, number_at, push_field, push_one, rest_of};
use ann_key::NoMemory;
use journal_model::Why;
use std::alloc::Global;

/// Puts the reason after the line.
pub(crate) fn push_why(alloc: Global, line: &mut Vec<u8>, why: Why) -> Result<(), NoMemory>
    ensures { OnOk result (line.new.items ≡ line.old.items ++ followed (why_fields why)) }
{
    match why {
        Why::Eof => push_field(line, b"eof"),
        Why::ReadFault => push_field(line, b"readfault"),
        Why::LongLine => push_field(line, b"longline"),
        Why::Full => push_field(line, b"full"),
        Why::Memory => push_field(line, b"memory"),
        Why::Closed => push_field(line, b"closed"),
        Why::Foul { at } => push_one(alloc, line, b"foul", at),
        Why::Error { at } => push_one(alloc, line, b"error", at),
        Why::Version { at } => push_one(alloc, line, b"version", at),
    }
}

/// The reason that the text begins with.
pub(crate) fn why_at(text: &[u8]) -> Option<Why>
    ensures { result ≡ why_at text.now }
{
    by_word(first_of(text), rest_of(text))
}

fn by_word(word: &[u8], text: &[u8]) -> Option<Why>
    ensures { result ≡ by_rows why_rows word.now text.now }
{
    if word == b"eof".as_slice() {
        Some(Why::Eof)
    } else if word == b"readfault".as_slice() {
        Some(Why::ReadFault)
    } else if word == b"longline".as_slice() {
        Some(Why::LongLine)
    } else if word == b"full".as_slice() {
        Some(Why::Full)
    } else if word == b"memory".as_slice() {
        Some(Why::Memory)
    } else if word == b"closed".as_slice() {
        Some(Why::Closed)
    } else {
        placed(word, text)
    }
}

// Those that name a place.
fn placed(word: &[u8], text: &[u8]) -> Option<Why>
    ensures { result ≡ by_rows (drop 6 why_rows) word.now text.now }
{
    if word == b"foul".as_slice() {
        let at = number_at(text)?;
        Some(Why::Foul { at })
    } else if word == b"error".as_slice() {
        let at = number_at(text)?;
        Some(Why::Error { at })
    } else if word == b"version".as_slice() {
        let at = number_at(text)?;
        Some(Why::Version { at })
    } else {
        None
    }
}
