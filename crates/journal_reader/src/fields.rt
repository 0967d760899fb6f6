// The fields of the first lines.
ghost use Rattle.std.specs.Prelude.{◌≡◌, ◌≤◌, ◌^◌, ◌<◌, ◌∷◌, ◌++◌, IfOk, MatchOption, ℕ, List, true, false, decimal, bytes_eq};
ghost use Rattle.uuid.specs.Text.{parsed, hyphenated_text, lower};
ghost use Rattle.journal_text.specs.Lines.JournalTexts.{worded, stamp_line, again_line};
ghost use Rattle.journal_model.specs.Legality.{is_text};
ghost use Rattle.journal_reader.specs.RunTexts.{HasNoText, HasText, is_uuid};

use ann_key::{NoMemory, Text, has_byte, number_of};
use std::alloc::Global;
use std::str;
use uuid::Uuid;

/// What stands after the word and a space.
pub(crate) fn behind<'a>(line: &'a [u8], word: &[u8]) -> Option<&'a [u8]>
    ensures { MatchOption result ((text : List ℕ) → line.entry.now ≡ worded word.now text → ⊥) (λ text. line.entry.now ≡ worded word.now text.now) }
{
    match behind_word(line, word) {
        Some(rest) => behind_space(rest),
        None => None,
    }
}

fn behind_word<'a>(line: &'a [u8], word: &[u8]) -> Option<&'a [u8]>
    ensures { MatchOption result ((rest : List ℕ) → line.entry.now ≡ word.now ++ rest → ⊥) (λ rest. line.entry.now ≡ word.now ++ rest.now) }
{
    line.strip_prefix(word)
}

fn behind_space(rest: &[u8]) -> Option<&[u8]>
    ensures { MatchOption result ((text : List ℕ) → rest.entry.now ≡ 32 ∷ text → ⊥) (λ text. rest.entry.now ≡ 32 ∷ text.now) }
{
    match rest {
        [b' ', text @ ..] => Some(text),
        _ => None,
    }
}

/// The text after the word, where it is UTF-8 on one line.
pub(crate) fn text_behind<'a>(line: &'a [u8], word: &[u8]) -> Option<&'a str>
    ensures { MatchOption result (HasNoText is_text word.now line.entry.now) (λ text. HasText is_text word.now line.entry.now text.now) }
{
    match behind(line, word) {
        Some(text) => text_of(text),
        None => None,
    }
}

fn text_of(text: &[u8]) -> Option<&str>
    ensures { MatchOption result (is_text text.entry.now ≡ false) (λ found. (found.now ≡ text.entry.now) × (is_text text.entry.now ≡ true)) }
{
    if has_byte(text, b'\n') {
        return None;
    }
    match str::from_utf8(text) {
        Ok(found) => Some(found),
        Err(_) => None,
    }
}

/// The UUID after the word, in lower case with hyphens.
pub(crate) fn uuid_behind(line: &[u8], word: &[u8]) -> Option<Uuid>
    ensures { MatchOption result (HasNoText is_uuid word.now line.now) (λ uuid. HasText is_uuid word.now line.now (hyphenated_text lower uuid)) }
{
    match behind(line, word) {
        Some(text) => uuid_of(text),
        None => None,
    }
}

// The UUID, where the text is it in lower case with hyphens.
fn uuid_of(text: &[u8]) -> Option<Uuid>
    ensures { MatchOption result (is_uuid text.now ≡ false) (λ uuid. (hyphenated_text lower uuid ≡ text.now) × (is_uuid text.now ≡ true)) }
{
    match parsed(text) {
        Some(uuid) if is_written(uuid, text) => Some(uuid),
        _ => None,
    }
}

fn parsed(text: &[u8]) -> Option<Uuid>
    ensures { result ≡ parsed text.now }
{
    match Uuid::try_parse_ascii(text) {
        Ok(uuid) => Some(uuid),
        Err(_) => None,
    }
}

fn is_written(uuid: Uuid, text: &[u8]) -> bool
    ensures { result ≡ bytes_eq (hyphenated_text lower uuid) text.now }
{
    let mut buffer = [0; 36];
    uuid.hyphenated().encode_lower(&mut buffer).as_bytes() == text
}

/// The UUID's text, in lower case with hyphens.
pub(crate) fn written(alloc: Global, uuid: Uuid) -> Result<Text, NoMemory>
    ensures { IfOk result (λ text. text ≡ hyphenated_text lower uuid) }
{
    let mut buffer = [0; 36];
    Text::copy(alloc, uuid.hyphenated().encode_lower(&mut buffer))
}

/// The number of a stamp's line.
pub(crate) fn stamp_of(alloc: Global, line: &[u8]) -> Result<Option<u64>, NoMemory>
    ensures { IfOk result (λ found. MatchOption found ((n : ℕ) → n < 2 ^ 64 → line.now ≡ stamp_line n → ⊥) (λ n. line.now ≡ stamp_line n)) }
{
    match behind(line, b"stamp") {
        Some(text) => decimal_of(alloc, text),
        None => Ok(None),
    }
}

/// The number of a line on how often a task may be run again.
pub(crate) fn again_of(alloc: Global, line: &[u8]) -> Result<Option<u32>, NoMemory>
    ensures { IfOk result (λ found. MatchOption found ((n : ℕ) → n ≤ 8 → line.now ≡ again_line n → ⊥) (λ n. (line.now ≡ again_line n) × (n ≤ 8))) }
{
    match behind(line, b"again") {
        Some(text) => few_of(alloc, text),
        None => Ok(None),
    }
}

// The number that the text is, if it is at most 8.
fn few_of(alloc: Global, text: &[u8]) -> Result<Option<u32>, NoMemory>
    ensures { IfOk result (λ found. MatchOption found ((n : ℕ) → n ≤ 8 → text.now ≡ decimal n → ⊥) (λ n. (text.now ≡ decimal n) × (n ≤ 8))) }
{
    let Some(n) = decimal_of(alloc, text)? else {
        return Ok(None);
    };
    if n <= 8 { Ok(Some(n as u32)) } else { Ok(None) }
}

fn decimal_of(alloc: Global, text: &[u8]) -> Result<Option<u64>, NoMemory>
    ensures { IfOk result (λ found. MatchOption found ((n : ℕ) → n < 2 ^ 64 → text.now ≡ decimal n → ⊥) (λ n. text.now ≡ decimal n)) }
{
    let Some(n) = number_of(text) else {
        return Ok(None);
    };
    if is_decimal(alloc, n, text)? {
        Ok(Some(n))
    } else {
        Ok(None)
    }
}

fn is_decimal(alloc: Global, n: u64, text: &[u8]) -> Result<bool, NoMemory>
    ensures { IfOk result (λ b. b ≡ bytes_eq (decimal n) text.now) }
{
    let digits = format!(in alloc; "{n}")?;
    Ok(digits.as_bytes() == text)
}
