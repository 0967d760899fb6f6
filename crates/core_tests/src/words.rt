// Words and numbers of a row.
use std::alloc::AllocError;

/// The first word, and what stands after its blank.
pub(crate) fn cut(text: &str) -> (&str, &str) {
    match text.split_once(' ') {
        Some(parts) => parts,
        None => (text, ""),
    }
}

/// The number that the text spells, or 0.
pub(crate) fn number(text: &str) -> u64 {
    text.parse::<u64>().unwrap_or(0)
}

/// The task's number that the text spells, or 0.
pub(crate) fn task(text: &str) -> u32 {
    text.parse::<u32>().unwrap_or(0)
}

/// Adds the text after a mark.
pub(crate) fn tell(out: &mut String, text: &str) -> Result<(), AllocError> {
    write!(out, " => {text}")
}

/// Adds a word and a number after a mark.
pub(crate) fn tell_number(out: &mut String, word: &str, number: u64) -> Result<(), AllocError> {
    write!(out, " => {word} {number}")
}
