// The command word of a line, and the parameters after it, by their classes.
ghost use Rattle.std.specs.Prelude.{◌≡◌, ◌==◌, Some, option_map, option_copied, position, bytes_eq, true};
ghost use Rattle.ann_key.specs.KeyRefs.{text_of};
ghost use Rattle.annex_model.specs.Messages.{word_of, field_of, is_space, direction_of, number_field, key_field, rest_field, scope_field};
ghost use Rattle.annex_model.specs.Messages.{word_rest_field, words_rest_field, key_rest_field, transfer_field, transfer_rest_field};

use ann_key::{KeyRef, has_byte, number_of};

// Where the first space stands.
fn space_at(line: &[u8]) -> Option<usize>
    ensures { result ≡ position is_space line.now }
{
    line.iter().position(|b| *b == b' ')
}

/// The command word reaches to the first space or the end.
pub fn word_of(line: &[u8]) -> &[u8]
    ensures { result.now ≡ word_of line.now }
{
    match space_at(line) {
        None => line,
        Some(at) => &line[..at],
    }
}

/// What follows the first space, if there is one.
pub fn field_of(line: &[u8]) -> Option<&[u8]>
    ensures { option_copied result ≡ field_of line.now }
{
    match space_at(line) {
        None => None,
        Some(at) => Some(&line[at + 1..]),
    }
}

/// Whether the word is this one.
pub fn is_word(word: &[u8], name: &[u8]) -> bool
    ensures { result ≡ bytes_eq word.now name.now }
{
    word == name
}

/// The rest of the line, which is empty where no space came.
pub fn rest(field: Option<&[u8]>) -> &[u8]
    ensures { result.now ≡ rest_field (option_copied field.entry) }
{
    match field {
        Some(field) => field,
        None => &[],
    }
}

/// The key that the field spells, which holds no space.
pub fn read_key(field: &[u8]) -> Option<KeyRef<'_>>
    ensures { option_map text_of result ≡ key_field (Some field.now) }
{
    if has_byte(field, b' ') {
        return None;
    }
    match KeyRef::read(field) {
        Ok(key) => Some(key),
        Err(_) => None,
    }
}

/// The one number.
pub fn number(field: Option<&[u8]>) -> Option<u64>
    ensures { result ≡ number_field (option_copied field.entry) }
{
    match field {
        Some(field) => number_of(field),
        None => None,
    }
}

/// The one key.
pub fn key(field: Option<&[u8]>) -> Option<KeyRef<'_>>
    ensures { option_map text_of result ≡ key_field (option_copied field.entry) }
{
    match field {
        Some(field) => read_key(field),
        None => None,
    }
}

/// `GLOBAL`, which is true, or `LOCAL`.
pub fn scope(field: Option<&[u8]>) -> Option<bool>
    ensures { result ≡ scope_field (option_copied field.entry) }
{
    let field = field?;
    if is_word(field, b"GLOBAL") {
        return Some(true);
    }
    if is_word(field, b"LOCAL") {
        return Some(false);
    }
    None
}

// `STORE`, which is true, or `RETRIEVE`.
fn direction(word: &[u8]) -> Option<bool>
    ensures { result ≡ direction_of word.now }
{
    if is_word(word, b"STORE") {
        return Some(true);
    }
    if is_word(word, b"RETRIEVE") {
        return Some(false);
    }
    None
}

/// A word, and the rest.
pub fn word_rest(field: Option<&[u8]>) -> Option<(&[u8], &[u8])>
    ensures { option_map (λ t. (t.0.now, t.1.now)) result ≡ word_rest_field (option_copied field.entry) }
{
    match field {
        Some(field) => Some((word_of(field), rest(field_of(field)))),
        None => None,
    }
}

/// Two words, and the rest.
pub fn words_rest(field: Option<&[u8]>) -> Option<(&[u8], &[u8], &[u8])>
    ensures { option_map (λ t. (t.0.now, (t.1.now, t.2.now))) result ≡ words_rest_field (option_copied field.entry) }
{
    let field = field?;
    match word_rest(field_of(field)) {
        Some((second, rest)) => Some((word_of(field), second, rest)),
        None => None,
    }
}

/// A key, and the rest.
pub fn key_rest(field: Option<&[u8]>) -> Option<(KeyRef<'_>, &[u8])>
    ensures { option_map (λ t. (text_of t.0, t.1.now)) result ≡ key_rest_field (option_copied field.entry) }
{
    let field = field?;
    match read_key(word_of(field)) {
        Some(key) => Some((key, rest(field_of(field)))),
        None => None,
    }
}

/// A direction, and a key.
pub fn transfer(field: Option<&[u8]>) -> Option<(bool, KeyRef<'_>)>
    ensures { option_map (λ t. (t.0, text_of t.1)) result ≡ transfer_field (option_copied field.entry) }
{
    let field = field?;
    let store = direction(word_of(field))?;
    match key(field_of(field)) {
        Some(key) => Some((store, key)),
        None => None,
    }
}

/// A direction, a key, and the rest.
pub fn transfer_rest(field: Option<&[u8]>) -> Option<(bool, KeyRef<'_>, &[u8])>
    ensures { option_map (λ t. (t.0, (text_of t.1, t.2.now))) result ≡ transfer_rest_field (option_copied field.entry) }
{
    let field = field?;
    let store = direction(word_of(field))?;
    match key_rest(field_of(field)) {
        Some((key, rest)) => Some((store, key, rest)),
        None => None,
    }
}
