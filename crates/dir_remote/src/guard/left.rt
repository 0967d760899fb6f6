// The names of files that stores leave behind where they are cut off.
ghost use Rattle.std.specs.Prelude.{◌≡◌, ◌==◌, position, IfOk};
ghost use Rattle.dir_remote.specs.Guard.LeftFiles.{after, before, escaped, is_file_of_key, is_left, is_seat, is_seat_and_file, is_time_and_more, plain, text_of_file};

use ann_key::{KeyRef, NoMemory, numeral_of};
use std::alloc::Global;

fn escaped(b: u8) -> u8
    ensures { result ≡ escaped b }
{
    match b {
        b'a' => b'&',
        b's' => b'%',
        b'c' => b':',
        _ => 0,
    }
}

fn plain(b: u8) -> u8
    ensures { result ≡ plain b }
{
    if b == b'%' { b'/' } else { b }
}

// The text whose file name that is, if it is one.
fn text_of_file(alloc: Global, name: &[u8]) -> Result<Vec<u8>, NoMemory>
    ensures { IfOk result (λ text. text.items ≡ text_of_file name.now) }
{
    let mut text = Vec::new(alloc);
    let mut escapes = false;
    for b in name {
        if escapes {
            text.push(escaped(*b))?;
            escapes = false;
        } else if *b == b'&' {
            escapes = true;
        } else {
            text.push(plain(*b))?;
        }
    }
    if escapes {
        text.push(b'&')?;
    }
    Ok(text)
}

fn is_file_of_key(alloc: Global, name: &[u8]) -> Result<bool, NoMemory>
    ensures { IfOk result (λ is. is ≡ is_file_of_key name.now) }
{
    let text = text_of_file(alloc, name)?;
    let Ok(key) = KeyRef::read(text.as_slice()) else {
        return Ok(false);
    };
    let spelled = key.file_name(alloc)?;
    Ok(spelled.view() == name)
}

// Where the first of these bytes stands.
fn place_of(text: &[u8], byte: u8) -> Option<usize>
    ensures { result ≡ position (λ b. b == byte) text.now }
{
    text.iter().position(|b| *b == byte)
}

// What stands before the first of these bytes, and what after it.
fn split(text: &[u8], byte: u8) -> (&[u8], &[u8])
    ensures before { result.0.now ≡ before byte text.now }
    ensures after { result.1.now ≡ after byte text.now }
{
    match place_of(text, byte) {
        Some(at) => (&text[..at], &text[at + 1..]),
        None => (text, &[]),
    }
}

fn is_seat(digits: &[u8]) -> bool
    ensures { result ≡ is_seat digits.now }
{
    match numeral_of(digits) {
        Some(number) => 1 <= number && number <= 4,
        None => false,
    }
}

fn is_seat_and_file(alloc: Global, text: &[u8]) -> Result<bool, NoMemory>
    ensures { IfOk result (λ is. is ≡ is_seat_and_file text.now) }
{
    let (seat, file) = split(text, b'-');
    if !is_seat(seat) {
        return Ok(false);
    }
    is_file_of_key(alloc, file)
}

fn is_time_and_more(alloc: Global, text: &[u8]) -> Result<bool, NoMemory>
    ensures { IfOk result (λ is. is ≡ is_time_and_more text.now) }
{
    let (time, more) = split(text, b'.');
    if numeral_of(time).is_none() {
        return Ok(false);
    }
    is_seat_and_file(alloc, more)
}

/// Whether a store that was cut off leaves a file of that name: process, time and a number of 1 to 4, parted by dots, a dash, and
/// the file name of a key.
pub fn is_left(alloc: Global, name: &[u8]) -> Result<bool, NoMemory>
    ensures { IfOk result (λ is. is ≡ is_left name.now) }
{
    let (process, more) = split(name, b'.');
    if numeral_of(process).is_none() {
        return Ok(false);
    }
    is_time_and_more(alloc, more)
}
