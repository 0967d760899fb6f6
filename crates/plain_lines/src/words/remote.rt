// What is passed on of a line of the remote.
ghost use Rattle.std.specs.Prelude.{◌≡◌, ◌&&◌, not, codes, if◌then◌else◌, Some, None, option_copied};
ghost use Rattle.ann_key.specs.Numbers.{is_number};
ghost use Rattle.plain_lines.specs.Words.Changes.{says, parameter, is_among, bare_questions, bare_answers, is_bare, has_loose_end, but_last, is_dropped, plain_line, said_by_remote};

use crate::words::fields::{is, says};
use wire_msg::read_remote;

fn is_bare_question(word: &[u8]) -> bool
    ensures { result ≡ is_among bare_questions word.now }
{
    is(word, b"GETUUID")
        || is(word, b"GETGITDIR")
        || is(word, b"GETGITREMOTENAME")
        || is(word, b"GETWANTED")
}

fn is_bare_answer(word: &[u8]) -> bool
    ensures { result ≡ is_among bare_answers word.now }
{
    is(word, b"UNSUPPORTED-REQUEST")
        || is(word, b"PREPARE-SUCCESS")
        || is(word, b"INITREMOTE-SUCCESS")
        || is(word, b"CONFIGEND")
        || is(word, b"INFOEND")
        || is(word, b"WHEREIS-FAILURE")
        || is(word, b"CLAIMURL-SUCCESS")
        || is(word, b"CLAIMURL-FAILURE")
        || is(word, b"CHECKURL-FAILURE")
        || is(word, b"EXPORTSUPPORTED-SUCCESS")
        || is(word, b"EXPORTSUPPORTED-FAILURE")
        || is(word, b"REMOVEEXPORTDIRECTORY-SUCCESS")
        || is(word, b"REMOVEEXPORTDIRECTORY-FAILURE")
}

// Whether the word has no parameters.
fn is_bare(word: &[u8]) -> bool
    ensures { result ≡ is_bare word.now }
{
    is_bare_question(word) || is_bare_answer(word)
}

// The word without parameters that a blank or a byte 13 stands after.
fn tight(line: &[u8]) -> Option<&[u8]>
    ensures { option_copied result ≡ (if has_loose_end line.now then Some (but_last line.now) else None) }
{
    match line {
        [word @ .., 32 | 13] if is_bare(word) => Some(word),
        _ => None,
    }
}

// Whether the line's number of bytes is none that the host knows.
fn is_wrong_progress(line: &[u8]) -> bool
    ensures { result ≡ (says (codes "PROGRESS") line.now && not (is_number (parameter line.now))) }
{
    says(b"PROGRESS", line) && read_remote(line).is_none()
}

fn is_dropped(line: &[u8]) -> bool
    ensures { result ≡ is_dropped line.now }
{
    says(b"SETURIPRESENT", line) || says(b"SETURIMISSING", line) || is_wrong_progress(line)
}

fn plain_line(line: &[u8]) -> &[u8]
    ensures { result.now ≡ plain_line line.now }
{
    if is(line, b"VERSION 2") {
        b"VERSION 1"
    } else if let Some(word) = tight(line) {
        word
    } else {
        line
    }
}

/// What is passed on of the line, if anything is.
pub(super) fn said_by_remote(line: &[u8]) -> Option<&[u8]>
    ensures { option_copied result ≡ said_by_remote line.now }
{
    if is_dropped(line) {
        None
    } else {
        Some(plain_line(line))
    }
}
