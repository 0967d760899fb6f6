// The command word of a line, and what follows it.
ghost use Rattle.std.specs.Prelude.{◌≡◌, position, bytes_eq};
ghost use Rattle.annex_model.specs.Messages.{is_space, word_of};
ghost use Rattle.plain_lines.specs.Words.Changes.{says, parameter};

/// Whether the bytes are these.
pub(super) fn is(bytes: &[u8], name: &[u8]) -> bool
    ensures { result ≡ bytes_eq bytes.now name.now }
{
    bytes == name
}

// Where the first blank stands.
fn blank_at(line: &[u8]) -> Option<usize>
    ensures { result ≡ position is_space line.now }
{
    line.iter().position(|b| *b == b' ')
}

// It reaches to the first blank or the end.
fn word_of(line: &[u8]) -> &[u8]
    ensures { result.now ≡ word_of line.now }
{
    match blank_at(line) {
        None => line,
        Some(at) => &line[..at],
    }
}

/// Whether the line's command word is this one.
pub(super) fn says(word: &[u8], line: &[u8]) -> bool
    ensures { result ≡ says word.now line.now }
{
    is(word_of(line), word)
}

/// What follows the word and a blank; nothing where there is no blank.
pub(super) fn parameter(line: &[u8]) -> &[u8]
    ensures { result.now ≡ parameter line.now }
{
    match blank_at(line) {
        None => &[],
        Some(at) => &line[at + 1..],
    }
}
