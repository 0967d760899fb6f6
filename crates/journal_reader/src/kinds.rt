// The kinds of lines after the stamp.
ghost use Rattle.journal_reader.specs.Kinds.{IsKind};

use crate::fields::behind;

/// What a line after the stamp is by its first word.
#[derive(Clone, Copy)]
pub(crate) enum Kind<'a> {
    Begin,
    Task(&'a [u8]),
    Keep(&'a [u8]),
    Other,
}

/// The line's kind.
pub(crate) fn kind_of(line: &[u8]) -> Kind<'_>
    ensures { IsKind line.entry.now result }
{
    match behind(line, b"task") {
        Some(text) => Kind::Task(text),
        None => match behind(line, b"keep") {
            Some(text) => Kind::Keep(text),
            None if line == b"begin".as_slice() => Kind::Begin,
            None => Kind::Other,
        },
    }
}
