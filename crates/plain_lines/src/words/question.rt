// The questions that VALUE answers.
ghost use Rattle.std.specs.Prelude.{◌≡◌};
ghost use Rattle.plain_lines.specs.Words.Changes.{is_folder};
ghost use Rattle.plain_lines.specs.Words.Questions.{question_of, ends_answer, asks_folder, asks_other};

use crate::words::fields::{parameter, says};

/// A question of a remote that the host answers by VALUE.
#[derive(Clone, Copy, Debug, PartialEq, Eq)]
pub enum Question {
    /// DIRHASH or DIRHASH-LOWER.
    Folder,
    /// GETURLS, which several VALUEs answer, an empty one last.
    Urls,
    /// Any other, which one VALUE answers.
    Other,
}

fn asks_folder(line: &[u8]) -> bool
    ensures { result ≡ asks_folder line.now }
{
    says(b"DIRHASH", line) || says(b"DIRHASH-LOWER", line)
}

fn asks_other(line: &[u8]) -> bool
    ensures { result ≡ asks_other line.now }
{
    says(b"GETCONFIG", line)
        || says(b"GETSTATE", line)
        || says(b"GETUUID", line)
        || says(b"GETGITDIR", line)
        || says(b"GETGITREMOTENAME", line)
        || says(b"GETWANTED", line)
}

/// The question that a line of a remote is, if it is one.
pub(super) fn question_of(line: &[u8]) -> Option<Question>
    ensures { result ≡ question_of line.now }
{
    if asks_folder(line) {
        Some(Question::Folder)
    } else if says(b"GETURLS", line) {
        Some(Question::Urls)
    } else if asks_other(line) {
        Some(Question::Other)
    } else {
        None
    }
}

/// Whether a line of the host ends the answer to that question.
pub(super) fn ends_answer(question: Option<Question>, line: &[u8]) -> bool
    ensures { result ≡ ends_answer question line.now }
{
    match question {
        None => false,
        Some(Question::Urls) => says(b"VALUE", line) && parameter(line).is_empty(),
        Some(_) => says(b"VALUE", line),
    }
}

/// Whether the question is for a folder.
pub(super) fn is_folder(question: Option<Question>) -> bool
    ensures { result ≡ is_folder question }
{
    matches!(question, Some(Question::Folder))
}
