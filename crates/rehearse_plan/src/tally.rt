// How the answers of a rehearsal are counted.
ghost use Rattle.std.specs.Prelude.{◌≡◌, ◌++◌, IfOk, OnOk};
ghost use Rattle.rehearse_plan.specs.Tallies.{count_line, count_lines, count_of, is_of, word_text};

use ann_key::{Bytes, NoMemory};
use journal_model::Answer;
use std::alloc::Global;

/// What answers are counted by.
#[derive(Clone, Copy, Debug, PartialEq, Eq)]
pub enum Word {
    Stored,
    Got,
    Present,
    Absent,
    Dropped,
    Failed,
    /// All other answers.
    Other,
}

impl Word {
    /// All of them, in the order in which their counts are printed.
    pub const ALL: [Word; 7] = [
        Word::Stored,
        Word::Got,
        Word::Present,
        Word::Absent,
        Word::Dropped,
        Word::Failed,
        Word::Other,
    ];

    // The word as it is printed.
    fn text(self) -> &'static str
        ensures { result.now ≡ word_text self }
    {
        match self {
            Word::Stored => "stored",
            Word::Got => "got",
            Word::Present => "present",
            Word::Absent => "absent",
            Word::Dropped => "dropped",
            Word::Failed => "failed",
            Word::Other => "other",
        }
    }

    // Whether the answer counts for the word.
    fn is_of(self, answer: Answer) -> bool
        ensures { result ≡ is_of self answer }
    {
        match answer {
            Answer::Stored => matches!(self, Word::Stored),
            Answer::Got => matches!(self, Word::Got),
            Answer::Present => matches!(self, Word::Present),
            Answer::Absent => matches!(self, Word::Absent),
            Answer::Dropped => matches!(self, Word::Dropped),
            Answer::Failed { .. } => matches!(self, Word::Failed),
            _ => matches!(self, Word::Other),
        }
    }
}

/// How many of the answers count for the word.
pub fn count_of(word: Word, answers: &[Answer]) -> u64
    ensures { result ≡ count_of word answers.now }
{
    answers.iter().filter(|answer| word.is_of(**answer)).count() as u64
}

// The word and its count, as a line at the end of the text.
fn push_count(
    alloc: Global,
    text: &mut Vec<u8>,
    word: Word,
    answers: &[Answer],
) -> Result<(), NoMemory>
    ensures { OnOk result (text.new.items ≡ text.old.items ++ count_line answers.now word) }
{
    let name = word.text();
    let count = count_of(word, answers);
    let line = format!(in alloc; "{name} {count}\n")?;
    text.extend_from_slice(line.as_bytes())?;
    Ok(())
}

/// A line for each word, with its count.
pub fn print_counts(alloc: Global, answers: &[Answer]) -> Result<Bytes, NoMemory>
    ensures { IfOk result (λ text. text ≡ count_lines answers.now) }
{
    let mut text = Vec::new(alloc);
    'words: for word in Word::ALL.iter() {
        push_count(alloc, &mut text, *word, answers)?;
    }
    Ok(Bytes::from_vec(text))
}
