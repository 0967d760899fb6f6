use ann_key::Key;
use audit_command::recover::KeptEnd;
use cli_words::{Page, Reason};
use journal_audit::Audit;
use journal_model::Answer;
use kept_file::desk::KeptWritten;

/// What is to be told of a command that has run.
#[derive(Drop)]
pub(crate) enum End {
    /// The words aren't in the grammar.
    Usage,
    /// A text was asked for.
    Shown(Page),
    /// The line of that number of the input is refused, or the input is cut after it; of a check or an info, line 1 is the key.
    Refused {
        line: u64,
        reason: Reason,
    },
    /// No memory was found.
    Memory,
    /// The answers of the tasks.
    Answered,
    /// What the child says of itself, and of the key where there is one.
    Informed(Option<Key>),
    /// The line of that number of the kept file may not stand there.
    BadKept(u64),
    /// The kept file is larger than it may be.
    KeptTooLarge,
    /// The kept file couldn't be read.
    FileFailed,
    /// The input couldn't be read.
    InputFailed,
    /// The remote is set up, and this came of keeping what is set.
    SetUp(KeptWritten),
    /// Each task was answered, and this came of the kept file and the journal file.
    Done(KeptWritten),
    /// The remote isn't set up.
    NotSetUp(Answer),
    /// What was found of the journal of the input.
    Audited(Audit),
    /// The answers of a rehearsal were counted, and this was found of its journal.
    Rehearsed(Audit),
    /// So many tasks were done in a closed world, so many of them got the content of their keys, and this was found of the journal.
    Walked {
        tasks: u32,
        equal: u64,
        found: Audit,
    },
    /// The text that was to be recovered ends before its line `begin`.
    Unbegun,
    /// The answers of the tasks of a text, as far as they were answered, and this came of the kept file.
    Recovered {
        answers: Vec<Option<Answer>>,
        kept: KeptEnd,
    },
}
