use ann_outside::Desks;
use journal_audit::Misplaced;
use journal_look::Journal;
use journal_model::Answer;
use kept_file::desk::KeptWritten;
use std::marker::Model;

/// What came of the kept file.
#[derive(Clone, Copy, Debug, PartialEq, Eq)]
pub enum KeptEnd {
    /// This came of writing it. Where none is named it is `Done`.
    Written(KeptWritten),
    /// It holds neither what the run began with nor what is kept after its journal, and is as before.
    Changed,
    /// It couldn't be read: another process may hold its lock.
    Fault,
}

/// How a recovery ended.
#[derive(Drop)]
pub enum RecoverEnd {
    /// The file of the text couldn't be read.
    FileFailed,
    /// It has more bytes than it may.
    TextTooLarge,
    /// The line of that number can't follow those before it.
    Refused {
        line: u64,
    },
    /// No memory was found.
    Memory,
    /// The text ends before its line `begin`: nothing was begun.
    Unbegun,
    /// This is the first entry that may not stand.
    Wrong(Misplaced),
    /// The answers of the tasks, in their order, as far as they were answered; and this came of the kept file.
    Answered {
        answers: Vec<Option<Answer>>,
        kept: KeptEnd,
    },
}

/// What a recovery left: the journal of the text, the desk that was asked for, and how it ended.
#[derive(Drop)]
pub struct Recovered<K: Desks> {
    pub journal: Journal,
    pub tables: Vec<K::Desk>,
    pub end: RecoverEnd,
}

impl<K: Desks> Model for Recovered<K> {
    ghost use Rattle.std.specs.Prelude.{map};
    ghost use Rattle.audit_command.specs.Recoveries.{RecoveredValue};

    ghost Value = { RecoveredValue };

    ghost view = { λ r. record {
      journal = r.journal.entries;
      tables = map (K.Desk.told) r.tables.items;
      end = r.end;
    } };
}
