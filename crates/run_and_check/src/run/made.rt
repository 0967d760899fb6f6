use ann_outside::{Desks, Programs};
use child_link::Wire;
use cli_words::Reason;
use journal_look::Journal;
use journal_model::Answer;
use kept_file::desk::KeptWritten;
use std::marker::Model;

/// How a run ended.
#[derive(Drop)]
pub enum RunEnd {
    /// The line of that number of the kept file may not stand there.
    BadKept(u64),
    /// The kept file has more bytes than it may.
    KeptTooLarge,
    /// The kept file couldn't be read.
    FileFailed,
    /// The input couldn't be read.
    InputFailed,
    /// The line of that number of the input, counted from 1, is the first that is refused.
    Refused { line: u64, reason: Reason },
    /// No memory was found.
    Memory,
    /// Each task was answered, and this came of the kept file; or a fault of the journal file, where only that failed.
    Done(KeptWritten),
}

/// What a run made: the journal, the answers in the order of the tasks, a wire for each child, and the desks that were asked
/// for, in order.
#[derive(Drop)]
pub struct Made<P: Programs, K: Desks> {
    pub journal: Journal,
    pub answers: Vec<Answer>,
    pub wires: Vec<Wire<P::Inlet, P::Outlet>>,
    pub tables: Vec<K::Desk>,
    pub end: RunEnd,
}

impl<P: Programs, K: Desks> Model for Made<P, K> {
    ghost use Rattle.std.specs.Prelude.{map};
    ghost use Rattle.run_and_check.specs.Run.Runs.{MadeValue};

    ghost Value = { MadeValue };

    ghost view = { λ m. record {
      journal = m.journal.entries;
      answers = m.answers.items;
      wires = m.wires.items;
      tables = map (K.Desk.told) m.tables.items;
      end = m.end;
    } };
}
