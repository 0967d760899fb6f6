use ann_outside::{Desks, Programs};
use child_link::Wire;
use journal_look::Journal;
use journal_model::Answer;
use kept_file::desk::KeptWritten;
use std::marker::Model;

/// How an init ended.
#[derive(Drop)]
pub enum InitEnd {
    /// The line of that number of the kept file may not stand there.
    BadKept(u64),
    /// The kept file has more bytes than it may.
    KeptTooLarge,
    /// The kept file couldn't be read.
    FileFailed,
    /// No memory was found.
    Memory,
    /// The remote is set up, and this came of keeping what is set.
    SetUp(KeptWritten),
    /// The remote isn't set up.
    NotSetUp(Answer),
}

/// What an init made: the journal, a wire for its child, the desk that was asked for, and how it ended.
#[derive(Drop)]
pub struct InitMade<P: Programs, K: Desks> {
    pub journal: Journal,
    pub wires: Vec<Wire<P::Inlet, P::Outlet>>,
    pub tables: Vec<K::Desk>,
    pub end: InitEnd,
}

impl<P: Programs, K: Desks> Model for InitMade<P, K> {
    ghost use Rattle.std.specs.Prelude.{map};
    ghost use Rattle.info_and_init.specs.Init.Inits.{InitValue};

    ghost Value = { InitValue };

    ghost view = { λ m. record {
      journal = m.journal.entries;
      wires = m.wires.items;
      tables = map (K.Desk.told) m.tables.items;
      end = m.end;
    } };
}
