use ann_key::Key;
use ann_outside::Programs;
use child_link::Wire;
use cli_words::Reason;
use journal_look::Journal;
use std::marker::Model;

/// How an info ended.
#[derive(Drop)]
pub enum InfoEnd {
    /// The key is refused, and nothing was started.
    Refused(Reason),
    /// No memory was found.
    Memory,
    /// The child was asked about itself, and for this key where there is one.
    Asked(Option<Key>),
}

/// What an info made: the journal, a wire for its child, and how it ended.
#[derive(Drop)]
pub struct InfoMade<P: Programs> {
    pub journal: Journal,
    pub wires: Vec<Wire<P::Inlet, P::Outlet>>,
    pub end: InfoEnd,
}

impl<P: Programs> Model for InfoMade<P> {
    ghost use Rattle.info_and_init.specs.Info.Informs.{InfoValue};

    ghost Value = { InfoValue };

    ghost view = { λ m. record {
      journal = m.journal.entries;
      wires = m.wires.items;
      end = m.end;
    } };
}
