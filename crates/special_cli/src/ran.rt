ghost use Rattle.std.specs.Prelude.{◌≡◌, [], map};
ghost use Rattle.special_cli.specs.Left.{IsIdle};

use crate::closing::Closing;
use crate::end::End;
use crate::outside::Outside;
use ann_outside::{Desks, Programs};
use child_link::Wire;
use journal_look::Journal;
use journal_model::Answer;
use std::alloc::Global;
use std::marker::Model;

/// What came of a command, before anything is told of it.
#[derive(Drop)]
pub(crate) struct Ran<P: Programs, K: Desks> {
    pub(crate) outside: Outside<P, K>,
    pub(crate) journal: Journal,
    pub(crate) answers: Vec<Answer>,
    pub(crate) wires: Vec<Wire<P::Inlet, P::Outlet>>,
    pub(crate) tables: Vec<K::Desk>,
    pub(crate) end: End,
}

impl<P: Programs, K: Desks> Model for Ran<P, K> {
    ghost use Rattle.std.specs.Prelude.{map};
    ghost use Rattle.special_cli.specs.Left.{RanValue};

    ghost Value = { RanValue };

    ghost view = { λ r. record {
      left = record {
        outside = r.outside;
        journal = r.journal.entries;
        answers = r.answers.items;
        wires = r.wires.items;
        tables = map (K.Desk.told) r.tables.items;
      };
      end = r.end;
    } };
}

impl<P: Programs, K: Desks> Ran<P, K> {
    /// Nothing was started, and nothing came of it.
    pub(crate) fn nothing(alloc: Global, outside: Outside<P, K>, end: End) -> Ran<P, K>
        ensures idle { IsIdle outside result.left }
        ensures end { result.end ≡ end }
    {
        Ran {
            outside,
            journal: Journal::new(alloc),
            answers: Vec::new(alloc),
            wires: Vec::new(alloc),
            tables: Vec::new(alloc),
            end,
        }
    }

    /// What is left of it, with the status to end with.
    pub(crate) fn close(self, status: u8) -> Closing<P, K>
        ensures { result ≡ record { status = status; left = self.left } }
    {
        let Outside { programs, desks } = self.outside;
        Closing {
            status,
            programs,
            desks,
            journal: self.journal,
            answers: self.answers,
            wires: self.wires,
            tables: self.tables,
        }
    }
}
