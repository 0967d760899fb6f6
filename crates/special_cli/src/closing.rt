use ann_outside::{Desks, Programs};
use child_link::Wire;
use journal_look::Journal;
use journal_model::Answer;
use std::marker::Model;

/// What a call leaves: its status, the programs and the desks that were handed in, the journal that it kept, the answers in
/// the order of the tasks, a wire for each child that was started, and the desks that were asked for, in order.
#[derive(Drop)]
pub struct Closing<P: Programs, K: Desks> {
    pub status: u8,
    pub programs: P,
    pub desks: K,
    pub journal: Journal,
    pub answers: Vec<Answer>,
    pub wires: Vec<Wire<P::Inlet, P::Outlet>>,
    pub tables: Vec<K::Desk>,
}

impl<P: Programs, K: Desks> Model for Closing<P, K> {
    ghost use Rattle.std.specs.Prelude.{map};
    ghost use Rattle.special_cli.specs.Left.{ClosingValue};

    ghost Value = { ClosingValue };

    ghost view = { λ c. record {
      status = c.status;
      left = record {
        outside = record { programs = P.told c.programs; made = K.made c.desks };
        journal = c.journal.entries;
        answers = c.answers.items;
        wires = c.wires.items;
        tables = map (K.Desk.told) c.tables.items;
      };
    } };
}
