use ann_outside::Programs;
use child_link::Wire;
use journal_look::Journal;
use journal_model::Answer;
use std::marker::Model;

/// How a check ended.
#[derive(Drop)]
pub enum CheckEnd {
    /// There is an answer.
    Answered,
    /// No memory was found.
    Memory,
}

/// What a check made: the journal, its one answer where there is one, and the wire of its child, if one was started.
#[derive(Drop)]
pub struct CheckMade<P: Programs> {
    pub journal: Journal,
    pub answers: Vec<Answer>,
    pub wires: Vec<Wire<P::Inlet, P::Outlet>>,
    pub end: CheckEnd,
}

impl<P: Programs> Model for CheckMade<P> {
    ghost use Rattle.run_and_check.specs.Check.Checks.{MadeValue};

    ghost Value = { MadeValue };

    ghost view = { λ m. record { journal = m.journal.entries; answers = m.answers.items; wires = m.wires.items; end = m.end } };
}
