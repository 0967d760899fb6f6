ghost use Rattle.std.specs.Prelude.{◌≡◌, []};
ghost use Rattle.rehearse_command.specs.declared.made.RehearsalEnd.TheVariants.{Memory};

use journal_audit::Audit;
use journal_look::Journal;
use journal_model::Answer;
use std::alloc::Global;

/// How a rehearsal ended.
#[derive(Drop)]
pub enum RehearsalEnd {
    /// No memory was found.
    Memory,
    /// Each task was answered, and this was found of the journal.
    Done(Audit),
}

/// What a rehearsal made: the journal of its run, the answers in the order of the tasks, and how it ended.
#[derive(Drop)]
pub struct Rehearsed {
    pub journal: Journal,
    pub answers: Vec<Answer>,
    pub end: RehearsalEnd,
}

impl Rehearsed {
    /// The run came so far, and no memory was found.
    pub(crate) fn cut_off(alloc: Global, journal: Journal) -> Rehearsed
        ensures journal { result.journal ≡ journal }
        ensures answers { result.answers.items ≡ [] }
        ensures end { result.end ≡ Memory }
    {
        Rehearsed {
            journal,
            answers: Vec::new(alloc),
            end: RehearsalEnd::Memory,
        }
    }
}
