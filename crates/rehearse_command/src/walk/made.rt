ghost use Rattle.std.specs.Prelude.{◌≡◌, []};
ghost use Rattle.rehearse_command.specs.declared.walk.made.WalkEnd.TheVariants.{Memory};

use journal_audit::Audit;
use journal_look::Journal;
use journal_model::Answer;
use std::alloc::Global;

/// How a walk ended.
#[derive(Drop)]
pub enum WalkEnd {
    /// No memory was found.
    Memory,
    /// So many tasks got the content of their keys, and this was found of the journal.
    Done { equal: u64, found: Audit },
}

/// What a walk made: the journal of its world, the answers in the order of the tasks, and how it ended.
#[derive(Drop)]
pub struct WalkMade {
    pub journal: Journal,
    pub answers: Vec<Answer>,
    pub end: WalkEnd,
}

impl WalkMade {
    /// No memory was found, and nothing is left of it.
    pub(crate) fn nothing(alloc: Global) -> WalkMade
        ensures journal { result.journal.entries ≡ [] }
        ensures answers { result.answers.items ≡ [] }
        ensures end { result.end ≡ Memory }
    {
        WalkMade {
            journal: Journal::new(alloc),
            answers: Vec::new(alloc),
            end: WalkEnd::Memory,
        }
    }
}
