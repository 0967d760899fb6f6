// What it means that a task was run.
ghost use Rattle.std.specs.Prelude.{ℕ, List};
ghost use Rattle.journal_model.specs.declared.entry.Entry.{Entry};

/// A meaning of `the number ran this turn of the task`, said of a journal. It stays, whatever comes later. A value of the type may hold
/// what else it speaks of, as the calls of a worker's desk.
pub trait Meaning {
    ghost use Rattle.crew_work.specs.Laws.Tasks.{Lasts};

    ghost ran: { Self → ℕ → ℕ → ℕ → List Entry → Type 0 };

    ghost lasts: { (m : Self) → Lasts (ran m) };
}
