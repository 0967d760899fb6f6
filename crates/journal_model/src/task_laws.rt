// Laws on tasks in a legal journal, each the contract of a function with nothing to do.
ghost use Rattle.std.specs.Prelude.{ℕ, ◌≡◌, ◌≤◌, ◌<◌, ◌+◌, ◌++◌, true, false, List, None};
ghost use Rattle.journal_model.specs.declared.entry.Entry.{Entry};
ghost use Rattle.journal_model.specs.declared.opening.Opening.{Opening};
ghost use Rattle.journal_model.specs.Journal.{any};
ghost use Rattle.journal_model.specs.Legality.{Legal, count, claims, renews, is_busy, has_open_job};
ghost use Rattle.journal_model.specs.Makers.{IsThrough, is_of_task, are_by_holder, task_part};

/// Between two claims of a task it was to be run again. Each of its entries claims it where nobody holds it, or is its holder's.
/// While it isn't busy, no job of it is open.
pub fn tasks_are_their_claimers()
    ensures once { (o : Opening) (journal : List Entry) → Legal o journal → (t : ℕ) → count (claims t) journal ≤ 1 + count (renews t) journal }
    ensures own { (o : Opening) (journal : List Entry) → Legal o journal → (t : ℕ) → 0 < t → are_by_holder t None journal ≡ true }
    ensures shut { (o : Opening) (journal : List Entry) → Legal o journal → (t : ℕ) → 0 < t → is_busy journal t ≡ false → has_open_job journal t ≡ false }
{}

/// Of a task that was claimed and isn't busy nothing is made later. And where nothing is made of a task that has no open job,
/// what the journal has of it stays.
pub fn done_tasks_stay()
    ensures untouched { (o : Opening) (start rest : List Entry) → Legal o start → Legal o (start ++ rest) → (t : ℕ) → IsThrough start t → any (is_of_task t) rest ≡ false }
    ensures same { (past more : List Entry) (t : ℕ) → any (is_of_task t) more ≡ false → has_open_job past t ≡ false → task_part (past ++ more) t ≡ task_part past t }
{}
