// Laws on what a run may begin with, each the contract of a function with nothing to do.
ghost use Rattle.std.specs.Prelude.{◌≡◌, ◌++◌, ◌∷◌, [], List, ℕ, Some, codes, true};
ghost use Rattle.std.specs.List.{list_any};
ghost use Rattle.task_text.specs.declared.task.Task.{Task};
ghost use Rattle.task_text.specs.declared.task.Work.TheVariants.{Store, Check};
ghost use Rattle.task_text.specs.ChunkLog.ChunkLines.{is_space};
ghost use Rattle.journal_model.specs.declared.opening.Opening.{Opening};
ghost use Rattle.journal_model.specs.AgainRows.{one_check_again};
ghost use Rattle.journal_model.specs.Beginnings.{MayBegin};
ghost use Rattle.journal_model.specs.Legality.{task_of};
ghost use Rattle.journal_model.specs.NoteRows.{known_since, remote};
ghost use Rattle.journal_model.specs.OpeningRows.{begun_as, begun_with};
ghost use Rattle.journal_model.specs.Rows.{one_check, sample_key};

/// The key of a task stands in a line of a chunk log: it holds no space.
pub fn keys_hold_no_space()
    ensures { (o : Opening) (t : ℕ) (task : Task) → MayBegin o → task_of o t ≡ Some task → list_any is_space task.key ≡ true → ⊥ }
{}

/// A run begins with tasks that lines spell, and with an identity that can be said.
pub fn worked_openings()
    ensures check { MayBegin one_check }
    ensures store { MayBegin (known_since 5 Store) }
    ensures eight_times { MayBegin (one_check_again 8) }
    ensures nine_times { MayBegin (one_check_again 9) → ⊥ }
    ensures nothing { MayBegin (begun_as remote (codes "remote")) }
    ensures chunk_key { MayBegin (begun_with Check (codes "WORM-s150-S100-C1--a") []) → ⊥ }
    ensures spaced_key { MayBegin (begun_with Check (codes "WORM--a b") []) → ⊥ }
    ensures file_of_check { MayBegin (begun_with Check sample_key (codes "f")) → ⊥ }
    ensures no_file { MayBegin (begun_with Store sample_key []) → ⊥ }
    ensures name { MayBegin (begun_as remote (codes "re" ++ 10 ∷ codes "mote")) → ⊥ }
    ensures upper { MayBegin (begun_as (codes "A0000000-0000-0000-0000-000000000000") (codes "remote")) → ⊥ }
{}
