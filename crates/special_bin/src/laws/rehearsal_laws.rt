// Laws over what is told of a rehearsal, each the contract of a function with nothing to do.
ghost use Rattle.std.specs.Prelude.{◌≡◌, [], ◌∷◌};
ghost use Rattle.annex_model.specs.Lines.{text};
ghost use Rattle.journal_audit.specs.declared.found.Audit.TheVariants.{Legal, Wrong};
ghost use Rattle.journal_model.specs.declared.answer.Answer.TheVariants.{Stored, Got, Present, Absent, Failed, Unsent};
ghost use Rattle.special_cli.specs.Rehearsals.{rehearsal_status, rehearsal_text};
ghost use Rattle.special_cli.specs.Walks.{walk_status, walk_text};
ghost use Rattle.special_bin.specs.Laws.Rows.{rehearsal_lines, walk_lines};

/// What is printed of answers and of what was found, and the status that goes with it.
pub fn worked_rehearsals()
    ensures lines { rehearsal_text (Stored ∷ Present ∷ Unsent ∷ Failed 7 ∷ Stored ∷ []) Legal ≡ text rehearsal_lines }
    ensures well { rehearsal_status (Stored ∷ Absent ∷ Failed 7 ∷ []) Legal ≡ 0 }
    ensures other { rehearsal_status (Stored ∷ Unsent ∷ []) Legal ≡ 1 }
    ensures wrong { rehearsal_status (Stored ∷ []) (Wrong 3 12) ≡ 1 }
{}

/// The same of a walk.
pub fn worked_walks()
    ensures lines { walk_text (Stored ∷ Got ∷ Failed 7 ∷ Stored ∷ []) 1 Legal ≡ text walk_lines }
    ensures well { walk_status 2 (Stored ∷ Got ∷ []) 1 Legal ≡ 0 }
    ensures unanswered { walk_status 3 (Stored ∷ Got ∷ []) 1 Legal ≡ 1 }
    ensures unequal { walk_status 2 (Stored ∷ Got ∷ []) 0 Legal ≡ 1 }
    ensures other { walk_status 1 (Unsent ∷ []) 0 Legal ≡ 1 }
    ensures wrong { walk_status 1 (Stored ∷ []) 0 (Wrong 3 12) ≡ 1 }
{}
