// Laws over what is told of a recovery, each the contract of a function with nothing to do.
ghost use Rattle.std.specs.Prelude.{◌≡◌, ◌++◌, [], ◌∷◌, Some, None, codes};
ghost use Rattle.annex_model.specs.Lines.{text};
ghost use Rattle.audit_command.specs.declared.recover.made.KeptEnd.TheVariants.{Changed};
ghost use Rattle.cli_words.specs.Texts.{file_line, keep_changed_line};
ghost use Rattle.journal_model.specs.declared.answer.Answer.TheVariants.{Stored, Present, Absent};
ghost use Rattle.special_cli.specs.Recoveries.{recovered_lines, recovered_status};
ghost use Rattle.special_cli.specs.Tells.{IsRecoveredTold};
ghost use Rattle.special_bin.specs.Laws.Lost.{IsLost, took};

/// What is printed of the answers so far, and the status that goes with it.
pub fn worked_recoveries()
    ensures lines { recovered_lines [] 1 (Some Present ∷ None ∷ []) ≡ text (codes "1 present" ∷ codes "2 open" ∷ []) }
    ensures well { recovered_status (Some Stored ∷ Some Present ∷ []) ≡ 0 }
    ensures open { recovered_status (Some Stored ∷ None ∷ []) ≡ 1 }
    ensures absent { recovered_status (Some Absent ∷ []) ≡ 1 }
{}

/// A kept file that has changed is told after the answers, at status 6.
pub fn a_changed_kept_file_is_told()
    ensures told { IsRecoveredTold [] (Some Present ∷ []) Changed 6 (took (codes "1 present" ++ 10 ∷ [])) (took keep_changed_line) }
    ensures silent { IsRecoveredTold [] (Some Present ∷ []) Changed 0 (took (codes "1 present" ++ 10 ∷ [])) (took []) → ⊥ }
{}

/// A text that isn't there is told at status 6. It isn't taken for one that begins nothing.
pub fn a_lost_text_is_told()
    ensures told { IsLost 6 file_line }
    ensures unbegun { IsLost 0 [] → ⊥ }
{}
