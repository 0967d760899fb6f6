// Laws over the definitions, each the contract of a function with nothing to do.
ghost use Rattle.std.specs.Prelude.{◌≡◌, ℕ, ◌++◌, ◌∷◌, [], false, true, Some, None, Ok, Err, List, codes};
ghost use Rattle.annex_model.specs.Lines.{has_newline, text, Cut};
ghost use Rattle.cli_words.specs.declared.refusals.Reason.TheVariants.{Word, Key, Unsendable, ChunkKey, File, Name, Long, Many, Large};
ghost use Rattle.cli_words.specs.TaskInput.InputLines.{lines_of, with_rest};
ghost use Rattle.cli_words.specs.TaskInput.Inputs.{refused_in, IsInput};
ghost use Rattle.cli_words.specs.TaskInput.Rows.{drop_a, small, check_b, tasks};
ghost use Rattle.cli_words.specs.declared.task_input.error.InputError.TheVariants.{Refused};

/// The lines of bytes that are cut into lines and a rest: those, and the rest too where the last line may lack its end.
pub fn lines_are_cut()
    ensures ended { (bytes rest : List ℕ) (lines : List (List ℕ)) → Cut bytes lines rest → has_newline rest ≡ false → lines_of false bytes ≡ lines }
    ensures all { (bytes rest : List ℕ) (lines : List (List ℕ)) → Cut bytes lines rest → has_newline rest ≡ false → lines_of true bytes ≡ with_rest lines rest }
{}

/// An input comes to its tasks, and to nothing else.
pub fn worked_input()
    ensures right { IsInput small (text (drop_a ∷ check_b ∷ [])) (Ok tasks) }
    ensures unended { IsInput small (drop_a ++ 10 ∷ check_b) (Ok tasks) }
    ensures nothing { IsInput small [] (Ok []) }
    ensures fewer { IsInput small (text (drop_a ∷ check_b ∷ [])) (Ok []) → ⊥ }
    ensures refused { IsInput small (text (drop_a ∷ check_b ∷ [])) (Err (Refused 1 Word)) → ⊥ }
    ensures unseen { IsInput small (text (drop_a ∷ codes "x" ∷ [])) (Ok tasks) → ⊥ }
    ensures other_line { IsInput small (text (drop_a ∷ codes "x" ∷ [])) (Err (Refused 1 Word)) → ⊥ }
    ensures other_reason { IsInput small (text (drop_a ∷ codes "x" ∷ [])) (Err (Refused 2 Key)) → ⊥ }
{}

/// The first line that is refused, and why.
pub fn worked_refusals()
    ensures word { refused_in small (text (drop_a ∷ codes "x" ∷ [])) ≡ Some (2, Word) }
    ensures first { refused_in small (text (codes "x" ∷ codes "get" ∷ [])) ≡ Some (1, Word) }
    ensures empty { refused_in small (text ([] ∷ drop_a ∷ [])) ≡ Some (1, Word) }
    ensures key { refused_in small (codes "check x") ≡ Some (1, Key) }
    ensures unsendable { refused_in small (codes "drop WORM--a b") ≡ Some (1, Unsendable) }
    ensures chunk_key { refused_in small (codes "drop WORM-S1-C1--a") ≡ Some (1, ChunkKey) }
    ensures file { refused_in small (codes "get WORM--a") ≡ Some (1, File) }
    ensures name { refused_in small (codes "xdrop WORM--a") ≡ Some (1, Name) }
    ensures third { refused_in (record small { bytes = 64 }) (text (drop_a ∷ drop_a ∷ codes "x" ∷ [])) ≡ Some (3, Many) }
    ensures third_long { refused_in (record small { bytes = 64 }) (text (drop_a ∷ drop_a ∷ codes "drop WORM--0123456789abc" ∷ [])) ≡ Some (3, Many) }
    ensures long { refused_in small (codes "drop WORM--0123456789") ≡ Some (1, Long) }
    ensures long_word { refused_in small (codes "x0123456789x0123456789") ≡ Some (1, Long) }
    ensures not_long { refused_in small (codes "drop WORM--012345678") ≡ None }
{}

/// The line in which the input passes its limit is refused as large, whatever it is; an earlier line that is refused comes first.
pub fn worked_large_inputs()
    ensures limit { refused_in small (text (drop_a ∷ codes "drop WORM--01234567" ∷ [])) ≡ Some (2, Large) }
    ensures unended { refused_in small (drop_a ++ 10 ∷ codes "drop WORM--01234567") ≡ None }
    ensures unread { refused_in small (text (drop_a ∷ codes "x123456789 123456789 123456789" ∷ [])) ≡ Some (2, Large) }
    ensures third { refused_in (record small { bytes = 26 }) (text (drop_a ∷ drop_a ∷ codes "x" ∷ [])) ≡ Some (3, Large) }
    ensures earlier { refused_in small (text (codes "x" ∷ codes "drop WORM--0123456789abcdefghijklmnop" ∷ [])) ≡ Some (1, Word) }
    ensures first { refused_in small (codes "drop WORM--0123456789abcdefghijklmnop") ≡ Some (1, Large) }
{}
