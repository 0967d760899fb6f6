// Worked inputs, and a law over the definitions, each the contract of a function with nothing to do.
ghost use Rattle.std.specs.Prelude.{ℕ, List, ◌≡◌, ◌++◌, ◌∷◌, [], true, false};
ghost use Rattle.annex_model.specs.Lines.{Cut, text};
ghost use Rattle.journal_reader.specs.RunTexts.{IsTold};
ghost use Rattle.journal_text.specs.Lines.JournalTexts.{Told, told_lines};
ghost use Rattle.audit_command.specs.Inputs.{passes, lines_within};
ghost use Rattle.audit_command.specs.Rows.{small, one, two, three};
ghost use Rattle.audit_command.specs.SoFar.{HaveEnded, IsFirstPart};

/// An input passes its limits with one line more, and with one byte more.
pub fn worked_limits()
    ensures two_lines { passes small (text (one ∷ two ∷ [])) ≡ false }
    ensures unended { passes small (one ++ 10 ∷ two) ≡ false }
    ensures third_line { passes small (text (one ∷ two ∷ []) ++ 65 ∷ []) ≡ true }
    ensures byte { passes small (text (three ∷ [])) ≡ true }
{}

/// The lines before the one in which it passes a limit.
pub fn worked_lines()
    ensures all { lines_within small (one ++ 10 ∷ two) ≡ one ∷ two ∷ [] }
    ensures third_line { lines_within small (text (one ∷ two ∷ one ∷ [])) ≡ one ∷ two ∷ [] }
    ensures byte { lines_within small (text (one ∷ three ∷ [])) ≡ one ∷ [] }
    ensures end_byte { lines_within small (three ++ 10 ∷ []) ≡ [] }
    ensures last_byte { lines_within small (three) ≡ three ∷ [] }
{}

/// The text of a run that is cut off anywhere, in the middle of a line too, ends before its line `begin`, or says its opening and a first
/// part of its journal.
pub fn what_is_cut_is_a_first_part()
    ensures { (t : Told) (bytes more : List ℕ) (lines : List (List ℕ)) → IsTold t → Cut (bytes ++ more) (told_lines t) [] → HaveEnded bytes lines → IsFirstPart t lines }
{}
