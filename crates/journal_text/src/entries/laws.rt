// Laws over the lines of entries, each the contract of a function with nothing to do.
ghost use Rattle.std.specs.Prelude.{◌≡◌, codes, false};
ghost use Rattle.journal_model.specs.declared.entry.Entry.{Entry};
ghost use Rattle.journal_model.specs.declared.entry.What.TheVariants as what;
ghost use Rattle.journal_model.specs.declared.verdict.Why.TheVariants as why;
ghost use Rattle.journal_model.specs.declared.verdict.Verdict.TheVariants as verdict;
ghost use Rattle.journal_model.specs.declared.answer.Answer.TheVariants as answer;
ghost use Rattle.journal_text.specs.Entries.Entries.{entry_line, IsEntry};

/// Two entries that have one line are the same.
pub fn one_line_one_entry()
    ensures { (a b : Entry) → IsEntry a → IsEntry b → entry_line a ≡ entry_line b → a ≡ b }
{}

/// Some entries with their lines.
pub fn worked_lines()
    ensures start { entry_line (record { by = 0; what = what.Start 1 0 false }) ≡ codes "0 start 1 0 plain" }
    ensures got { entry_line (record { by = 3; what = what.Got 12 (codes "J 4  X") }) ≡ codes "3 got 12 J 4  X" }
    ensures empty_line { entry_line (record { by = 3; what = what.Got 1 (codes "") }) ≡ codes "3 got 1 " }
    ensures foul { entry_line (record { by = 0; what = what.End 1 (why.Foul 14) }) ≡ codes "0 end 1 foul 14" }
    ensures ended { entry_line (record { by = 0; what = what.Verdict 1 2 (verdict.Ended why.Eof) }) ≡ codes "0 verdict 1 2 ended eof" }
    ensures size { entry_line (record { by = 0; what = what.Answer 7 (answer.Size 10) }) ≡ codes "0 answer 7 size 10" }
    ensures again { entry_line (record { by = 2; what = what.Again 7 (answer.Ended why.Eof) }) ≡ codes "2 again 7 ended eof" }
    ensures renamed { entry_line (record { by = 0; what = what.Answer 7 answer.Renamed }) ≡ codes "0 answer 7 renamed" }
{}
