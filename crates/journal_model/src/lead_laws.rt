// Laws on the name that is said before a request, each the contract of a function with nothing to do.
ghost use Rattle.std.specs.Prelude.{◌≡◌, ◌++◌, ◌∷◌, [], true, false, codes, length};
ghost use Rattle.annex_model.specs.Messages.{Transferexport};
ghost use Rattle.annex_model.specs.Talks.{Conv};
ghost use Rattle.journal_model.specs.declared.answer.Answer.TheVariants.{Stored};
ghost use Rattle.journal_model.specs.declared.entry.What.TheVariants.{Lead, Ask, Answer as Answered};
ghost use Rattle.journal_model.specs.Parts.{part};
ghost use Rattle.journal_model.specs.Due.{replies_at};
ghost use Rattle.journal_model.specs.Legality.{Legal, FirstWrong, Unfinished, may_come};
ghost use Rattle.journal_model.specs.Rows.{two_checks, by_main, claimed_tagged, name_said, export_asked, other_job_asked, asked_by_other, exported, half_written};

/// A name and the request that it leads stand together, and both belong to the job's conversation. Where the name alone was written, the
/// request is unsent.
pub fn exported_is_legal()
    ensures legal { Legal two_checks exported }
    ensures talks { Conv (replies_at two_checks exported) (Transferexport true (codes "WORM--a") (codes "f")) (part exported 1 2) }
    ensures both { length (part exported 1 2) ≡ 3 }
    ensures unsent { Legal two_checks half_written }
{}

/// After a name nothing else may stand than a request of its job, by its number; and no request of a file that is exported stands without
/// a name before it.
pub fn names_are_followed()
    ensures answered { FirstWrong two_checks (claimed_tagged ++ name_said ∷ by_main (Answered 1 Stored) ∷ []) 12 (by_main (Answered 1 Stored)) }
    ensures alone { Unfinished two_checks (claimed_tagged ++ name_said ∷ []) }
    ensures nameless { FirstWrong two_checks (claimed_tagged ++ export_asked ∷ []) 11 export_asked }
    ensures twice { FirstWrong two_checks (claimed_tagged ++ name_said ∷ name_said ∷ []) 12 name_said }
    ensures other { FirstWrong two_checks (claimed_tagged ++ name_said ∷ by_main (Ask 1 2 1 (codes "J 2 CHECKPRESENT WORM--a")) ∷ []) 12 (by_main (Ask 1 2 1 (codes "J 2 CHECKPRESENT WORM--a"))) }
    ensures other_job { FirstWrong two_checks (claimed_tagged ++ name_said ∷ other_job_asked ∷ []) 12 other_job_asked }
    ensures by_other { FirstWrong two_checks (claimed_tagged ++ name_said ∷ asked_by_other ∷ []) 12 asked_by_other }
    ensures late { FirstWrong two_checks (claimed_tagged ++ name_said ∷ export_asked ∷ name_said ∷ []) 13 name_said }
{}

/// Names that may not be said: with another tag, with a space too few, without a task that may ask, under another number.
pub fn refused_names()
    ensures empty { may_come two_checks claimed_tagged 0 (Lead 1 2 (codes "J 2 EXPORT ")) ≡ true }
    ensures other_tag { may_come two_checks claimed_tagged 0 (Lead 1 2 (codes "J 3 EXPORT x")) ≡ false }
    ensures no_tag { may_come two_checks claimed_tagged 0 (Lead 1 2 (codes "EXPORT x")) ≡ false }
    ensures spaceless { may_come two_checks claimed_tagged 0 (Lead 1 2 (codes "J 2 EXPORT")) ≡ false }
    ensures no_text { may_come two_checks claimed_tagged 0 (Lead 1 2 (codes "J 2 EXPORT " ++ 255 ∷ [])) ≡ false }
    ensures other_job { may_come two_checks claimed_tagged 0 (Lead 1 3 (codes "J 3 EXPORT x")) ≡ false }
    ensures by_other { may_come two_checks claimed_tagged 1 (Lead 1 2 (codes "J 2 EXPORT x")) ≡ false }
    ensures request { may_come two_checks claimed_tagged 0 (Lead 1 2 (codes "J 2 CHECKPRESENT WORM--a")) ≡ false }
{}
