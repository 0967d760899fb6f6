// Worked rows of the definitions, each the contract of a function with nothing to do.
ghost use Rattle.std.specs.Prelude.{◌≡◌, true, false, [], ◌∷◌, take, codes};
ghost use Rattle.journal_model.specs.AgainRows.{claimed_again, lost_answer, one_check_again, renewed};
ghost use Rattle.journal_model.specs.declared.verdict.Why.TheVariants.{Closed, Eof, Memory};
ghost use Rattle.journal_model.specs.declared.entry.What.TheVariants.{Again, Claim, Got, End, Start};
ghost use Rattle.journal_model.specs.Legality.{Legal};
ghost use Rattle.journal_model.specs.Rows.{by_main, two_checks, tagged_greeting};
ghost use Rattle.crew_work.specs.Laws.Posts.{makes, tagged_crew, pool_crew, alone_crew, is_mains};
ghost use Rattle.crew_work.specs.Laws.Rounds.{IsAtRest};
ghost use Rattle.crew_work.specs.Laws.Laws.{MayBeginTagged};
ghost use Rattle.crew_work.specs.Laws.Tasks.{IsThroughAfterAgain, takes_turn, turns_by};

/// After the greeting of a tagged child a round may begin, and not while a task is busy.
pub fn greeted_may_begin()
    ensures legal { Legal two_checks (take 10 tagged_greeting) }
    ensures begins { MayBeginTagged (take 10 tagged_greeting) 1 }
    ensures at_rest { IsAtRest (take 10 tagged_greeting) }
    ensures busy { IsAtRest tagged_greeting → ⊥ }
{}

/// What each post makes over a tagged child, and what it doesn't.
pub fn tagged_posts()
    ensures ear_hears { makes (tagged_crew 1 2) (Got 1 (codes "x")) ≡ true }
    ensures ear_ends { makes (tagged_crew 1 2) (End 1 Eof) ≡ true }
    ensures ear_closes { makes (tagged_crew 1 2) (End 1 Closed) ≡ false }
    ensures ear_claims { makes (tagged_crew 1 2) (Claim 3 1) ≡ false }
    ensures mouth_ends { makes (tagged_crew 1 3) (End 1 Eof) ≡ false }
    ensures worker_claims { makes (tagged_crew 1 4) (Claim 3 1) ≡ true }
    ensures other_child { makes (tagged_crew 1 4) (Claim 3 2) ≡ false }
    ensures worker_renews { makes (tagged_crew 1 4) (Again 3 lost_answer) ≡ true }
    ensures mouth_renews { makes (tagged_crew 1 3) (Again 3 lost_answer) ≡ false }
    ensures worker_hears { makes (tagged_crew 1 4) (Got 1 (codes "x")) ≡ false }
    ensures main_gives_up { makes (tagged_crew 1 1) (End 1 Memory) ≡ true }
    ensures main_claims { makes (tagged_crew 1 1) (Claim 3 1) ≡ false }
{}

/// The same in a pool of the children 5 and 6, and alone.
pub fn lone_posts()
    ensures second { makes (pool_crew (5 ∷ 6 ∷ []) 3) (Got 6 (codes "x")) ≡ true }
    ensures second_of_first { makes (pool_crew (5 ∷ 6 ∷ []) 3) (Got 5 (codes "x")) ≡ false }
    ensures past_the_last { makes (pool_crew (5 ∷ 6 ∷ []) 4) (Got 6 (codes "x")) ≡ false }
    ensures main_of_pool { makes (pool_crew (5 ∷ 6 ∷ []) 1) (Claim 3 5) ≡ false }
    ensures alone { makes (alone_crew 5 1) (Got 5 (codes "x")) ≡ true }
    ensures others_alone { makes (alone_crew 5 2) (Got 5 (codes "x")) ≡ false }
    ensures starts { is_mains (Start 1 0 true) ≡ true }
{}

/// A task that was claimed again is in its second turn, which its claimer alone takes.
pub fn turns_are_told_apart()
    ensures both { turns_by 0 [] (claimed_again 1) ≡ (1, 1) ∷ (1, 2) ∷ [] }
    ensures another_number { turns_by 4 [] (claimed_again 1) ≡ [] }
    ensures second { takes_turn renewed (by_main (Claim 1 1) ∷ []) 0 1 2 ≡ true }
    ensures not_first { takes_turn renewed (by_main (Claim 1 1) ∷ []) 0 1 1 ≡ false }
{}

/// Who left a task to be run again goes on with a child that is there still.
pub fn renewed_tasks_are_left()
    ensures gone { IsThroughAfterAgain (one_check_again 1) 0 1 renewed renewed }
    ensures there { IsThroughAfterAgain (one_check_again 1) 0 2 renewed renewed → ⊥ }
    ensures another_number { IsThroughAfterAgain (one_check_again 1) 4 2 renewed renewed }
{}
