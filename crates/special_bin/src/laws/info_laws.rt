// Laws over what is told of an info, each the contract of a function with nothing to do.
ghost use Rattle.std.specs.Prelude.{◌≡◌, ◌++◌, [], ◌∷◌, Some, None, codes, true};
ghost use Rattle.info_and_init.specs.Info.Rows.{foul_cost, not_started};
ghost use Rattle.info_and_init.specs.Info.Informs.{IsComplete};
ghost use Rattle.special_cli.specs.Informs.{IsInfoTold};
ghost use Rattle.special_bin.specs.Laws.Rows.{unasked};

/// A child that is ended for its second answer is told by the first and the line in place of the second, at status 1; with no
/// line missing, and not as though it had answered all.
pub fn a_foul_cost_is_told()
    ensures told { IsInfoTold 1 (Some []) (Some (codes "config directory where" ++ 10 ∷ codes "foul COST" ++ 10 ∷ [])) None foul_cost }
    ensures status { IsInfoTold 0 (Some []) (Some (codes "config directory where" ++ 10 ∷ codes "foul COST" ++ 10 ∷ [])) None foul_cost → ⊥ }
    ensures missing { IsInfoTold 1 (Some []) (Some (codes "config directory where" ++ 10 ∷ [])) None foul_cost → ⊥ }
    ensures cut { IsInfoTold 5 (Some []) (Some (codes "config")) None foul_cost }
{}

/// A start that fails is told, and a child that wasn't asked all without a cause is not complete.
pub fn causes_complete_an_info()
    ensures not_started { IsInfoTold 1 (Some []) (Some (codes "startfault" ++ 10 ∷ [])) None not_started }
    ensures unasked { IsComplete None unasked → ⊥ }
{}
