// Laws over the definitions, each the contract of a function with nothing to do.
ghost use Rattle.std.specs.Prelude.{◌≡◌, ◌++◌, [], ◌∷◌, Some, None, codes};
ghost use Rattle.journal_model.specs.declared.answer.Answer.TheVariants as answer;
ghost use Rattle.journal_model.specs.declared.verdict.Why.TheVariants.{Eof};
ghost use Rattle.info_and_init.specs.Init.Rows.{set_up, failed, not_known, not_started, gone};
ghost use Rattle.info_and_init.specs.Init.Setups.{outcome_of, setup_text};
ghost use Rattle.info_and_init.specs.declared.init.setup.Setup.TheVariants.{Initialized, Stopped};

/// What a setup comes to is what the child said of INITREMOTE, or why it said nothing of it.
pub fn worked_setups()
    ensures set_up { outcome_of set_up ≡ Some Initialized }
    ensures failed { outcome_of failed ≡ Some (Stopped (answer.Failed 8)) }
    ensures not_known { outcome_of not_known ≡ Some (Stopped answer.Unsupported) }
    ensures not_started { outcome_of not_started ≡ Some (Stopped answer.StartFault) }
    ensures gone { outcome_of gone ≡ Some (Stopped (answer.Ended Eof)) }
    ensures nothing { outcome_of [] ≡ None }
{}

/// It is told as a line.
pub fn worked_texts()
    ensures set_up { setup_text set_up Initialized ≡ codes "initialized" ++ 10 ∷ [] }
    ensures failed { setup_text failed (Stopped (answer.Failed 8)) ≡ codes "failed no disk" ++ 10 ∷ [] }
    ensures not_known { setup_text not_known (Stopped answer.Unsupported) ≡ codes "unsupported" ++ 10 ∷ [] }
    ensures not_started { setup_text not_started (Stopped answer.StartFault) ≡ codes "startfault" ++ 10 ∷ [] }
    ensures gone { setup_text gone (Stopped (answer.Ended Eof)) ≡ codes "ended eof" ++ 10 ∷ [] }
{}
