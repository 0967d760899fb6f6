// Laws over the definitions, each the contract of a function with nothing to do.
ghost use Rattle.std.specs.Prelude.{◌≡◌, true, false, codes};
ghost use Rattle.journal_model.specs.declared.verdict.Why.TheVariants.{Closed, Eof};
ghost use Rattle.journal_model.specs.declared.entry.What.TheVariants.{Ask, Lost, Got, End};
ghost use Rattle.child_life.specs.declared.start.greeting.Mode.TheVariants.{Serve, Init};
ghost use Rattle.child_life.specs.Start.Greetings.{is_of_greeting_for};

/// As job 1 a greeting asks what its mode says, with a tag or without.
pub fn worked_requests()
    ensures extensions { is_of_greeting_for Init 1 (Ask 1 0 0 (codes "EXTENSIONS INFO")) ≡ true }
    ensures prepare { is_of_greeting_for Serve 1 (Ask 1 1 0 (codes "PREPARE")) ≡ true }
    ensures initremote { is_of_greeting_for Init 1 (Ask 1 1 0 (codes "INITREMOTE")) ≡ true }
    ensures tagged { is_of_greeting_for Init 1 (Ask 1 1 0 (codes "J 1 INITREMOTE")) ≡ true }
    ensures prepare_to_set_up { is_of_greeting_for Init 1 (Ask 1 1 0 (codes "PREPARE")) ≡ false }
    ensures initremote_to_serve { is_of_greeting_for Serve 1 (Ask 1 1 0 (codes "INITREMOTE")) ≡ false }
    ensures later { is_of_greeting_for Init 1 (Ask 1 2 0 (codes "INITREMOTE")) ≡ false }
{}

/// It is no task's, of one child, and doesn't close it.
pub fn worked_entries()
    ensures task { is_of_greeting_for Serve 1 (Ask 1 1 1 (codes "PREPARE")) ≡ false }
    ensures other_child { is_of_greeting_for Serve 1 (Ask 2 1 0 (codes "PREPARE")) ≡ false }
    ensures lost { is_of_greeting_for Init 1 (Lost 1 0) ≡ true }
    ensures heard { is_of_greeting_for Init 1 (Got 1 (codes "VERSION 1")) ≡ true }
    ensures heard_of_another { is_of_greeting_for Init 1 (Got 2 (codes "VERSION 1")) ≡ false }
    ensures ended { is_of_greeting_for Serve 1 (End 1 Eof) ≡ true }
    ensures closed { is_of_greeting_for Serve 1 (End 1 Closed) ≡ false }
{}
