// Laws over what is told of an audit, each the contract of a function with nothing to do.
ghost use Rattle.std.specs.Prelude.{◌≡◌, ◌++◌, [], ◌∷◌, codes};
ghost use Rattle.journal_audit.specs.declared.found.Audit.TheVariants.{Legal, Wrong};
ghost use Rattle.special_cli.specs.Audits.{found_line};
ghost use Rattle.special_bin.specs.Laws.AtZero.{ZeroIsLegal};

/// What is printed of what was found.
pub fn worked_findings()
    ensures legal { found_line Legal ≡ codes "legal" ++ 10 ∷ [] }
    ensures wrong { found_line (Wrong 14 10) ≡ codes "wrong 14 10" ++ 10 ∷ [] }
{}

/// At status 0 what the input gave is the whole text of a run, within the limits, whose journal is legal.
pub fn status_0_is_legal()
    ensures { ZeroIsLegal }
{}
