// Laws over the definitions, each the contract of a function with nothing to do.
ghost use Rattle.std.specs.Prelude.{◌≡◌, List};
ghost use Rattle.journal_model.specs.declared.entry.Entry.{Entry};
ghost use Rattle.journal_model.specs.declared.opening.Opening.{Opening};
ghost use Rattle.journal_audit.specs.declared.found.Audit.{Audit};
ghost use Rattle.journal_audit.specs.Audits.{IsAudit};

/// A journal has one audit at most.
pub fn audits_agree()
    ensures { (o : Opening) (journal : List Entry) (a b : Audit) → IsAudit o journal a → IsAudit o journal b → a ≡ b }
{}
