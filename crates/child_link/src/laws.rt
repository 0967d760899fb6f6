// What roles make, and worked cases of what asking comes to, each the contract of a function with nothing to do.
ghost use Rattle.std.specs.Prelude.{◌≡◌, [], true, false, ℕ, List};
ghost use Rattle.std.specs.List.{list_all};
ghost use Rattle.journal_model.specs.declared.entry.Entry.{Entry};
ghost use Rattle.journal_model.specs.declared.opening.Opening.{Opening};
ghost use Rattle.host_core.specs.Steps.{step_of};
ghost use Rattle.host_core.specs.declared.event.Event.TheVariants.{Got as GotEvent};
ghost use Rattle.journal_model.specs.declared.verdict.Why.TheVariants.{Closed, Eof, Memory};
ghost use Rattle.journal_model.specs.declared.verdict.Verdict.TheVariants.{Done, Unsent};
ghost use Rattle.journal_model.specs.declared.entry.What.TheVariants.{Put, Sent, Got, End, Verdict as Settled};
ghost use Rattle.journal_model.specs.Shares.{by_ear, by_mouth, is_heard, is_said, is_of_child};
ghost use Rattle.child_link.specs.Asks.{IsHeardOut};
ghost use Rattle.journal_model.specs.Rows.{check_present};
ghost use Rattle.child_link.specs.Rows.{as_far_as_its_verdict, failed_to_write, unwritten, written_late};
ghost use Rattle.child_link.specs.Writings.{is_written_first};

/// The worked check is heard out at its verdict. It isn't where its request was never written.
pub fn heard_out_rows()
    ensures whole { IsHeardOut 1 2 (Done 13) as_far_as_its_verdict }
    ensures unwritten { IsHeardOut 1 2 (Done 13) unwritten → ⊥ }
{}

/// In the worked check each request was written before it was answered. It isn't so where one never was, or only after its
/// answer; of a mute child nothing is said.
pub fn written_first_rows()
    ensures whole { is_written_first check_present 1 ≡ true }
    ensures nothing { is_written_first [] 1 ≡ true }
    ensures unwritten { is_written_first unwritten 1 ≡ false }
    ensures late { is_written_first written_late 1 ≡ false }
    ensures mute { is_written_first failed_to_write 1 ≡ true }
    ensures other { is_written_first unwritten 2 ≡ true }
{}

/// What an ear and a mouth of child 1 make, and what others must leave to them.
pub fn kinds_of_roles()
    ensures ear_closes { by_ear 1 (End 1 Closed) ≡ false }
    ensures ear_ends { by_ear 1 (End 1 Eof) ≡ true }
    ensures ear_of_another { by_ear 1 (Got 2 []) ≡ false }
    ensures mouth_settles { by_mouth 1 (Settled 1 2 (Done 13)) ≡ false }
    ensures mouth_unsends { by_mouth 1 (Settled 1 2 Unsent) ≡ true }
    ensures memory { is_heard 1 (End 1 Memory) ≡ false }
    ensures heard { is_heard 1 (End 1 Eof) ≡ true }
    ensures said { is_said 1 (Sent 1) ≡ true }
    ensures replies { is_of_child 1 (Put 1 2 []) ≡ true }
{}

/// Whatever a child says, its line makes entries of that child alone: it ends no other child, and settles no other child's job.
pub fn children_apart()
    ensures { (o : Opening) (past : List Entry) (by c : ℕ) (line : List ℕ) → list_all (λ (e : Entry). by_ear c e.what) (step_of o past by (GotEvent c line)).group ≡ true }
{}
