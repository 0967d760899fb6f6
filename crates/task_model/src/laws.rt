// Laws over the definitions, each the contract of a function with nothing to do.
ghost use Rattle.std.specs.Prelude.{◌≡◌, ◌++◌, [], ◌∷◌, false, Some, None, codes};
ghost use Rattle.journal_model.specs.declared.verdict.Why.TheVariants.{Eof, Closed, Foul};
ghost use Rattle.journal_model.specs.declared.verdict.Verdict.TheVariants.{Done, Failed, Absent, Unsupported, Unknown, Ended, Unsent};
ghost use Rattle.annex_model.specs.Messages.{Checkpresent};
ghost use Rattle.journal_model.specs.declared.answer.Answer.{Answer};
ghost use Rattle.journal_model.specs.declared.answer.Answer.TheVariants.{Present, Absent as AbsentAnswer, Unsupported as UnsupportedAnswer, StartFault, Memory};
ghost use Rattle.journal_model.specs.declared.answer.Answer.TheVariants.{Unknown as UnknownAnswer, NotPrepared, Ended as EndedAnswer};
ghost use Rattle.journal_model.specs.declared.entry.What.TheVariants.{Claim, Start, NoStart, Mute, Got, End, Verdict as Settled, Lost};
ghost use Rattle.journal_model.specs.Rows.{sample_key, by_main, introduced, greeting, asking, check_present, crossed, tag_left_off, no_disk, away};
ghost use Rattle.task_model.specs.TaskRuns.{askings, CheckRun, CheckTask};

/// A check that found its key asked for it once, and is answered so alone.
pub fn check_present_runs()
    ensures asked { askings check_present 1 ≡ record { request = Some (Checkpresent sample_key); name = None; verdict = Done 13 } ∷ [] }
    ensures open { askings (greeting ++ asking) 1 ≡ [] }
    ensures other { askings check_present 2 ≡ [] }
    ensures present { CheckRun sample_key (askings check_present 1) Present }
    ensures absent { CheckRun sample_key (askings check_present 1) AbsentAnswer → ⊥ }
    ensures another { CheckRun (codes "WORM--x") (askings check_present 1) Present → ⊥ }
    ensures unasked { CheckRun sample_key [] Present → ⊥ }
{}

/// What a remote doesn't know of a key is neither present nor absent; a request that it doesn't know is told as that; and no
/// line says that a check failed.
pub fn check_unknown_runs()
    ensures asked { askings away 1 ≡ record { request = Some (Checkpresent sample_key); name = None; verdict = Unknown 15 } ∷ [] }
    ensures unknown { CheckRun sample_key (askings away 1) (UnknownAnswer 15) }
    ensures absent { CheckRun sample_key (askings away 1) AbsentAnswer → ⊥ }
    ensures unsupported { CheckRun sample_key (record { request = Some (Checkpresent sample_key); name = None; verdict = Unsupported 13 } ∷ []) UnsupportedAnswer }
    ensures failed { (answer : Answer) → CheckRun sample_key (record { request = Some (Checkpresent sample_key); name = None; verdict = Failed 13 } ∷ []) answer → answer ≡ Memory }
{}

/// The requests of a tagged child are kept without their tags.
pub fn crossed_runs()
    ensures first { askings crossed 1 ≡ record { request = Some (Checkpresent (codes "WORM--a")); name = None; verdict = Absent 16 } ∷ [] }
    ensures second { askings crossed 2 ≡ record { request = Some (Checkpresent (codes "WORM--b")); name = None; verdict = Done 14 } ∷ [] }
    ensures ended { askings tag_left_off 1 ≡ record { request = Some (Checkpresent (codes "WORM--a")); name = None; verdict = Ended (Foul 14) } ∷ [] }
{}

/// A request that found its child ended stands for that end, also where the child was mute; one that found it mute alone was
/// not sent.
pub fn lost_runs()
    ensures ended { askings (greeting ++ by_main (Claim 1 1) ∷ by_main (Mute 1) ∷ by_main (End 1 Eof) ∷ by_main (Lost 1 1) ∷ []) 1 ≡ record { request = None; name = None; verdict = Ended Eof } ∷ [] }
    ensures mute { askings (greeting ++ by_main (Claim 1 1) ∷ by_main (Mute 1) ∷ by_main (Lost 1 1) ∷ by_main (End 1 Eof) ∷ []) 1 ≡ record { request = None; name = None; verdict = Unsent } ∷ [] }
    ensures answer { CheckRun sample_key (record { request = None; name = None; verdict = Ended Eof } ∷ []) (EndedAnswer Eof) }
    ensures memory { CheckRun sample_key [] Memory }
    ensures kept { CheckRun sample_key (record { request = None; name = None; verdict = Done 13 } ∷ []) Present → ⊥ }
{}

/// A check over a child is answered as its request; without one as the start that failed, or as the child that wasn't ready:
/// as its refusal, also where it has ended since, or else as its end. No answer is what a child stands for that the host closed.
pub fn check_tasks()
    ensures present { CheckTask sample_key check_present 1 Present }
    ensures startfault { CheckTask sample_key (by_main (NoStart 0) ∷ by_main (Claim 1 0) ∷ []) 1 StartFault }
    ensures ended { CheckTask sample_key (by_main (Start 1 0 false) ∷ by_main (End 1 Eof) ∷ by_main (Claim 1 0) ∷ []) 1 (EndedAnswer Eof) }
    ensures refused { CheckTask sample_key no_disk 1 (NotPrepared 8) }
    ensures unsupported { CheckTask sample_key
        (introduced ++ by_main (Got 1 (codes "UNSUPPORTED-REQUEST")) ∷ by_main (Settled 1 1 (Unsupported 8)) ∷ by_main (End 1 Eof) ∷ by_main (Claim 1 0) ∷ []) 1 (NotPrepared 8) }
    ensures memory { CheckTask sample_key (by_main (Claim 1 0) ∷ []) 1 Memory }
    ensures unclaimed { CheckTask sample_key [] 1 Present → ⊥ }
    ensures invented { CheckTask sample_key (by_main (NoStart 0) ∷ by_main (Claim 1 0) ∷ []) 1 Present → ⊥ }
    ensures closed { CheckTask sample_key (by_main (Start 1 0 false) ∷ by_main (End 1 Closed) ∷ by_main (Claim 1 0) ∷ []) 1 (EndedAnswer Closed) → ⊥ }
    ensures unasked { CheckTask sample_key (greeting ++ by_main (Claim 1 1) ∷ []) 1 Present → ⊥ }
{}
