// Laws over the definitions, and worked cases, each the contract of a function with nothing to do.
ghost use Rattle.std.specs.Prelude.{◌≡◌, [], ◌∷◌, not, true, false, codes, List, Result, IfOk};
ghost use Rattle.ann_key.specs.declared.bytes.NoMemory.{NoMemory};
ghost use Rattle.annex_model.specs.Messages.{HostMessage};
ghost use Rattle.journal_model.specs.declared.verdict.Why.TheVariants.{Eof};
ghost use Rattle.journal_model.specs.declared.verdict.Verdict.TheVariants.{Done, Failed, Absent, Unknown, Unsupported, Ended, Unsent};
ghost use Rattle.kit_serve.specs.declared.kit.call.Asked.{Asked};
ghost use Rattle.kit_serve.specs.declared.kit.call.Said.{Said};
ghost use Rattle.kit_serve.specs.declared.kit.call.Said.TheVariants.{Yes, No, Failure};
ghost use Rattle.mirror_children.specs.Children.{ChildValue};
ghost use Rattle.mirror_children.specs.Rule.{all_said, check_said, failure, is_done, is_enough, retrieve_said, Answers};
ghost use Rattle.mirror_remote.specs.Starts.Outcomes.{MirrorValue};
ghost use Rattle.mirror_remote.specs.Sessions.{is_prepare, is_prepared_after, AllDid, AreCalls, Called, IsFresh, Keeps};
ghost use Rattle.mirror_remote.specs.Rows.{two, two_saying};

/// Over two children a store is over when one fails, or both did it. One success isn't enough.
pub fn worked_stores()
    ensures first_success { is_enough is_done two (Done 5 ∷ []) ≡ false }
    ensures both { is_enough is_done two (Done 5 ∷ Done 6 ∷ []) ≡ true }
    ensures failure { is_enough is_done two (Failed 5 ∷ []) ≡ true }
    ensures yes { all_said two (Done 5 ∷ Done 6 ∷ []) ≡ Yes }
    ensures ended { all_said two (Ended Eof ∷ []) ≡ Failure (codes "mirror1: ended") }
    ensures text { all_said (two_saying (codes "TRANSFER-FAILURE STORE WORM--a disk full")) (Done 5 ∷ Failed 0 ∷ []) ≡ Failure (codes "mirror3: disk full") }
    ensures unsupported { all_said two (Done 5 ∷ Unsupported 6 ∷ []) ≡ Failure (codes "mirror3: unsupported") }
{}

/// A check says No where a child says that it isn't there, and what a child says that doesn't know.
pub fn worked_checks()
    ensures yes { check_said two (Done 5 ∷ Done 6 ∷ []) ≡ Yes }
    ensures no { check_said two (Done 5 ∷ Absent 6 ∷ []) ≡ No }
    ensures unknown { check_said (two_saying (codes "CHECKPRESENT-UNKNOWN WORM--a no net")) (Done 5 ∷ Unknown 0 ∷ []) ≡ Failure (codes "mirror3: no net") }
    ensures unsent { check_said two (Unsent ∷ []) ≡ Failure (codes "mirror1: unsent") }
{}

/// A retrieve goes on until one child gives it.
pub fn worked_retrieves()
    ensures first { is_enough (λ v. not (is_done v)) two (Done 5 ∷ []) ≡ true }
    ensures next { is_enough (λ v. not (is_done v)) two (Ended Eof ∷ []) ≡ false }
    ensures yes { retrieve_said two (Ended Eof ∷ Done 5 ∷ []) ≡ Yes }
    ensures none { retrieve_said two (Ended Eof ∷ Failed 5 ∷ []) ≡ Failure (codes "no mirror gave it") }
{}

/// Where a store, a remove or a check says Yes, each child was asked in this call, and its line says that it is done.
#[tactic(auto, using(crate::proofs::Everywhere::all_did, crate::proofs::Everywhere::all_have))]
pub fn yes_is_everywhere()
    ensures done { (q : HostMessage) (old new : List ChildValue) → Answers is_done q all_said old new Yes → AllDid q old new }
    ensures checked { (q : HostMessage) (old new : List ChildValue) → Answers is_done q check_said old new Yes → AllDid q old new }
{}

/// After a list of calls whose last prepare didn't say Yes, or that has none, a mirror has no child.
#[tactic(auto, using(crate::proofs::Everywhere::unprepared_empty))]
pub fn unprepared_is_empty()
    ensures { (m n : MirrorValue) (calls : List Called) → IsFresh m → AreCalls m calls n → is_prepared_after false calls ≡ false → n.children ≡ [] }
{}

/// Without a child each call but a prepare says that the mirror isn't prepared, and nobody is asked.
#[tactic(auto, using(crate::proofs::Everywhere::refuses_all))]
pub fn unprepared_refuses()
    ensures { (asked : Asked) (answer : Result Said NoMemory) (old new : MirrorValue) → is_prepare asked ≡ false → old.children ≡ [] → Keeps asked answer old new
        → (new.children ≡ []) × IfOk answer (λ said. said ≡ failure (codes "not prepared")) }
{}
