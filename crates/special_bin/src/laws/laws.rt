// Laws over the definitions, each the contract of a function with nothing to do.
ghost use Rattle.std.specs.Prelude.{ℕ, ◌≡◌, ◌++◌, List, [], ◌∷◌, Option, Some, None, codes, true, false};
ghost use Rattle.journal_model.specs.declared.verdict.Why.TheVariants.{Error};
ghost use Rattle.journal_model.specs.declared.answer.Answer.{Answer};
ghost use Rattle.journal_model.specs.declared.answer.Answer.TheVariants.{Present, Absent, Unknown, NotPrepared, Ended, NoChild};
ghost use Rattle.journal_model.specs.declared.entry.What.TheVariants.{Got};
ghost use Rattle.journal_model.specs.Journal.{is_tagged};
ghost use Rattle.journal_model.specs.Wires.{is_heard_in_turn};
ghost use Rattle.journal_model.specs.Rows.{sample_key, by_main, greeting, check_present, not_closed, no_disk, away, out_of_disk};
ghost use Rattle.run_children.specs.Unserved.{IsUnserved};
ghost use Rattle.run_and_check.specs.Check.Checks.{IsChecked};
ghost use Rattle.special_cli.specs.Endings.{IsTold, LacksMemory};
ghost use Rattle.child_life.specs.End.Programs.{HaveStarted};
ghost use Rattle.child_life.specs.End.Wires.{is_served_alone};
ghost use Rattle.journal_model.specs.declared.entry.Entry.{Entry};
ghost use Rattle.info_and_init.specs.Info.Informs.{IsInformed};
ghost use Rattle.info_and_init.specs.Init.Inits.{IsSetup};
ghost use Rattle.special_bin.specs.Laws.Alone.{OneJobIsAlone, OneJobOneSlot};
ghost use Rattle.special_bin.specs.Laws.Completeness.{IdleLacksMemory, RunCompletes};
ghost use Rattle.special_bin.specs.Laws.FilesHold.{RunIsTold, RunKeeps};
ghost use Rattle.special_bin.specs.Laws.Rows.{gone_early, unstarted, present_wire, HasWires};

/// A check that found its key is told by its one answer, whole, or cut off where a write failed; by no other answer and with no
/// other status, and neither where nothing was started nor where the child was not closed.
pub fn check_present_is_told()
    ensures told { IsTold 0 ⊥ (Some []) (Some (codes "1 present" ++ 10 ∷ [])) check_present (Present ∷ []) }
    ensures cut { IsTold 5 ⊥ (Some []) (Some (codes "1 pre")) check_present (Present ∷ []) }
    ensures absent { IsTold 1 ⊥ (Some []) (Some (codes "1 absent" ++ 10 ∷ [])) check_present (Absent ∷ []) → ⊥ }
    ensures status { IsTold 1 ⊥ (Some []) (Some (codes "1 present" ++ 10 ∷ [])) check_present (Present ∷ []) → ⊥ }
    ensures unstarted { IsTold 0 ⊥ (Some []) (Some (codes "1 present" ++ 10 ∷ [])) [] (Present ∷ []) → ⊥ }
    ensures unclosed { IsChecked None sample_key not_closed → ⊥ }
    ensures nothing { IsTold 0 ⊥ (Some []) (Some []) [] [] → ⊥ }
{}

/// A check whose child can't get ready is told by what the child said of that, and by no other answer.
pub fn refusal_is_told()
    ensures told { IsTold 1 ⊥ (Some []) (Some (codes "1 notprepared no disk" ++ 10 ∷ [])) no_disk (NotPrepared 8 ∷ []) }
    ensures run { IsUnserved 1 no_disk 1 (NotPrepared 8) }
    ensures alone { (status : ℕ) (out : Option (List ℕ)) (answer : Answer) → IsTold status ⊥ (Some []) out no_disk (answer ∷ []) → answer ≡ NotPrepared 8 }
{}

/// So is one whose child doesn't know whether it has the key.
pub fn unknown_is_told()
    ensures told { IsTold 1 ⊥ (Some []) (Some (codes "1 unknown away" ++ 10 ∷ [])) away (Unknown 15 ∷ []) }
    ensures alone { (status : ℕ) (out : Option (List ℕ)) (answer : Answer) → IsTold status ⊥ (Some []) out away (answer ∷ []) → answer ≡ Unknown 15 }
{}

/// And one whose child gives up.
pub fn error_is_told()
    ensures told { IsTold 1 ⊥ (Some []) (Some (codes "1 ended error out of disk" ++ 10 ∷ [])) out_of_disk (Ended (Error 13) ∷ []) }
    ensures alone { (status : ℕ) (out : Option (List ℕ)) (answer : Answer) → IsTold status ⊥ (Some []) out out_of_disk (answer ∷ []) → answer ≡ Ended (Error 13) }
{}

/// A check whose child got ready, and became mute before the task was claimed for it, is told by `nochild`. A task
/// before which nothing was started has no such run.
pub fn nochild_is_told()
    ensures told { IsTold 1 ⊥ (Some []) (Some (codes "1 nochild" ++ 10 ∷ [])) gone_early (NoChild ∷ []) }
    ensures run { IsUnserved 1 gone_early 1 NoChild }
    ensures unstarted { (answer : Answer) → IsUnserved 1 unstarted 1 answer → ⊥ }
{}

/// The wire of that first check has what the child said and what it was asked. There is one, with the halves of the first start.
pub fn check_present_has_its_wire()
    ensures one { HasWires (present_wire ∷ []) }
    ensures none { HasWires [] → ⊥ }
    ensures cut { HasWires ((record present_wire { taken = Some (codes "PREPARE") }) ∷ []) → ⊥ }
    ensures another { HasWires ((record present_wire { inlet_number = Some 2 }) ∷ []) → ⊥ }
    ensures left_open { HasWires ((record present_wire { is_inlet_open = true }) ∷ []) → ⊥ }
{}

/// The programs of a check saw one start, of the program that was named.
pub fn check_present_is_started()
    ensures once { HaveStarted (LacksMemory 0 ⊥) (codes "p") check_present (Some []) (Some ((codes "p", true) ∷ [])) }
    ensures never { HaveStarted (LacksMemory 0 ⊥) (codes "p") check_present (Some []) (Some []) → ⊥ }
    ensures another { HaveStarted (LacksMemory 0 ⊥) (codes "p") check_present (Some []) (Some ((codes "q", true) ∷ [])) → ⊥ }
    ensures twice { HaveStarted (LacksMemory 0 ⊥) (codes "p") check_present (Some []) (Some ((codes "p", true) ∷ (codes "p", true) ∷ [])) → ⊥ }
    ensures wanting { HaveStarted (LacksMemory 5 ⊥) (codes "p") check_present (Some []) (Some ((codes "p", true) ∷ (codes "p", true) ∷ [])) → ⊥ }
    ensures untold { HaveStarted (LacksMemory 0 ⊥) (codes "p") check_present None None }
{}

/// A line that a child says before it is asked is not heard until then.
pub fn early_lines_are_out_of_turn()
    ensures present { is_heard_in_turn check_present 1 ≡ true }
    ensures early { is_heard_in_turn (greeting ++ by_main (Got 1 (codes "DEBUG x")) ∷ []) 1 ≡ false }
    ensures other { is_heard_in_turn (greeting ++ by_main (Got 1 (codes "DEBUG x")) ∷ []) 2 ≡ true }
{}

/// In a check, an info and an init, and in a run with one job, the main thread serves each child alone; and so is a child that takes no
/// tags served, whoever its worker is. There a request is written before it is answered (`written` of a wire).
pub fn one_thread_serves_alone()
    ensures check { (told : Option ℕ) (key : List ℕ) (journal : List Entry) (c : ℕ) → IsChecked told key journal → is_served_alone journal c ≡ true }
    ensures info { (key : Option (List ℕ)) (journal : List Entry) (c : ℕ) → IsInformed key journal → is_served_alone journal c ≡ true }
    ensures init { (journal : List Entry) (c : ℕ) → IsSetup journal → is_served_alone journal c ≡ true }
    ensures run { OneJobIsAlone }
    ensures untagged { (journal : List Entry) (c : ℕ) → is_tagged journal c ≡ false → is_served_alone journal c ≡ true }
{}

/// With one job, as in a check, each start is in slot 0, and there are at most as many as the run may make: one in a check.
pub fn one_job_starts_in_one_slot()
    ensures { OneJobOneSlot }
{}

/// A run in which no count of faults rose, and all else went well from outside, ends with status 0 and with each task's success, unless
/// no memory was found.
pub fn run_completes()
    ensures begun { RunCompletes }
    ensures idle { IdleLacksMemory }
{}

/// There are files before and after each run of a task that fit what its desks tell. Where the remote was faithful to these, the file of a
/// get that had no part at the begin of its last run holds in the end, at the desk that is left, what the stores of its keys sent; and where
/// one run of a task stored all of them in chunks, the content of that task's file.
pub fn run_keeps()
    ensures told { RunIsTold }
    ensures kept { RunKeeps }
{}
