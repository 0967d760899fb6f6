// Laws over the table of events, each the contract of a function with nothing to do.
ghost use Rattle.std.specs.Prelude.{◌≡◌, ◌<◌, ◌^◌, ◌++◌, ◌∷◌, [], ◌↔◌, ℕ, List, Some, true, length, IsTrue};
ghost use Rattle.task_text.specs.ChunkLog.NoteBooks.{in_order};
ghost use Rattle.journal_model.specs.declared.entry.What.{What};
ghost use Rattle.journal_model.specs.declared.entry.Entry.{Entry};
ghost use Rattle.journal_model.specs.declared.opening.Opening.{Opening};
ghost use Rattle.journal_model.specs.declared.answer.Answer.TheVariants.{Memory};
ghost use Rattle.journal_model.specs.declared.entry.What.TheVariants.{Again, Answer as Answered};
ghost use Rattle.journal_model.specs.AgainRows.{claimed_again, lost, lost_answer, one_check_again, renewed};
ghost use Rattle.journal_model.specs.Legality.{Legal, MayStand};
ghost use Rattle.journal_model.specs.NoteRows.{to_do, known_since, claimed, stored, noting, noted_and_answered};
ghost use Rattle.journal_model.specs.Rows.{by_main, greeting};
ghost use Rattle.task_text.specs.declared.task.Work.TheVariants.{Store, Drop};
ghost use Rattle.host_core.specs.Books.{AreTaskLayouts};
ghost use Rattle.host_core.specs.Steps.{step_of, Comes, Appends};
ghost use Rattle.host_core.specs.declared.event.Event.{Event};
ghost use Rattle.host_core.specs.declared.event.Event.TheVariants.{Answer as AnswerEvent, Claim as ClaimEvent, Layouts as AskLayouts};
ghost use Rattle.host_core.specs.declared.event.Reply.TheVariants.{Layouts as Known, Done, Odd, Task as TaskReply};

/// An event appends nothing, or a whole group, and keeps a journal legal. Where nothing is due, each entry that may stand is one that
/// some event appends first. A job's number has 64 bits, so these hold of journals shorter than that.
pub fn events_keep_legal()
    ensures group { (o : Opening) (past : List Entry) (by : ℕ) (event : Event) → length past < 2 ^ 64 → Comes o past (step_of o past by event) }
    ensures legal { (o : Opening) (past : List Entry) (by : ℕ) (event : Event) → length past < 2 ^ 64 → Legal o past → Legal o (past ++ (step_of o past by event).group) }
    ensures exact { (o : Opening) (past : List Entry) (by : ℕ) (w : What) → length past < 2 ^ 64 → MayStand o past [] (record { by = by; what = w }) ↔ Appends o past by w }
{}

/// The layouts that are answered are those in which the remote has the task's key by all notes so far. A book that a run begins
/// with is in order.
pub fn layouts_are_current()
    ensures { (o : Opening) (past : List Entry) (by number : ℕ) (layouts : List (ℕ × ℕ)) → IsTrue (in_order o.notes)
        → (step_of o past by (AskLayouts number)).reply ≡ Known layouts
        → AreTaskLayouts o past number layouts }
{}

/// Layouts are answered to the number that holds the task, of any work, and to no other.
#[tactic(auto, unfolding(task_text::specs::ChunkLog::Current::layouts_of))]
pub fn worked_layouts()
    ensures none { (step_of (to_do Store) stored 0 (AskLayouts 1)).reply ≡ Known [] }
    ensures noted { (step_of (to_do Store) (noting 2) 0 (AskLayouts 1)).reply ≡ Known ((100, 2) ∷ []) }
    ensures before { (step_of (known_since 5 Drop) claimed 0 (AskLayouts 1)).reply ≡ Known ((100, 2) ∷ []) }
    ensures over_older { (step_of (known_since 5 Store) (noting 7) 0 (AskLayouts 1)).reply ≡ Known ((100, 7) ∷ []) }
    ensures no_chunks { (step_of (known_since 5 Store) (noting 0) 0 (AskLayouts 1)).reply ≡ Known [] }
    ensures other_number { (step_of (to_do Store) (noting 2) 3 (AskLayouts 1)).reply ≡ Odd }
    ensures answered { (step_of (to_do Store) noted_and_answered 0 (AskLayouts 1)).reply ≡ Odd }
    ensures unclaimed { (step_of (to_do Store) greeting 0 (AskLayouts 1)).reply ≡ Odd }
    ensures other_task { (step_of (to_do Store) (noting 2) 0 (AskLayouts 2)).reply ≡ Odd }
{}

/// A task whose child was lost is run again in place of its answer, where it may be, and is claimed for its next turn.
pub fn worked_agains()
    ensures again { (step_of (one_check_again 1) lost 0 (AnswerEvent 1 lost_answer)).group ≡ by_main (Again 1 lost_answer) ∷ [] }
    ensures done { (step_of (one_check_again 1) lost 0 (AnswerEvent 1 lost_answer)).reply ≡ Done }
    ensures next { (step_of (one_check_again 1) renewed 0 (ClaimEvent 0)).reply ≡ TaskReply 1 2 }
    ensures let_go { (step_of (one_check_again 1) renewed 0 (AnswerEvent 1 lost_answer)).reply ≡ Odd }
    ensures other_answer { (step_of (one_check_again 1) lost 0 (AnswerEvent 1 Memory)).group ≡ by_main (Answered 1 Memory) ∷ [] }
    ensures other_number { (step_of (one_check_again 1) lost 1 (AnswerEvent 1 lost_answer)).reply ≡ Odd }
    ensures never { (step_of (one_check_again 0) lost 0 (AnswerEvent 1 lost_answer)).group ≡ by_main (Answered 1 lost_answer) ∷ [] }
    ensures once { (step_of (one_check_again 1) (claimed_again 2) 0 (AnswerEvent 1 lost_answer)).group ≡ by_main (Answered 1 lost_answer) ∷ [] }
    ensures twice { (step_of (one_check_again 2) (claimed_again 2) 0 (AnswerEvent 1 lost_answer)).group ≡ by_main (Again 1 lost_answer) ∷ [] }
    ensures childless { (step_of (one_check_again 2) (claimed_again 0) 0 (AnswerEvent 1 lost_answer)).group ≡ by_main (Answered 1 lost_answer) ∷ [] }
{}
