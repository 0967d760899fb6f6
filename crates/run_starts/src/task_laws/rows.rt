// What the definitions accept and refuse of worked runs. Each law is the contract of a function with nothing to do.
ghost use Rattle.std.specs.Prelude.{◌≡◌, ◌++◌, [], ◌∷◌, Some, None, Ok, Err, codes, true, false, take};
ghost use Rattle.std.specs.List.{list_all};
ghost use Rattle.ann_outside.specs.declared.file_desk.Call.TheVariants.{Size, Create};
ghost use Rattle.ann_outside.specs.declared.file_desk.DeskError.TheVariants.{Missing, Failed as CallFailed};
ghost use Rattle.journal_model.specs.declared.answer.Answer.TheVariants.{Got};
ghost use Rattle.journal_model.specs.declared.verdict.Verdict.TheVariants.{Absent, Done, Failed, Unknown};
ghost use Rattle.journal_model.specs.Rows.{greeting};
ghost use Rattle.task_model.specs.Rows.{setup_of, first_turn, second_turn, store_a, stores_a, sized, get_abc, fetched_1, gets_abc, got_abc, renamed, part_gone};
ghost use Rattle.task_model.specs.Rows.{store_ten, stores_ten, stored_ten, cut_behind_filling, made_twice, lost_ten, stored_short};
ghost use Rattle.task_model.specs.Rows.{get_ten, gets_ten, resumed_ten, check_ten, checks_ten, finds_ten, asks, c1, fetched_2_1, got_hi};
ghost use Rattle.annex_model.specs.Messages.{Checkpresent, Transfer};
ghost use Rattle.task_text.specs.declared.task.Work.TheVariants.{XCheck};
ghost use Rattle.task_model.specs.ExportRows.{checks_docs, docs_task, get_docs, gets_docs, rename_docs, renames_docs, store_docs, stores_docs};
ghost use Rattle.crew_work.specs.Laws.JournalRuns.{JournalRun};
ghost use Rattle.task_model.specs.Askings.{run_askings};
ghost use Rattle.run_starts.specs.TaskLaws.Changes.{requests, stored_by, Retrieves};
ghost use Rattle.run_starts.specs.TaskLaws.Contents.{Shows};
ghost use Rattle.run_starts.specs.TaskLaws.Faithful.{sent, IsFaithful, IsPlayed};
ghost use Rattle.run_starts.specs.TaskLaws.FilesKept.{HasNoPart};
ghost use Rattle.run_starts.specs.TaskLaws.Kept.{is_afresh};
ghost use Rattle.run_starts.specs.TaskLaws.Retrieval.{GotStored};
ghost use Rattle.run_starts.specs.TaskLaws.WentWell.{WentWell};
ghost use Rattle.run_starts.specs.TaskLaws.Rows.{ten_parts, worm_parts, abc_parts, hi, hi_parts, store_then_get, storing, stored_then_got, the_store, the_retrieve};
ghost use Rattle.run_starts.specs.TaskLaws.Rows.{told_hi, told_ho, told_left, filled_early, one_store, first_chunk, told_calls};
ghost use Rattle.run_starts.specs.TaskLaws.Rows.{stored_again, removed, other_removed, not_stored, with_again, lost_then_got, told_again};

/// A store whose questions were answered in any way went well, and not one that failed, whose child was gone, or whose file shrank.
pub fn stores_went_well()
    ensures stored { WentWell (setup_of 4) (first_turn 1) store_ten ten_parts [] stores_ten stored_ten }
    ensures unknown { WentWell (setup_of 4) (first_turn 1) store_ten ten_parts [] (asks (Checkpresent c1) (Unknown 13) ∷ []) (sized (codes "f") 10) }
    ensures failed { WentWell (setup_of 0) (first_turn 1) store_a worm_parts [] (stores_a (Failed 13)) (sized (codes "f") 2) → ⊥ }
    ensures gone { WentWell (setup_of 4) (first_turn 1) store_ten ten_parts [] lost_ten (sized (codes "f") 10) → ⊥ }
    ensures other_length { WentWell (setup_of 4) (first_turn 1) store_ten ten_parts [] [] (sized (codes "f") 9) → ⊥ }
    ensures shrank { WentWell (setup_of 4) (first_turn 1) store_ten ten_parts [] (take 2 stores_ten) stored_short → ⊥ }
    ensures missing { WentWell (setup_of 0) (first_turn 1) store_a worm_parts [] [] (Size (codes "f") (Err Missing) ∷ []) → ⊥ }
    ensures fault { WentWell (setup_of 0) (first_turn 1) store_a worm_parts [] [] (Size (codes "f") (Err CallFailed) ∷ []) → ⊥ }
{}

/// A check went well where each key is there. A get may miss part, and no file that was fetched, and each has its length.
pub fn others_went_well()
    ensures present { WentWell (setup_of 0) (first_turn 1) check_ten ten_parts ((4, 3) ∷ []) finds_ten [] }
    ensures absent { WentWell (setup_of 0) (first_turn 1) check_ten ten_parts ((4, 3) ∷ []) checks_ten [] → ⊥ }
    ensures no_part { WentWell (setup_of 0) (first_turn 1) get_ten ten_parts ((4, 3) ∷ []) [] (Size (codes "o.part") (Err Missing) ∷ Create (codes "o.part") (Ok tt) ∷ []) }
    ensures not_fetched { WentWell (setup_of 0) (first_turn 1) get_abc abc_parts [] (gets_abc (Done 13)) (Size fetched_1 (Err Missing) ∷ []) → ⊥ }
    ensures other_length { WentWell (setup_of 0) (first_turn 1) get_abc abc_parts [] (gets_abc (Done 13)) (sized fetched_1 2 ++ part_gone) → ⊥ }
{}

/// A task under a name went well where its one request was done, a file to store has its key's size, and a fetched one has it too.
pub fn exports_went_well()
    ensures stored { WentWell (setup_of 0) (first_turn 1) store_docs hi_parts [] (stores_docs (Done 14)) (sized (codes "f") 2) }
    ensures renamed { WentWell (setup_of 0) (first_turn 1) rename_docs worm_parts [] (renames_docs (codes "b") (Done 14)) [] }
    ensures failed { WentWell (setup_of 0) (first_turn 1) store_docs hi_parts [] (stores_docs (Failed 14)) (sized (codes "f") 2) → ⊥ }
    ensures absent { WentWell (setup_of 0) (first_turn 1) (docs_task XCheck) worm_parts [] (checks_docs (Absent 14)) [] → ⊥ }
    ensures other_length { WentWell (setup_of 0) (first_turn 1) store_docs hi_parts [] [] (sized (codes "f") 9) → ⊥ }
    ensures not_fetched { WentWell (setup_of 0) (first_turn 1) get_docs abc_parts [] (gets_docs (Done 14)) (Size fetched_1 (Err Missing) ∷ []) → ⊥ }
    ensures short { WentWell (setup_of 0) (first_turn 1) get_docs abc_parts [] (gets_docs (Done 14)) (sized fetched_1 2 ++ part_gone) → ⊥ }
{}

/// A get in the plain layout begins afresh whatever part held, and one in chunks where part was missing or empty.
pub fn begins_afresh()
    ensures plain { is_afresh (0 ∷ []) (codes "o") (gets_abc (Done 13)) (got_abc (codes "abc") ++ renamed) ≡ true }
    ensures missing { is_afresh (4 ∷ 0 ∷ []) (codes "o") [] (Size (codes "o.part") (Err Missing) ∷ []) ≡ true }
    ensures resumed { is_afresh (4 ∷ 0 ∷ []) (codes "o") gets_ten resumed_ten ≡ false }
{}

/// A get had no part where its desk has none before it, and none of its calls fills part before the begin of the last layout.
pub fn had_no_part()
    ensures none { HasNoPart (codes "o") got_hi ((fetched_2_1, codes "hi") ∷ []) }
    ensures there { HasNoPart (codes "o") got_hi ((codes "o.part", codes "h") ∷ []) → ⊥ }
    ensures filled { HasNoPart (codes "o") filled_early [] → ⊥ }
{}

/// A file that was read whole, or not, shows its content and no other.
pub fn files_show()
    ensures whole { Shows fetched_2_1 (codes "hi") got_hi }
    ensures unread { Shows fetched_2_1 (codes "hi") (sized fetched_2_1 2) }
    ensures other { Shows fetched_2_1 (codes "ho") got_hi → ⊥ }
    ensures longer { Shows fetched_2_1 (codes "hi!") got_hi → ⊥ }
{}

/// What stored a key is its last change before the retrieve was answered, where that is a STORE that was done before it was asked.
pub fn what_stored()
    ensures stored { stored_by stored_then_got hi 17 19 ≡ Some the_store }
    ensures too_early { stored_by stored_then_got hi 13 19 ≡ None }
    ensures other_key { stored_by stored_then_got (codes "WORM-s2--b") 17 19 ≡ None }
    ensures failed { stored_by (greeting ++ not_stored) hi 16 18 ≡ None }
    ensures again { stored_by (greeting ++ storing ++ stored_again ∷ []) hi 17 19 ≡ None }
    ensures removed { stored_by (greeting ++ storing ++ removed ∷ []) hi 17 19 ≡ None }
    ensures last_run { stored_by lost_then_got hi 33 35 ≡ Some the_store }
    ensures other_removed { stored_by (greeting ++ storing ++ other_removed ∷ []) hi 17 19 ≡ Some the_store }
{}

/// What a STORE of a chunk sent is what its file held: all of it, or what was left of it, or what it got after its making anew.
pub fn what_chunks_sent()
    ensures whole { sent one_store (setup_of 4) (told_calls stored_ten) first_chunk ≡ codes "0123" }
    ensures cut { sent one_store (setup_of 4) (told_calls cut_behind_filling) first_chunk ≡ codes "01" }
    ensures made_twice { sent one_store (setup_of 4) (told_calls made_twice) first_chunk ≡ codes "23" }
    ensures unknown { sent one_store (setup_of 4) (told_calls []) first_chunk ≡ [] }
    ensures plain { sent one_store (setup_of 0) (told_calls stored_ten) first_chunk ≡ codes "held" }
{}

/// A remote that sends what the storing task's desk held is faithful, and one that sends another content isn't.
pub fn faithful_remotes()
    ensures retrieves { Retrieves stored_then_got the_retrieve the_store hi fetched_2_1 }
    ensures sent { sent store_then_get (setup_of 0) told_hi the_store ≡ codes "hi" }
    ensures same { IsFaithful store_then_get (setup_of 0) told_hi stored_then_got }
    ensures other { IsFaithful store_then_get (setup_of 0) told_ho stored_then_got → ⊥ }
{}

/// What its calls made of its desk's files is what they hold after the second task, and they hold no other bytes.
pub fn played_at_its_desk()
    ensures hi { IsPlayed (told_left (codes "hi")) (first_turn 2) }
    ensures ho { IsPlayed (told_left (codes "ho")) (first_turn 2) → ⊥ }
{}

/// The last run of a task got what was stored, where the child was lost under the run before.
pub fn got_in_the_last_run()
    ensures { GotStored with_again (setup_of 0) told_again lost_then_got 0 (second_turn 2) hi_parts (the_store ∷ []) }
{}

/// The second task of that run got what the first one stored.
pub fn got_what_was_stored()
    ensures { GotStored store_then_get (setup_of 0) told_hi stored_then_got 0 (first_turn 2) hi_parts (the_store ∷ []) }
{}
