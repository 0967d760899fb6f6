// Laws over the runs of tasks of exports, each the contract of a function with nothing to do.
ghost use Rattle.std.specs.Prelude.{[], ◌∷◌, ◌++◌, codes, drop, Some, None, true, false};
ghost use Rattle.annex_model.specs.Messages.{Transfer, Transferexport};
ghost use Rattle.journal_model.specs.declared.verdict.Verdict.TheVariants.{Done, Failed, Absent, Unknown, Unsupported, Unsent};
ghost use Rattle.journal_model.specs.declared.answer.Answer.TheVariants.{Stored, Got, Present, Dropped, Renamed, Memory, Absent as AbsentAnswer};
ghost use Rattle.journal_model.specs.declared.answer.Answer.TheVariants.{Unknown as UnknownAnswer, Unsupported as UnsupportedAnswer, Unsent as UnsentAnswer};
ghost use Rattle.journal_model.specs.declared.answer.Answer.TheVariants.{Failed as FailedAnswer, Size as SizeAnswer};
ghost use Rattle.task_text.specs.declared.task.Work.TheVariants.{XCheck, XDrop};
ghost use Rattle.task_model.specs.Runs.{TaskRun};
ghost use Rattle.task_model.specs.Rows.{asks, asks_named, fetched_1, first_turn, got_abc, part_gone, renamed, setup_of, sized};
ghost use Rattle.task_model.specs.ExportRows.{checks_docs, docs_task, drops_docs, get_docs, gets_docs, rename_docs, renames_docs, store_docs, stores_docs};

/// A file is stored once, after its name, and where its length is the key's size. Without that name, after another, or by a request that
/// is of no export, it is no run.
pub fn export_store_runs()
    ensures stored { TaskRun store_docs (first_turn 1) (setup_of 0) [] (stores_docs (Done 14)) (sized (codes "f") 2) [] Stored }
    ensures failed { TaskRun store_docs (first_turn 1) (setup_of 0) [] (stores_docs (Failed 14)) (sized (codes "f") 2) [] (FailedAnswer 14) }
    ensures unknown { TaskRun store_docs (first_turn 1) (setup_of 0) [] (stores_docs (Unsupported 14)) (sized (codes "f") 2) [] UnsupportedAnswer }
    ensures size { TaskRun store_docs (first_turn 1) (setup_of 0) [] [] (sized (codes "f") 3) [] (SizeAnswer 3) }
    ensures memory { TaskRun store_docs (first_turn 1) (setup_of 0) [] [] (sized (codes "f") 2) [] Memory }
    ensures gone { TaskRun store_docs (first_turn 1) (setup_of 0) [] (record { request = None; name = None; verdict = Unsent } ∷ []) (sized (codes "f") 2) [] UnsentAnswer }
    ensures nameless { TaskRun store_docs (first_turn 1) (setup_of 0) [] (asks (Transferexport true (codes "WORM-s2--a") (codes "f")) (Done 14) ∷ []) (sized (codes "f") 2) [] Stored → ⊥ }
    ensures other_name { TaskRun store_docs (first_turn 1) (setup_of 0) []
        (asks_named (codes "docs/a") (Transferexport true (codes "WORM-s2--a") (codes "f")) (Done 14) ∷ []) (sized (codes "f") 2) [] Stored → ⊥ }
    ensures not_stored { TaskRun store_docs (first_turn 1) (setup_of 0) [] (stores_docs (Failed 14)) (sized (codes "f") 2) [] Stored → ⊥ }
    ensures plain { TaskRun store_docs (first_turn 1) (setup_of 0) [] (asks (Transfer true (codes "WORM-s2--a") (codes "f")) (Done 14) ∷ []) (sized (codes "f") 2) [] Stored → ⊥ }
    ensures twice { TaskRun store_docs (first_turn 1) (setup_of 0) [] (stores_docs (Done 14) ++ stores_docs (Done 19)) (sized (codes "f") 2) [] Stored → ⊥ }
    ensures too_long { TaskRun store_docs (first_turn 1) (setup_of 0) [] (stores_docs (Done 14)) (sized (codes "f") 3) [] Stored → ⊥ }
    ensures unsized_file { TaskRun store_docs (first_turn 1) (setup_of 0) [] (stores_docs (Done 14)) [] [] Stored → ⊥ }
{}

/// A check, a drop and a new name are one request each, and no call.
pub fn export_name_runs()
    ensures present { TaskRun (docs_task XCheck) (first_turn 1) (setup_of 0) [] (checks_docs (Done 14)) [] [] Present }
    ensures absent { TaskRun (docs_task XCheck) (first_turn 1) (setup_of 0) [] (checks_docs (Absent 14)) [] [] AbsentAnswer }
    ensures unknown { TaskRun (docs_task XCheck) (first_turn 1) (setup_of 0) [] (checks_docs (Unknown 14)) [] [] (UnknownAnswer 14) }
    ensures dropped { TaskRun (docs_task XDrop) (first_turn 1) (setup_of 0) [] (drops_docs (Done 14)) [] [] Dropped }
    ensures renamed { TaskRun rename_docs (first_turn 1) (setup_of 0) [] (renames_docs (codes "b") (Done 14)) [] [] Renamed }
    ensures failed { TaskRun rename_docs (first_turn 1) (setup_of 0) [] (renames_docs (codes "b") (Failed 14)) [] [] (FailedAnswer 14) }
    ensures not_present { TaskRun (docs_task XCheck) (first_turn 1) (setup_of 0) [] (checks_docs (Absent 14)) [] [] Present → ⊥ }
    ensures unasked { TaskRun (docs_task XDrop) (first_turn 1) (setup_of 0) [] [] [] [] Dropped → ⊥ }
    ensures other_request { TaskRun (docs_task XDrop) (first_turn 1) (setup_of 0) [] (checks_docs (Done 14)) [] [] Dropped → ⊥ }
    ensures other_onto { TaskRun rename_docs (first_turn 1) (setup_of 0) [] (renames_docs (codes "c") (Done 14)) [] [] Renamed → ⊥ }
    ensures looked { TaskRun (docs_task XDrop) (first_turn 1) (setup_of 0) [] (drops_docs (Done 14)) (sized (codes "f") 2) [] Dropped → ⊥ }
{}

/// A get fetches into a file of the task's own, after the name, moves that to part, and renames part where what was read fits the key.
pub fn export_get_runs()
    ensures wrong_length { TaskRun get_docs (first_turn 1) (setup_of 0) [] (gets_docs (Done 14)) (sized fetched_1 2 ++ part_gone) [] (SizeAnswer 2) }
    ensures failed { TaskRun get_docs (first_turn 1) (setup_of 0) [] (gets_docs (Failed 14)) [] [] (FailedAnswer 14) }
    ensures memory { TaskRun get_docs (first_turn 1) (setup_of 0) [] (gets_docs (Done 14)) (got_abc (codes "abc")) [] Memory }
    ensures nameless { TaskRun get_docs (first_turn 1) (setup_of 0) []
        (asks (Transferexport false (codes "WORM-s3--a") fetched_1) (Done 14) ∷ []) (sized fetched_1 2 ++ part_gone) [] (SizeAnswer 2) → ⊥ }
    ensures plain { TaskRun get_docs (first_turn 1) (setup_of 0) [] (asks (Transfer false (codes "WORM-s3--a") fetched_1) (Done 14) ∷ []) (sized fetched_1 2 ++ part_gone) [] (SizeAnswer 2) → ⊥ }
    ensures part_stays { TaskRun get_docs (first_turn 1) (setup_of 0) [] (gets_docs (Done 14)) (sized fetched_1 2) [] (SizeAnswer 2) → ⊥ }
    ensures unasked { TaskRun get_docs (first_turn 1) (setup_of 0) [] [] (got_abc (codes "abc") ++ renamed) [] Got → ⊥ }
    ensures never_sized { TaskRun get_docs (first_turn 1) (setup_of 0) [] (gets_docs (Done 14)) (drop 1 (got_abc (codes "abc")) ++ renamed) [] Got → ⊥ }
    ensures never_renamed { TaskRun get_docs (first_turn 1) (setup_of 0) [] (gets_docs (Done 14)) (got_abc (codes "abc")) [] Got → ⊥ }
    ensures other_size { TaskRun get_docs (first_turn 1) (setup_of 0) [] (gets_docs (Done 14)) (got_abc (codes "ab") ++ renamed) [] Got → ⊥ }
{}
