// Laws over the definitions, each the contract of a function with nothing to do.
ghost use Rattle.std.specs.Prelude.{take, drop, ◌≡◌, ◌++◌, [], ◌∷◌, codes, Ok, Err, Some, None};
ghost use Rattle.journal_model.specs.declared.verdict.Why.TheVariants.{Eof};
ghost use Rattle.journal_model.specs.declared.verdict.Verdict.TheVariants.{Done, Failed, Ended};
ghost use Rattle.ann_outside.specs.declared.file_desk.DeskError.TheVariants.{Missing, Failed as CallFailed};
ghost use Rattle.ann_outside.specs.declared.file_desk.Call.TheVariants.{Size, Create};
ghost use Rattle.journal_model.specs.declared.answer.Answer.TheVariants.{Stored, Got, Present, Dropped, Absent as AbsentAnswer, FileFault, NoFile, Memory};
ghost use Rattle.journal_model.specs.declared.answer.Answer.TheVariants.{Failed as FailedAnswer, Ended as EndedAnswer, Size as SizeAnswer, Hash as HashAnswer};
ghost use Rattle.task_model.specs.Rows.{task_of, setup_of, first_turn, second_turn, asks, notes, store_a, stores_a, get_a, gets_a, store_hi, stores_hi, get_hi};
ghost use Rattle.task_model.specs.Rows.{sized, get_abc, fetched_1, gets_abc, got_abc, cut_abc, renamed, part_gone, get_own, got_own, got_away, store_ten};
ghost use Rattle.task_model.specs.Rows.{stores_ten, stored_ten, finds_ten, lost_ten, stored_short, cut_behind_filling, made_twice, stores_empty, stored_empty};
ghost use Rattle.task_model.specs.Rows.{never_made, empty_key, get_ten, gets_ten, resumed_ten, unread_ten, grown_on_nine, cut_behind_ten, half_read_ten};
ghost use Rattle.task_model.specs.Rows.{get_none, goes_on_ten, short_then_more, drop_ten, drops_ten, check_ten, checks_ten, abc, get_md5, gets_md5, resumed_foo};
ghost use Rattle.task_model.specs.Rows.{gets_whole_md5, fetched_foo, gets_hi, got_hi, gets_again, got_again};
ghost use Rattle.ann_key.specs.Keys.{Parts, key_reading};
ghost use Rattle.ann_digest.specs.Fits.{IsDigestFor, FitsKey};
ghost use Rattle.task_model.specs.Runs.{TaskRun};
ghost use Rattle.std.specs.Prelude.{true, false};
ghost use Rattle.task_text.specs.declared.task.Work.TheVariants.{Store};
ghost use Rattle.task_model.specs.RunLaws.{GotNeedsFit};
ghost use Rattle.task_model.specs.Reads.{holds, are_found_so};
ghost use Rattle.task_model.specs.Names.{chunk_file, fetch_file};
ghost use Rattle.task_model.specs.Askings.{desk_of};
ghost use Rattle.task_model.specs.StretchRows.{HasRun, dropped_twice, lost_answer, removes};
ghost use Rattle.journal_model.specs.Rows.{crossed};

use ann_digest::Digest;

/// A store whose request failed is answered so, and not as stored; nothing is made of it but the length of the file.
pub fn plain_store_runs()
    ensures failed { TaskRun store_a (first_turn 1) (setup_of 0) [] (stores_a (Failed 13)) (sized (codes "f") 2) [] (FailedAnswer 13) }
    ensures stored { TaskRun store_a (first_turn 1) (setup_of 0) [] (stores_a (Done 13)) (sized (codes "f") 2) [] Stored }
    ensures ended { TaskRun store_a (first_turn 1) (setup_of 0) [] (stores_a (Ended Eof)) (sized (codes "f") 2) [] (EndedAnswer Eof) }
    ensures missing { TaskRun store_a (first_turn 1) (setup_of 0) [] [] (Size (codes "f") (Err Missing) ∷ []) [] NoFile }
    ensures memory { TaskRun store_a (first_turn 1) (setup_of 0) [] [] (sized (codes "f") 2) [] Memory }
    ensures not_stored { TaskRun store_a (first_turn 1) (setup_of 0) [] (stores_a (Failed 13)) (sized (codes "f") 2) [] Stored → ⊥ }
    ensures not_failed { TaskRun store_a (first_turn 1) (setup_of 0) [] (stores_a (Done 13)) (sized (codes "f") 2) [] (FailedAnswer 13) → ⊥ }
    ensures unasked { TaskRun store_a (first_turn 1) (setup_of 0) [] [] (sized (codes "f") 2) [] Stored → ⊥ }
    ensures not_sized { TaskRun store_a (first_turn 1) (setup_of 0) [] (stores_a (Done 13)) [] [] Stored → ⊥ }
{}

/// Where the key has another size than the file nothing is asked.
pub fn wrong_size_runs()
    ensures size { TaskRun (task_of Store (codes "WORM-s4--a") (codes "f")) (first_turn 1) (setup_of 0) [] [] (sized (codes "f") 3) [] (SizeAnswer 3) }
    ensures other { TaskRun (task_of Store (codes "WORM-s4--a") (codes "f")) (first_turn 1) (setup_of 0) [] [] (sized (codes "f") 3) [] (SizeAnswer 4) → ⊥ }
    ensures stored { TaskRun (task_of Store (codes "WORM-s4--a") (codes "f")) (first_turn 1) (setup_of 0) [] [] (sized (codes "f") 3) [] Stored → ⊥ }
{}

/// A drop asks for the chunks and the key, and notes after the last chunk that there are none.
pub fn drop_runs()
    ensures dropped { TaskRun drop_ten (first_turn 1) (setup_of 0) ((4, 3) ∷ []) drops_ten [] (notes 4 0 3 ∷ []) Dropped }
    ensures memory { TaskRun drop_ten (first_turn 1) (setup_of 0) ((4, 3) ∷ []) (take 3 drops_ten) [] [] Memory }
    ensures other_count { TaskRun drop_ten (first_turn 1) (setup_of 0) ((4, 2) ∷ []) (drop 3 drops_ten) [] [] Dropped }
    ensures early { TaskRun drop_ten (first_turn 1) (setup_of 0) ((4, 3) ∷ []) (take 3 drops_ten) [] (notes 4 0 3 ∷ []) Dropped → ⊥ }
    ensures no_note { TaskRun drop_ten (first_turn 1) (setup_of 0) ((4, 3) ∷ []) drops_ten [] [] Dropped → ⊥ }
    ensures late_note { TaskRun drop_ten (first_turn 1) (setup_of 0) ((4, 3) ∷ []) drops_ten [] (notes 4 0 4 ∷ []) Dropped → ⊥ }
    ensures early_note { TaskRun drop_ten (first_turn 1) (setup_of 0) ((4, 3) ∷ []) (take 2 drops_ten) [] (notes 4 0 3 ∷ []) Memory → ⊥ }
    ensures skipped { TaskRun drop_ten (first_turn 1) (setup_of 0) ((4, 3) ∷ []) (drop 3 drops_ten) [] [] Dropped → ⊥ }
{}

/// A check goes on to the next layout after a key that isn't there.
pub fn check_runs()
    ensures absent { TaskRun check_ten (first_turn 1) (setup_of 0) ((4, 3) ∷ []) checks_ten [] [] AbsentAnswer }
    ensures present { TaskRun check_ten (first_turn 1) (setup_of 0) ((4, 3) ∷ []) finds_ten [] [] Present }
    ensures memory { TaskRun check_ten (first_turn 1) (setup_of 0) ((4, 3) ∷ []) (take 2 finds_ten) [] [] Memory }
    ensures early { TaskRun check_ten (first_turn 1) (setup_of 0) ((4, 3) ∷ []) (take 2 checks_ten) [] [] AbsentAnswer → ⊥ }
    ensures not_present { TaskRun check_ten (first_turn 1) (setup_of 0) ((4, 3) ∷ []) (take 2 finds_ten) [] [] Present → ⊥ }
    ensures not_absent { TaskRun check_ten (first_turn 1) (setup_of 0) ((4, 3) ∷ []) finds_ten [] [] AbsentAnswer → ⊥ }
    ensures past { TaskRun check_ten (first_turn 1) (setup_of 0) ((4, 3) ∷ []) (finds_ten ++ drop 2 checks_ten) [] [] Present → ⊥ }
{}

/// A store in chunks asks until a chunk isn't there, and stores that one and those after it from files of their own. It notes after the
/// last verdict that all are there.
pub fn chunk_store_runs()
    ensures stored { TaskRun store_ten (first_turn 1) (setup_of 4) [] stores_ten stored_ten (notes 4 3 4 ∷ []) Stored }
    ensures there { TaskRun store_ten (first_turn 1) (setup_of 4) [] finds_ten (sized (codes "f") 10) (notes 4 3 3 ∷ []) Stored }
    ensures empty { TaskRun (task_of Store empty_key (codes "f")) (first_turn 1) (setup_of 4) [] stores_empty stored_empty (notes 4 1 2 ∷ []) Stored }
    ensures short { TaskRun store_ten (first_turn 1) (setup_of 4) [] (take 2 stores_ten) stored_short [] (SizeAnswer 2) }
    ensures lost { TaskRun store_ten (first_turn 1) (setup_of 4) [] lost_ten (sized (codes "f") 10) [] (EndedAnswer Eof) }
    ensures early_note { TaskRun store_ten (first_turn 1) (setup_of 4) [] stores_ten stored_ten (notes 4 3 3 ∷ []) Stored → ⊥ }
    ensures no_note { TaskRun store_ten (first_turn 1) (setup_of 4) [] stores_ten stored_ten [] Stored → ⊥ }
    ensures unstored { TaskRun store_ten (first_turn 1) (setup_of 4) [] (take 3 stores_ten) (take 9 stored_ten) (notes 4 3 3 ∷ []) Stored → ⊥ }
    ensures not_removed { TaskRun store_ten (first_turn 1) (setup_of 4) [] stores_ten (take 12 stored_ten) (notes 4 3 4 ∷ []) Stored → ⊥ }
    ensures unread { TaskRun store_ten (first_turn 1) (setup_of 4) [] stores_ten (sized (codes "f") 10) (notes 4 3 4 ∷ []) Stored → ⊥ }
    ensures not_cut_short { TaskRun store_ten (first_turn 1) (setup_of 4) [] (take 1 finds_ten) (sized (codes "f") 10) [] (SizeAnswer 0) → ⊥ }
    ensures unread_short { TaskRun store_ten (first_turn 1) (setup_of 4) [] (take 2 stores_ten) (take 10 stored_ten) [] (SizeAnswer 4) → ⊥ }
    ensures unasked { TaskRun store_ten (first_turn 1) (setup_of 4) [] (drop 1 stores_ten) stored_ten (notes 4 3 3 ∷ []) Stored → ⊥ }
    ensures memory { TaskRun (task_of Store empty_key (codes "f")) (first_turn 1) (setup_of 4) [] stores_empty (take 2 stored_empty) [] Memory }
    ensures cut_behind_filling { TaskRun store_ten (first_turn 1) (setup_of 4) [] stores_ten cut_behind_filling (notes 4 3 4 ∷ []) Stored → ⊥ }
    ensures made_twice { TaskRun store_ten (first_turn 1) (setup_of 4) [] stores_ten made_twice (notes 4 3 4 ∷ []) Stored → ⊥ }
    ensures never_made { TaskRun (task_of Store empty_key (codes "f")) (first_turn 1) (setup_of 4) [] stores_empty never_made [] Memory → ⊥ }
{}

/// A get in the plain layout fetches into a file of the task's own, moves that to part, checks what was read, and renames part where it
/// fits.
pub fn plain_get_runs()
    ensures wrong_length { TaskRun get_abc (first_turn 1) (setup_of 0) [] (gets_abc (Done 13)) (sized fetched_1 2 ++ part_gone) [] (SizeAnswer 2) }
    ensures no_file { TaskRun get_abc (first_turn 1) (setup_of 0) [] (gets_abc (Done 13)) (Size fetched_1 (Err Missing) ∷ []) [] NoFile }
    ensures failed { TaskRun get_abc (first_turn 1) (setup_of 0) [] (gets_abc (Failed 13)) [] [] (FailedAnswer 13) }
    ensures fault { TaskRun get_abc (first_turn 1) (setup_of 0) [] (gets_abc (Done 13)) (Size fetched_1 (Err CallFailed) ∷ []) [] FileFault }
    ensures memory { TaskRun get_abc (first_turn 1) (setup_of 0) [] (gets_abc (Done 13)) (got_abc (codes "abc")) [] Memory }
    ensures not_failed { TaskRun get_abc (first_turn 1) (setup_of 0) [] (gets_abc (Done 13)) (got_abc (codes "abc") ++ renamed) [] (FailedAnswer 13) → ⊥ }
    ensures part_stays { TaskRun get_abc (first_turn 1) (setup_of 0) [] (gets_abc (Done 13)) (sized fetched_1 2) [] (SizeAnswer 2) → ⊥ }
    ensures unasked { TaskRun get_abc (first_turn 1) (setup_of 0) [] [] (got_abc (codes "abc") ++ renamed) [] Got → ⊥ }
    ensures never_sized { TaskRun get_abc (first_turn 1) (setup_of 0) [] (gets_abc (Done 13)) (drop 1 (got_abc (codes "abc")) ++ renamed) [] Got → ⊥ }
    ensures length_passed_over { TaskRun get_abc (first_turn 1) (setup_of 0) [] (gets_abc (Done 13)) (sized fetched_1 2 ++ drop 1 (got_abc (codes "abc")) ++ renamed) [] Got → ⊥ }
    ensures never_renamed { TaskRun get_abc (first_turn 1) (setup_of 0) [] (gets_abc (Done 13)) (got_abc (codes "abc")) [] Got → ⊥ }
    ensures never_looked_at { TaskRun get_a (first_turn 1) (setup_of 0) [] (gets_a (Done 13)) (Create (codes "o.part") (Ok tt) ∷ renamed) [] Got → ⊥ }
    ensures misses { TaskRun get_abc (first_turn 1) (setup_of 0) [] (gets_abc (Done 13)) (Size fetched_1 (Err Missing) ∷ []) [] Got → ⊥ }
    ensures not_absent { TaskRun get_abc (first_turn 1) (setup_of 0) [] (gets_abc (Done 13)) (Size fetched_1 (Err Missing) ∷ []) [] AbsentAnswer → ⊥ }
{}

/// What was checked decides a get: here of a key of a size alone.
pub fn fitting_runs()
    ensures got { TaskRun get_abc (first_turn 1) (setup_of 0) [] (gets_abc (Done 13)) (got_abc (codes "abc") ++ renamed) [] Got }
    ensures got_own { TaskRun get_own (first_turn 1) (setup_of 0) [] (gets_abc (Done 13)) got_own [] Got }
    ensures got_away { TaskRun get_own (first_turn 1) (setup_of 0) [] (gets_abc (Done 13)) got_away [] Got → ⊥ }
    ensures other_size { TaskRun get_abc (first_turn 1) (setup_of 0) [] (gets_abc (Done 13)) (got_abc (codes "ab") ++ renamed) [] Got → ⊥ }
    ensures half_fetched { TaskRun get_abc (first_turn 1) (setup_of 0) [] (gets_abc (Done 13)) (got_abc (codes "ab") ++ part_gone) [] (SizeAnswer 2) → ⊥ }
    ensures resumed { TaskRun get_ten (first_turn 1) (setup_of 0) ((4, 3) ∷ []) gets_ten resumed_ten [] Got }
    ensures stored_first { TaskRun store_hi (first_turn 1) (setup_of 0) [] (stores_hi (Done 13)) (sized (codes "f") 2) [] Stored }
    ensures got_then { TaskRun get_hi (first_turn 2) (setup_of 0) [] gets_hi got_hi [] Got }
    ensures got_as_other { TaskRun get_hi (first_turn 1) (setup_of 0) [] gets_hi got_hi [] Got → ⊥ }
    ensures got_again { TaskRun get_abc (second_turn 1) (setup_of 0) [] gets_again got_again [] Got }
    ensures other_turn { TaskRun get_abc (second_turn 1) (setup_of 0) [] (gets_abc (Done 13)) (got_abc (codes "abc") ++ renamed) [] Got → ⊥ }
    ensures not_looked_at { TaskRun get_ten (first_turn 1) (setup_of 0) ((4, 3) ∷ []) gets_ten unread_ten [] Got → ⊥ }
    ensures grown_on_nine { TaskRun get_ten (first_turn 1) (setup_of 0) ((4, 3) ∷ []) gets_ten grown_on_nine [] Got → ⊥ }
    ensures cut_behind_resumed { TaskRun get_ten (first_turn 1) (setup_of 0) ((4, 3) ∷ []) gets_ten cut_behind_ten [] Got → ⊥ }
    ensures cut_behind { TaskRun get_abc (first_turn 1) (setup_of 0) [] (gets_abc (Done 13)) (got_abc (codes "abc") ++ cut_abc ++ renamed) [] Got → ⊥ }
    ensures never_begun { TaskRun get_none (first_turn 1) (setup_of 0) ((4, 1) ∷ []) [] (Create (codes "o.part") (Ok tt) ∷ renamed) [] Got → ⊥ }
    ensures goes_on { TaskRun get_ten (first_turn 1) (setup_of 0) ((4, 3) ∷ []) goes_on_ten short_then_more [] (SizeAnswer 3) → ⊥ }
    ensures half_looked_at { TaskRun get_ten (first_turn 1) (setup_of 0) ((4, 3) ∷ []) gets_ten half_read_ten [] (SizeAnswer 6) → ⊥ }
    ensures not_asked { TaskRun get_ten (first_turn 1) (setup_of 0) ((4, 3) ∷ []) [] resumed_ten [] Got → ⊥ }
{}

/// The files of a task's requests say its turn, but in the first one.
pub fn turn_files()
    ensures fetched { fetch_file (setup_of 0) (first_turn 1) 2 ≡ codes "w/1700000000000000-1-2.fetch" }
    ensures fetched_again { fetch_file (setup_of 0) (second_turn 1) 2 ≡ codes "w/1700000000000000-1-2-2.fetch" }
    ensures chunk { chunk_file (setup_of 4) (first_turn 3) 10 ≡ codes "w/1700000000000000-3-10.chunk" }
    ensures chunk_again { chunk_file (setup_of 4) (second_turn 3) 10 ≡ codes "w/1700000000000000-3-10-2.chunk" }
    ensures last { fetch_file (setup_of 0) (record { task = 1; turn = 9 }) 1 ≡ codes "w/1700000000000000-1-1-9.fetch" }
{}

/// What part holds after such calls, and of which contents all that they found of it is so.
pub fn part_holds()
    ensures found { are_found_so (codes "o.part") (Some (codes "012345678")) resumed_ten ≡ true }
    ensures other_length { are_found_so (codes "o.part") (Some (codes "01234567")) resumed_ten ≡ false }
    ensures other_bytes { are_found_so (codes "o.part") (Some (codes "01234S678")) resumed_ten ≡ false }
    ensures resumed { holds (codes "o.part") (Some (codes "012345678")) resumed_ten ≡ Some (codes "0123456789") }
    ensures grown { holds (codes "o.part") (Some (codes "012345678")) grown_on_nine ≡ Some (codes "01234567889") }
    ensures cut_behind { holds (codes "o.part") (Some (codes "012345678")) cut_behind_ten ≡ Some (codes "012345678") }
    ensures made { holds (codes "o.part") None (got_abc (codes "abc")) ≡ Some (codes "abc") }
    ensures unknown { holds (codes "o.part") None resumed_ten ≡ None }
    ensures replaced { holds (codes "o") (Some []) renamed ≡ None }
{}

/// Where the bytes that part held and those that were fetched have another digest than the key, the answer is this digest and part is gone.
pub fn other_digest_runs(digest: Digest)
    requires digest { IsDigestFor (codes "MD5") (codes "foo") digest }
    requires other { (parts : Parts) → key_reading abc ≡ Some parts → ¬ FitsKey parts (codes "foo") }
    ensures plain { TaskRun get_md5 (first_turn 1) (setup_of 0) [] gets_whole_md5 fetched_foo [] (HashAnswer digest) }
    ensures kept { TaskRun get_md5 (first_turn 1) (setup_of 0) [] gets_whole_md5 fetched_foo [] Got → ⊥ }
    ensures hash { TaskRun get_md5 (first_turn 1) (setup_of 0) ((2, 2) ∷ []) gets_md5 resumed_foo [] (HashAnswer digest) }
{}

/// Got is answered by a get alone, in a layout or under a name, and only where all that was read fits the key.
pub fn got_needs_fit()
    ensures { GotNeedsFit }
{}

/// Each run of a task that is run twice has its own turn, requests, notes and answer. The main thread and the first worker use desk 1.
pub fn stretches()
    ensures first { HasRun dropped_twice 1 (removes (Ended Eof)) [] lost_answer (first_turn 1) false }
    ensures second { HasRun dropped_twice 1 (removes (Done 29)) (notes 4 0 1 ∷ []) Dropped (second_turn 1) true }
    ensures desks { (desk_of dropped_twice 0 1 ≡ 1) × (desk_of dropped_twice 1 1 ≡ 1) × (desk_of dropped_twice 3 1 ≡ 2) × (desk_of crossed 1 1 ≡ 1) × (desk_of crossed 5 1 ≡ 2) }
{}
