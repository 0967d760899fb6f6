// What a legal journal means for each job. Each law is the contract of a function with nothing to do.
ghost use Rattle.std.specs.Prelude.{◌≡◌, [], ◌∷◌, ◌++◌, Some, None, true, false, codes};
ghost use Rattle.annex_model.specs.Messages.{Prepare, Initremote, Listconfigs};
ghost use Rattle.kit_serve.specs.declared.kit.call.Asked.TheVariants.{Prepare as AskPrepare, Check};
ghost use Rattle.kit_serve.specs.declared.kit.call.Said.TheVariants.{Yes, No};
ghost use Rattle.kit_async_model.specs.declared.entry.Entry.TheVariants.{Heard, Take};
ghost use Rattle.kit_async_model.specs.Meanings.{Told, Says, Calls, stays_open, job_items, IsMeant, JobsAreMeant};
ghost use Rattle.kit_async_model.specs.Rows.{two, bare, known, version, tagging, ready, check_a, check_b};
ghost use Rattle.kit_async_model.specs.Standings.{standing};
ghost use Rattle.kit_async_model.specs.Meaning.Belonging.{EachBelongs};
ghost use Rattle.kit_async_model.specs.Meaning.Rows.{check, asked, checks, absent, overlapping, told, prepares, success, readied, unexpected, unprepared, prepared, initializing, setting, initialized, configs_told};

/// Each job of a legal journal is as a kit that serves one job at a time would serve it: a settled one whole, an open one so far.
pub fn jobs_are_meant()
    ensures { JobsAreMeant }
{}

/// Each line that is said and each call is of an open job, but for the kit's first line and its last words.
pub fn each_belongs()
    ensures { EachBelongs }
{}

/// What the items of a job are, and whether it is open at their end.
pub fn worked_items()
    ensures checked { job_items two ready (codes "J 2 CHECKPRESENT WORM--a") 2 overlapping ≡ asked ∷ checks 0 No ∷ absent ∷ [] }
    ensures settled { stays_open two (standing two (ready ++ check_a ∷ [])) 2 overlapping ≡ false }
    ensures waiting { stays_open two (standing two (ready ++ check_a ∷ [])) 2 (check_b ∷ Take 2 0 ∷ []) ≡ true }
    ensures readied { job_items two tagging (codes "J 1 PREPARE") 1 readied ≡ told ++ prepares 0 Yes ∷ prepares 1 Yes ∷ success ∷ [] }
    ensures number_again { job_items two ready (codes "J 2 CHECKPRESENT WORM--a") 2 (overlapping ++ Heard (codes "J 2 GETCOST") ∷ []) ≡ asked ∷ checks 0 No ∷ absent ∷ [] }
    ensures last_words { job_items two (version ∷ []) (codes "PREPARE") 0 unexpected ≡ Told (Some Prepare) ∷ Says (codes "GETCONFIG directory") ∷ [] }
{}

/// What the items of a check may be: of an open job where the first word is true, else of a settled one.
pub fn worked_checks()
    ensures whole { IsMeant false two prepared check (asked ∷ checks 0 No ∷ absent ∷ []) }
    ensures begun { IsMeant true two prepared check (asked ∷ []) }
    ensures no_final { IsMeant false two prepared check (asked ∷ checks 0 No ∷ []) → ⊥ }
    ensures two_calls { IsMeant true two prepared check (asked ∷ checks 0 No ∷ checks 0 No ∷ []) → ⊥ }
    ensures no_call { IsMeant true two prepared check (asked ∷ absent ∷ []) → ⊥ }
    ensures another_word { IsMeant true two prepared check (asked ∷ checks 0 Yes ∷ absent ∷ []) → ⊥ }
    ensures third_remote { IsMeant true two prepared check (asked ∷ checks 2 No ∷ []) → ⊥ }
{}

/// What the items of PREPARE may be.
pub fn worked_preparing()
    ensures whole { IsMeant false two unprepared (Some Prepare) (told ++ prepares 0 Yes ∷ prepares 1 Yes ∷ success ∷ []) }
    ensures one_of_two { IsMeant true two unprepared (Some Prepare) (told ++ prepares 0 Yes ∷ success ∷ []) → ⊥ }
    ensures call_first { IsMeant true two unprepared (Some Prepare) (prepares 0 Yes ∷ told) → ⊥ }
    ensures before_the_value { IsMeant true two unprepared (Some Prepare) (Told (Some Prepare) ∷ prepares 0 Yes ∷ []) → ⊥ }
    ensures second_first { IsMeant true two unprepared (Some Prepare) (told ++ prepares 1 Yes ∷ []) → ⊥ }
    ensures after_a_no { IsMeant true two unprepared (Some Prepare) (told ++ prepares 0 No ∷ prepares 1 Yes ∷ []) → ⊥ }
    ensures third_remote { IsMeant true two unprepared (Some Prepare) (told ++ prepares 0 Yes ∷ prepares 1 Yes ∷ prepares 2 Yes ∷ []) → ⊥ }
{}

/// What a remote may be called for: the request's key, and the values that were told.
pub fn worked_arguments()
    ensures another_key { IsMeant true two prepared check (asked ∷ Calls 0 (Some (Check (codes "WORM--b"))) No ∷ []) → ⊥ }
    ensures another_value { IsMeant true two unprepared (Some Prepare) (told ++ Calls 0 (Some (AskPrepare (codes "e" ∷ []))) Yes ∷ []) → ⊥ }
    ensures no_value { IsMeant true two unprepared (Some Prepare) (told ++ Calls 0 (Some (AskPrepare [])) Yes ∷ []) → ⊥ }
{}

/// What the items of INITREMOTE may be where the remote sets a setting.
pub fn worked_settings()
    ensures whole { IsMeant false bare unprepared (Some Initremote) (initializing ++ setting ∷ initialized ∷ []) }
    ensures left_out { IsMeant false bare unprepared (Some Initremote) (initializing ++ initialized ∷ []) → ⊥ }
    ensures told_last { IsMeant true bare unprepared (Some Initremote) (initializing ++ initialized ∷ setting ∷ []) → ⊥ }
{}

/// What the items of a request about the remotes may be, and of a line that spells no message.
pub fn worked_abouts()
    ensures whole { IsMeant false known unprepared (Some Listconfigs) (Told (Some Listconfigs) ∷ configs_told) }
    ensures begun { IsMeant true known unprepared (Some Listconfigs) (Told (Some Listconfigs) ∷ Says (codes "CONFIG directory where files are kept") ∷ []) }
    ensures half { IsMeant false known unprepared (Some Listconfigs) (Told (Some Listconfigs) ∷ Says (codes "CONFIG directory where files are kept") ∷ []) → ⊥ }
    ensures end_first { IsMeant true known unprepared (Some Listconfigs) (Told (Some Listconfigs) ∷ Says (codes "CONFIGEND") ∷ []) → ⊥ }
    ensures of_an_unknown { IsMeant true two unprepared (Some Listconfigs) (Told (Some Listconfigs) ∷ configs_told) → ⊥ }
    ensures strange { IsMeant false known unprepared None (Told None ∷ Says (codes "UNSUPPORTED-REQUEST") ∷ []) }
    ensures strange_untold { IsMeant false two unprepared None (Told None ∷ Says (codes "UNSUPPORTED-REQUEST") ∷ []) }
    ensures strange_unanswered { IsMeant false two unprepared None (Told None ∷ []) → ⊥ }
{}
