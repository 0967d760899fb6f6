// Laws over the definitions, each the contract of a function with nothing to do.
ghost use Rattle.std.specs.Prelude.{◌≡◌, ℕ, ◌++◌, ◌∷◌, [], List, Some, None, codes};
ghost use Rattle.registers.specs.Registers.{nothing_set, config_of};
ghost use Rattle.cli_words.specs.Rows.{braced_uuid, init_words, least_run, plain_uuid, rehearse_words, run_words, sample_uuid, upper_uuid, world_words};
ghost use Rattle.cli_words.specs.Settings.{set_all, settings_in};
ghost use Rattle.cli_words.specs.Values.{number_in, uuid_in, IsNumberIn};
ghost use Rattle.cli_words.specs.Words.{command_of};
ghost use Rattle.cli_words.specs.declared.command.Command.TheVariants.{Audit, Check, Info, Init, Recover, Rehearse, Run, Show, Walk};
ghost use Rattle.cli_words.specs.declared.command.Page.TheVariants.{Overview, Version, Check as CheckPage, Run as RunPage, Audit as AuditPage, Recover as RecoverPage, Rehearse as RehearsePage};

/// The words of `check`, `info` and `audit`.
pub fn worked_words()
    ensures check { command_of (codes "check" ∷ codes "p" ∷ codes "k" ∷ []) ≡ Some (Check (codes "p") (codes "k")) }
    ensures any_key { command_of (codes "check" ∷ codes "p" ∷ codes "not a key" ∷ []) ≡ Some (Check (codes "p") (codes "not a key")) }
    ensures no_key { command_of (codes "check" ∷ codes "p" ∷ []) ≡ None }
    ensures empty_key { command_of (codes "check" ∷ codes "p" ∷ [] ∷ []) ≡ None }
    ensures two_lines { command_of (codes "check" ∷ codes "p" ∷ (codes "a" ++ 10 ∷ codes "b") ∷ []) ≡ None }
    ensures three { command_of (codes "check" ∷ codes "p" ∷ codes "k" ∷ codes "l" ∷ []) ≡ None }
    ensures info { command_of (codes "info" ∷ codes "p" ∷ []) ≡ Some (Info (codes "p") None) }
    ensures info_key { command_of (codes "info" ∷ codes "p" ∷ codes "k" ∷ []) ≡ Some (Info (codes "p") (Some (codes "k"))) }
    ensures nothing { command_of [] ≡ None }
    ensures alone { command_of (codes "info" ∷ []) ≡ None }
    ensures audit { command_of (codes "audit" ∷ []) ≡ Some Audit }
    ensures audit_of { command_of (codes "audit" ∷ codes "f" ∷ []) ≡ None }
    ensures other { command_of (codes "chek" ∷ codes "p" ∷ codes "k" ∷ []) ≡ None }
{}

/// The words of `recover`.
pub fn worked_recoveries()
    ensures journal { command_of (codes "recover" ∷ codes "j" ∷ []) ≡ Some (Recover (codes "j") None) }
    ensures keep { command_of (codes "recover" ∷ codes "j" ∷ codes "k" ∷ []) ≡ Some (Recover (codes "j") (Some (codes "k"))) }
    ensures three { command_of (codes "recover" ∷ codes "j" ∷ codes "k" ∷ codes "l" ∷ []) ≡ None }
    ensures empty { command_of (codes "recover" ∷ [] ∷ []) ≡ None }
    ensures empty_keep { command_of (codes "recover" ∷ codes "j" ∷ [] ∷ []) ≡ None }
    ensures two_lines { command_of (codes "recover" ∷ codes "j" ∷ (codes "a" ++ 10 ∷ codes "b") ∷ []) ≡ None }
    ensures alone { command_of (codes "recover" ∷ []) ≡ None }
    ensures help { command_of (codes "recover" ∷ codes "--help" ∷ []) ≡ Some (Show RecoverPage) }
    ensures second { command_of (codes "recover" ∷ codes "j" ∷ codes "--help" ∷ []) ≡ None }
{}

/// The words of `rehearse`.
pub fn worked_rehearsals()
    ensures least { command_of (rehearse_words (codes "0") (codes "1")) ≡ Some (Rehearse 0 1) }
    ensures most { command_of (rehearse_words (codes "4294967295") (codes "65536")) ≡ Some (Rehearse 4294967295 65536) }
    ensures zeros { command_of (rehearse_words (codes "007") (codes "00000000000000002000")) ≡ Some (Rehearse 7 2000) }
    ensures greater_seed { command_of (rehearse_words (codes "4294967296") (codes "1")) ≡ None }
    ensures no_tasks { command_of (rehearse_words (codes "1") (codes "0")) ≡ None }
    ensures more_tasks { command_of (rehearse_words (codes "1") (codes "65537")) ≡ None }
    ensures long { command_of (rehearse_words (codes "000000000000000000001") (codes "1")) ≡ None }
    ensures sign { command_of (rehearse_words (codes "+1") (codes "1")) ≡ None }
    ensures seed_alone { command_of (codes "rehearse" ∷ codes "1" ∷ []) ≡ None }
    ensures three { command_of (codes "rehearse" ∷ codes "1" ∷ codes "8" ∷ codes "9" ∷ []) ≡ None }
    ensures world { command_of (world_words (codes "1") (codes "8")) ≡ Some (Walk 1 8) }
    ensures no_tasks_of_world { command_of (world_words (codes "1") (codes "0")) ≡ None }
    ensures word_first { command_of (codes "rehearse" ∷ codes "world" ∷ codes "1" ∷ codes "8" ∷ []) ≡ None }
    ensures four { command_of (codes "rehearse" ∷ codes "1" ∷ codes "8" ∷ codes "world" ∷ codes "world" ∷ []) ≡ None }
    ensures alone { command_of (codes "rehearse" ∷ []) ≡ None }
    ensures help { command_of (codes "rehearse" ∷ codes "--help" ∷ []) ≡ Some (Show RehearsePage) }
{}

/// A request for a text is the only word, or the only one after a command's name; elsewhere it is out of the grammar.
pub fn worked_requests()
    ensures help { command_of (codes "--help" ∷ []) ≡ Some (Show Overview) }
    ensures version { command_of (codes "--version" ∷ []) ≡ Some (Show Version) }
    ensures check { command_of (codes "check" ∷ codes "--help" ∷ []) ≡ Some (Show CheckPage) }
    ensures run { command_of (codes "run" ∷ codes "--help" ∷ []) ≡ Some (Show RunPage) }
    ensures audit { command_of (codes "audit" ∷ codes "--help" ∷ []) ≡ Some (Show AuditPage) }
    ensures second { command_of (codes "check" ∷ codes "--help" ∷ codes "k" ∷ []) ≡ None }
    ensures third { command_of (codes "info" ∷ codes "p" ∷ codes "--help" ∷ []) ≡ None }
    ensures of_check { command_of (codes "info" ∷ codes "--version" ∷ []) ≡ None }
    ensures of_other { command_of (codes "chek" ∷ codes "--help" ∷ []) ≡ None }
    ensures twice { command_of (codes "--help" ∷ codes "--help" ∷ []) ≡ None }
{}

/// A number among the words is a numeral without a sign or leading zeros, from one number to another.
pub fn numbers_are_numerals()
    ensures read { (least most n : ℕ) (text : List ℕ) → number_in least most text ≡ Some n → IsNumberIn least most text n }
    ensures given { (least most n : ℕ) (text : List ℕ) → IsNumberIn least most text n → number_in least most text ≡ Some n }
{}

/// A UUID is kept in lower case with hyphens, however it was written.
#[tactic(auto, unfolding(uuid::proofs::OnLiterals::uuid_on_literals))]
pub fn worked_uuids()
    ensures same { uuid_in sample_uuid ≡ Some sample_uuid }
    ensures upper { uuid_in upper_uuid ≡ Some sample_uuid }
    ensures plain { uuid_in plain_uuid ≡ Some sample_uuid }
    ensures braced { uuid_in braced_uuid ≡ Some sample_uuid }
    ensures short { uuid_in (codes "01234567") ≡ None }
{}

/// The words of `init`: a setting's name ends at the first `=`, isn't empty and holds no space.
#[tactic(auto, unfolding(uuid::proofs::OnLiterals::uuid_on_literals))]
pub fn worked_settings()
    ensures none { command_of (init_words []) ≡ Some (Init (record { program = codes "p"; uuid = sample_uuid; keep = codes "keep"; settings = [] })) }
    ensures two { settings_in (codes "a=b=c" ∷ codes "d=" ∷ []) ≡ Some (record { name = codes "a"; value = codes "b=c" } ∷ record { name = codes "d"; value = [] } ∷ []) }
    ensures spaces { settings_in (codes "a=b c" ∷ []) ≡ Some (record { name = codes "a"; value = codes "b c" } ∷ []) }
    ensures no_name { settings_in (codes "=x" ∷ []) ≡ None }
    ensures space { settings_in (codes "a b=c" ∷ []) ≡ None }
    ensures no_equals { settings_in (codes "a" ∷ []) ≡ None }
    ensures one_of_two { settings_in (codes "a=b" ∷ codes "c" ∷ []) ≡ None }
    ensures later { config_of (set_all nothing_set (record { name = codes "a"; value = codes "1" } ∷ record { name = codes "a"; value = codes "2" } ∷ [])) (codes "a") ≡ codes "2" }
    ensures refused { command_of (init_words (codes "=x" ∷ [])) ≡ None }
    ensures no_uuid { command_of (codes "init" ∷ codes "p" ∷ codes "u" ∷ codes "keep" ∷ []) ≡ None }
{}

/// The words of `run`.
#[tactic(auto, unfolding(clap::proofs::OnLiterals::clap_on_literals, uuid::proofs::OnLiterals::uuid_on_literals, crate::specs::Words::run_of))]
pub fn worked_runs()
    ensures least { command_of (run_words []) ≡ Some (Run least_run) }
    ensures jobs { command_of (run_words (codes "--jobs" ∷ codes "64" ∷ [])) ≡ Some (Run (record least_run { jobs = 64 })) }
    ensures jobs_in_one { command_of (run_words (codes "--jobs=1" ∷ [])) ≡ Some (Run (record least_run { jobs = 1 })) }
    ensures no_jobs { command_of (run_words (codes "--jobs" ∷ codes "0" ∷ [])) ≡ None }
    ensures more_jobs { command_of (run_words (codes "--jobs" ∷ codes "65" ∷ [])) ≡ None }
    ensures zero_before { command_of (run_words (codes "--jobs" ∷ codes "04" ∷ [])) ≡ None }
    ensures plus { command_of (run_words (codes "--jobs" ∷ codes "+4" ∷ [])) ≡ None }
    ensures twice { command_of (run_words (codes "--jobs" ∷ codes "4" ∷ codes "--jobs" ∷ codes "4" ∷ [])) ≡ None }
    ensures no_chunks { command_of (run_words (codes "--chunk" ∷ codes "0" ∷ [])) ≡ Some (Run least_run) }
    ensures chunks { command_of (run_words (codes "--chunk" ∷ codes "1" ∷ [])) ≡ Some (Run (record least_run { chunk = 1 })) }
    ensures most_chunk { command_of (run_words (codes "--chunk" ∷ codes "1099511627776" ∷ [])) ≡ Some (Run (record least_run { chunk = 1099511627776 })) }
    ensures larger_chunk { command_of (run_words (codes "--chunk" ∷ codes "1099511627777" ∷ [])) ≡ None }
    ensures keep { command_of (run_words (codes "--keep" ∷ codes "f" ∷ [])) ≡ Some (Run (record least_run { keep = Some (codes "f") })) }
    ensures empty_keep { command_of (run_words (codes "--keep=" ∷ [])) ≡ None }
    ensures dash { command_of (run_words (codes "--work" ∷ codes "-x" ∷ [])) ≡ None }
    ensures dash_in_one { command_of (run_words (codes "--work=-x" ∷ [])) ≡ Some (Run (record least_run { work = codes "-x" })) }
    ensures starts { command_of (run_words (codes "--starts" ∷ codes "16" ∷ [])) ≡ Some (Run (record least_run { starts = 16 })) }
    ensures more_starts { command_of (run_words (codes "--starts" ∷ codes "17" ∷ [])) ≡ None }
    ensures again { command_of (run_words (codes "--again" ∷ codes "8" ∷ [])) ≡ Some (Run (record least_run { again = 8 })) }
    ensures never_again { command_of (run_words (codes "--again" ∷ codes "0" ∷ [])) ≡ Some (Run least_run) }
    ensures more_often { command_of (run_words (codes "--again" ∷ codes "9" ∷ [])) ≡ None }
    ensures journal { command_of (run_words (codes "--journal" ∷ codes "f" ∷ [])) ≡ Some (Run (record least_run { journal = Some (codes "f") })) }
    ensures empty_journal { command_of (run_words (codes "--journal=" ∷ [])) ≡ None }
    ensures unknown { command_of (run_words (codes "--kept" ∷ codes "f" ∷ [])) ≡ None }
    ensures positional { command_of (run_words (codes "x" ∷ [])) ≡ None }
    ensures help { command_of (run_words (codes "--help" ∷ [])) ≡ None }
    ensures no_program { command_of (codes "run" ∷ codes "--uuid" ∷ sample_uuid ∷ []) ≡ None }
    ensures no_uuid { command_of (codes "run" ∷ codes "--program" ∷ codes "p" ∷ []) ≡ None }
{}
