// Laws over the definitions, each the contract of a function with nothing to do.
ghost use Rattle.std.specs.Prelude.{◌≡◌, [], ◌∷◌, ◌++◌, codes, true, false};
ghost use Rattle.kit_serve.specs.declared.kit.call.Said.TheVariants.{Yes, No, Failure, Set};
ghost use Rattle.kit_async_model.specs.declared.entry.Entry.TheVariants.{Heard, Take, Call, Say, Wrote, Close, Lack};
ghost use Rattle.kit_async_model.specs.Laws.{FrontsAreLegal, OverIsLast, UnwrittenAre, StepsAreLegal, StepsAreMade};
ghost use Rattle.kit_async_model.specs.Legality.{is_legal, is_done};
ghost use Rattle.kit_async_model.specs.Rows.{two, bare, known, version, error, tagging, asking, readying, ready, check_a, check_b, absent_a, crossed, whole};
ghost use Rattle.kit_async_model.specs.Rows.{configs, first_config, last_config, info, kind_told, directory_told, info_end, unready, strange, unsupported};
ghost use Rattle.kit_async_model.specs.Rows.{initializing, setting_told, initialized, preparing, success};
ghost use Rattle.kit_async_model.specs.Rows.{names_of_two_jobs, asked_about_names, plain, plain_check, tagged_late};
ghost use Rattle.kit_async_model.specs.Standings.{standing};

/// Journals that a kit may have: two checks at once, answered in either order, and a host that tags no line.
pub fn worked_journals()
    ensures ready { is_legal two ready ≡ true }
    ensures crossed { is_legal two crossed ≡ true }
    ensures whole { is_legal two whole ≡ true }
    ensures plain { is_legal two (plain ++ plain_check ∷ Take 0 1 ∷ Call 0 1 (Failure (codes "no disk")) ∷ Say 0 (codes "CHECKPRESENT-UNKNOWN WORM--a no disk") ∷ []) ≡ true }
    ensures bare { is_legal bare (version ∷ Heard (codes "PREPARE") ∷ Call 0 0 No ∷ Say 0 (codes "PREPARE-FAILURE ") ∷ []) ≡ true }
    ensures written_late { is_legal two (Say 0 (codes "VERSION 1") ∷ Wrote ∷ Heard (codes "EXTENSIONS ASYNC") ∷ Say 0 (codes "EXTENSIONS ASYNC") ∷ Wrote ∷ []) ≡ true }
    ensures leading_zeros { is_legal two (tagging ++ Heard (codes "J 007 GETCOST") ∷ Say 7 (codes "J 7 UNSUPPORTED-REQUEST") ∷ []) ≡ true }
{}

/// When a remote may be called.
pub fn worked_calls()
    ensures before_its_request { is_legal two (ready ++ Call 2 0 No ∷ check_a ∷ []) ≡ false }
    ensures not_taken_up { is_legal two (ready ++ check_a ∷ Call 2 0 No ∷ []) ≡ false }
    ensures by_another { is_legal two (ready ++ check_a ∷ Take 2 0 ∷ Call 2 1 No ∷ []) ≡ false }
    ensures two_calls { is_legal two (ready ++ check_a ∷ Take 2 0 ∷ Call 2 0 No ∷ Call 2 0 Yes ∷ []) ≡ false }
    ensures taken_twice { is_legal two (ready ++ check_a ∷ Take 2 0 ∷ Take 2 1 ∷ []) ≡ false }
    ensures two_at_once { is_legal two (ready ++ check_a ∷ check_b ∷ Take 2 0 ∷ Take 3 0 ∷ []) ≡ false }
    ensures third_remote { is_legal two (ready ++ check_a ∷ Take 2 2 ∷ []) ≡ false }
{}

/// Requests on one key wait for each other, in the order in which they were heard.
pub fn worked_keys()
    ensures same_key { is_legal two (ready ++ check_a ∷ Heard (codes "J 3 REMOVE WORM--a") ∷ Take 2 0 ∷ Take 3 1 ∷ []) ≡ false }
    ensures later_first { is_legal two (ready ++ check_a ∷ Heard (codes "J 3 REMOVE WORM--a") ∷ Take 3 1 ∷ []) ≡ false }
    ensures earlier_settled { is_legal two (ready ++ check_a ∷ Heard (codes "J 3 REMOVE WORM--a") ∷ Take 2 0 ∷ Call 2 0 No ∷ absent_a ∷ Take 3 1 ∷ []) ≡ true }
    ensures called_and_unsaid { is_legal two (ready ++ check_a ∷ Heard (codes "J 3 REMOVE WORM--a") ∷ Take 2 0 ∷ Call 2 0 No ∷ Take 3 1 ∷ []) ≡ false }
{}

/// What may be said.
pub fn worked_answers()
    ensures without_a_call { is_legal two (ready ++ check_a ∷ absent_a ∷ []) ≡ false }
    ensures another_word { is_legal two (ready ++ check_a ∷ Take 2 0 ∷ Call 2 0 Yes ∷ absent_a ∷ []) ≡ false }
    ensures another_tag { is_legal two (ready ++ check_a ∷ Take 2 0 ∷ Call 2 0 No ∷ Say 2 (codes "J 3 CHECKPRESENT-FAILURE WORM--a") ∷ []) ≡ false }
    ensures no_tag { is_legal two (ready ++ check_a ∷ Take 2 0 ∷ Call 2 0 No ∷ Say 2 (codes "CHECKPRESENT-FAILURE WORM--a") ∷ []) ≡ false }
    ensures zeros_in_tag { is_legal two (ready ++ check_a ∷ Take 2 0 ∷ Call 2 0 No ∷ Say 2 (codes "J 02 CHECKPRESENT-FAILURE WORM--a") ∷ []) ≡ false }
    ensures another_key { is_legal two (ready ++ check_a ∷ Take 2 0 ∷ Call 2 0 No ∷ Say 2 (codes "J 2 CHECKPRESENT-FAILURE WORM--b") ∷ []) ≡ false }
    ensures said_twice { is_legal two (crossed ++ absent_a ∷ []) ≡ false }
{}

/// Getting ready: each remote in its turn, and no line between the last value and the answer.
pub fn worked_preparing()
    ensures heard_between { is_legal two (readying ++ Call 1 0 Yes ∷ check_a ∷ []) ≡ false }
    ensures heard_at_once { is_legal two (readying ++ check_a ∷ []) ≡ false }
    ensures heard_while_it_waits { is_legal two (asking ++ check_a ∷ Say 2 (codes "J 2 CHECKPRESENT-UNKNOWN WORM--a not prepared") ∷ []) ≡ true }
    ensures before_the_value { is_legal two (asking ++ Call 1 0 Yes ∷ []) ≡ false }
    ensures second_first { is_legal two (readying ++ Call 1 1 Yes ∷ []) ≡ false }
    ensures one_of_two { is_legal two (readying ++ Call 1 0 Yes ∷ Say 1 (codes "J 1 PREPARE-SUCCESS") ∷ []) ≡ false }
    ensures after_a_no { is_legal two (readying ++ Call 1 0 No ∷ Call 1 1 Yes ∷ []) ≡ false }
    ensures first_says_no { is_legal two (readying ++ Call 1 0 (Failure (codes "no directory")) ∷ Say 1 (codes "J 1 PREPARE-FAILURE no directory") ∷ []) ≡ true }
{}

/// A setting that a remote sets is told before the answer to INITREMOTE. To another request that word is a Yes.
pub fn worked_settings()
    ensures told_first { is_legal bare (initializing ++ setting_told ∷ initialized ∷ []) ≡ true }
    ensures told_last { is_legal bare (initializing ++ initialized ∷ setting_told ∷ []) ≡ false }
    ensures left_out { is_legal bare (initializing ++ initialized ∷ []) ≡ false }
    ensures told_alone { is_legal bare (initializing ++ setting_told ∷ Wrote ∷ []) ≡ false }
    ensures prepared { is_legal bare (preparing ++ success ∷ []) ≡ true }
    ensures told_to_prepare { is_legal bare (preparing ++ setting_told ∷ success ∷ []) ≡ false }
    ensures no_word { is_legal bare (version ∷ Heard (codes "INITREMOTE") ∷ Call 0 0 (Set (record { name = codes "a b"; text = [] } ∷ [])) ∷ []) ≡ false }
{}

/// What isn't expected, and is answered by an error; and what isn't answered.
pub fn worked_errors()
    ensures number_again { is_legal two (ready ++ check_a ∷ Heard (codes "J 2 GETCOST") ∷ error ∷ []) ≡ true }
    ensures number_again_answered { is_legal two (ready ++ check_a ∷ Heard (codes "J 2 GETCOST") ∷ Say 2 (codes "J 2 UNSUPPORTED-REQUEST") ∷ []) ≡ false }
    ensures number_once_settled { is_legal two (crossed ++ Heard (codes "J 2 GETCOST") ∷ Say 2 (codes "J 2 UNSUPPORTED-REQUEST") ∷ []) ≡ true }
    ensures value_for_nobody { is_legal two (tagging ++ Heard (codes "J 5 VALUE x") ∷ error ∷ []) ≡ true }
    ensures error_is_owed { is_legal two (tagging ++ Heard (codes "J 5 VALUE x") ∷ Wrote ∷ error ∷ []) ≡ false }
    ensures error_for_nothing { is_legal two (ready ++ check_a ∷ error ∷ []) ≡ false }
    ensures prepare_beside_a_request { is_legal two (ready ++ check_a ∷ Heard (codes "J 3 PREPARE") ∷ error ∷ []) ≡ true }
{}

/// What is heard after what ended it, and lines that end it with no word.
pub fn worked_ends()
    ensures heard_after { is_legal two (tagging ++ Heard (codes "J 5 VALUE x") ∷ error ∷ check_a ∷ []) ≡ false }
    ensures said_after { is_legal two (ready ++ check_a ∷ Take 2 0 ∷ Heard (codes "J 5 VALUE x") ∷ error ∷ Call 2 0 No ∷ absent_a ∷ []) ≡ false }
    ensures called_after { is_legal two (ready ++ check_a ∷ Take 2 0 ∷ Heard (codes "J 5 VALUE x") ∷ error ∷ Call 2 0 No ∷ []) ≡ true }
    ensures taken_after { is_legal two (ready ++ check_a ∷ Heard (codes "J 5 VALUE x") ∷ error ∷ Take 2 0 ∷ []) ≡ false }
    ensures no_tag { is_legal two (tagging ++ Heard (codes "GETCOST") ∷ Say 0 (codes "UNSUPPORTED-REQUEST") ∷ []) ≡ false }
    ensures tag_zero { (standing two (tagging ++ Heard (codes "J 0 GETCOST") ∷ [])).over ≡ true }
    ensures host_error { (standing two (tagging ++ Heard (codes "J 1 ERROR no") ∷ [])).over ≡ true }
{}

/// EXPORT asks for nothing, and a request about the name isn't known. Without tags a request is answered before the next is heard.
pub fn worked_asides()
    ensures export { is_legal two (ready ++ check_a ∷ Heard (codes "J 3 EXPORT a b") ∷ Take 2 0 ∷ Call 2 0 No ∷ absent_a ∷ []) ≡ true }
    ensures export_answered { is_legal two (ready ++ Heard (codes "J 3 EXPORT a b") ∷ Say 3 (codes "J 3 UNSUPPORTED-REQUEST") ∷ []) ≡ false }
    ensures exported { is_legal two (ready ++ Heard (codes "J 3 EXPORT a b") ∷ Heard (codes "J 3 TRANSFEREXPORT STORE WORM--a f") ∷ Say 3 (codes "J 3 UNSUPPORTED-REQUEST") ∷ []) ≡ true }
    ensures exports_of_two_jobs { is_legal two names_of_two_jobs ≡ true }
    ensures export_questions { is_legal two asked_about_names ≡ true }
    ensures export_worked { is_legal two (ready ++ Heard (codes "J 3 EXPORT a") ∷ Heard (codes "J 3 CHECKPRESENTEXPORT WORM--a") ∷ Take 3 0 ∷ []) ≡ false }
    ensures export_for_a_value { is_legal two (asking ++ Heard (codes "J 1 EXPORT a b") ∷ error ∷ []) ≡ true }
    ensures plain_waits { is_legal two (plain ++ plain_check ∷ Heard (codes "GETCOST") ∷ []) ≡ false }
    ensures late_tags { is_legal two tagged_late ≡ true }
{}

/// Requests about the remotes: all lines of an answer in their order, and nothing between them.
pub fn worked_abouts()
    ensures whole { is_legal known (ready ++ configs ∷ first_config ∷ last_config ∷ check_a ∷ []) ≡ true }
    ensures half { is_legal known (ready ++ configs ∷ first_config ∷ check_a ∷ []) ≡ false }
    ensures asked_again { is_legal known (ready ++ configs ∷ first_config ∷ last_config ∷ configs ∷ first_config ∷ last_config ∷ []) ≡ true }
    ensures half_twice { is_legal known (ready ++ configs ∷ first_config ∷ configs ∷ error ∷ []) ≡ false }
    ensures wrong_order { is_legal known (ready ++ configs ∷ last_config ∷ first_config ∷ []) ≡ false }
    ensures too_much { is_legal known (ready ++ configs ∷ first_config ∷ last_config ∷ last_config ∷ []) ≡ false }
    ensures untold { is_legal two (ready ++ configs ∷ unsupported ∷ []) ≡ true }
{}

/// Facts about the remotes, and once a remote didn't get ready.
pub fn worked_facts()
    ensures before { is_legal known (tagging ++ info ∷ kind_told ++ info_end ∷ []) ≡ true }
    ensures told { is_legal known (ready ++ info ∷ kind_told ++ directory_told ++ info_end ∷ []) ≡ true }
    ensures left_out { is_legal known (ready ++ info ∷ kind_told ++ info_end ∷ []) ≡ false }
    ensures no_longer { is_legal known (unready ++ info ∷ kind_told ++ info_end ∷ []) ≡ true }
    ensures not_prepared { is_legal two (unready ++ check_a ∷ Say 2 (codes "J 2 CHECKPRESENT-UNKNOWN WORM--a not prepared") ∷ []) ≡ true }
    ensures not_worked { is_legal two (unready ++ check_a ∷ Take 2 1 ∷ []) ≡ false }
{}

/// Requests that have one line, and lines that spell no message.
pub fn worked_strangers()
    ensures cost { is_legal known (ready ++ Heard (codes "J 4 GETCOST") ∷ Say 4 (codes "J 4 COST 100") ∷ []) ≡ true }
    ensures cost_left_out { is_legal known (ready ++ Heard (codes "J 4 GETCOST") ∷ unsupported ∷ []) ≡ false }
    ensures whereis { is_legal known (ready ++ Heard (codes "J 4 WHEREIS WORM--a") ∷ unsupported ∷ []) ≡ true }
    ensures strange { is_legal known (ready ++ strange ∷ unsupported ∷ check_a ∷ []) ≡ true }
    ensures strange_again { is_legal known (ready ++ strange ∷ unsupported ∷ strange ∷ unsupported ∷ []) ≡ true }
    ensures strange_awaited { (standing known (asking ++ Heard (codes "J 1 CLAIMURL http://a") ∷ [])).over ≡ true }
    ensures strange_untold { is_legal two (ready ++ strange ∷ unsupported ∷ strange ∷ unsupported ∷ check_a ∷ []) ≡ true }
    ensures strange_unanswered { is_legal two (ready ++ strange ∷ check_a ∷ []) ≡ false }
{}

/// Lines that spell no message: for an open job they are unexpected, while a value is awaited they end the kit with no word, and a
/// host that tags no line is answered too.
pub fn worked_strange_lines()
    ensures open { is_legal two (ready ++ check_a ∷ Heard (codes "J 2 CLAIMURL http://a") ∷ error ∷ []) ≡ true }
    ensures open_answered { is_legal two (ready ++ check_a ∷ Heard (codes "J 2 CLAIMURL http://a") ∷ Say 2 (codes "J 2 UNSUPPORTED-REQUEST") ∷ []) ≡ false }
    ensures awaited { (standing two (asking ++ Heard (codes "J 1 CLAIMURL http://a") ∷ [])).over ≡ true }
    ensures awaited_word { is_legal two (asking ++ Heard (codes "J 1 CLAIMURL http://a") ∷ error ∷ []) ≡ false }
    ensures beside { is_legal two (asking ++ strange ∷ unsupported ∷ Heard (codes "J 1 VALUE d") ∷ []) ≡ true }
    ensures untagged { is_legal two (plain ++ Heard (codes "CLAIMURL http://a") ∷ Say 0 (codes "UNSUPPORTED-REQUEST") ∷ plain_check ∷ []) ≡ true }
    ensures no_tag { (standing two (ready ++ Heard (codes "CLAIMURL http://a") ∷ [])).over ≡ true }
{}

/// Writing: each write is of a line that was said, in their order. And when all is done.
pub fn worked_writing()
    ensures nothing_said { is_legal two (version ∷ Wrote ∷ Wrote ∷ []) ≡ false }
    ensures version_first { is_legal two (Heard (codes "EXTENSIONS ASYNC") ∷ version ∷ []) ≡ false }
    ensures heard_when_closed { is_legal two (whole ++ check_a ∷ []) ≡ false }
    ensures done { is_done two (standing two whole) ≡ true }
    ensures undone { is_done two (standing two (ready ++ check_a ∷ Close ∷ [])) ≡ false }
    ensures awaiting { is_done two (standing two (asking ++ Close ∷ [])) ≡ true }
    ensures no_memory { is_legal two (ready ++ check_a ∷ Take 2 0 ∷ Call 2 0 No ∷ Lack ∷ Wrote ∷ []) ≡ true }
    ensures no_memory_for_nothing { is_legal two (ready ++ Lack ∷ []) ≡ false }
    ensures said_without_memory { is_legal two (ready ++ check_a ∷ Take 2 0 ∷ Call 2 0 No ∷ Lack ∷ absent_a ∷ []) ≡ false }
    ensures left { (standing two (version ∷ Wrote ∷ Heard (codes "EXTENSIONS") ∷ Say 0 (codes "EXTENSIONS ") ∷ [])).unwritten ≡ codes "EXTENSIONS " ∷ [] }
{}

/// The front of a legal journal is legal.
pub fn fronts_are_legal()
    ensures { FrontsAreLegal }
{}

/// Once a kit is over, and what is due is said, nothing more is heard or said.
pub fn over_is_last()
    ensures { OverIsLast }
{}

/// What is not written yet is what was said after the lines that are.
pub fn unwritten_are()
    ensures { UnwrittenAre }
{}

/// Each step of a core leaves its journal legal, and makes what its number may make.
pub fn steps_are_legal()
    ensures legal { StepsAreLegal }
    ensures made { StepsAreMade }
{}
