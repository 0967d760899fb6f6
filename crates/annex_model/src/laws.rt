// Laws over the definitions, each the contract of a function with nothing to do.
ghost use Rattle.std.specs.Prelude.{◌≡◌, ◌↔◌, ℕ, List, Some, None, true, false, codes, [], ◌∷◌};
ghost use Rattle.annex_model.specs.declared.final_line.Final.TheVariants.{Done, Failed, Absent, Unknown, Unsupported};
ghost use Rattle.annex_model.specs.Messages.{RemoteMessage, HostMessage, RemoteSpells, HostSpells, remote_reading, remote_line, host_reading, host_line, text_in, IsAskable, IsSayable};
ghost use Rattle.annex_model.specs.Messages.{Version, Extensions, UnsupportedRequest, Progress, Setconfig, Setcreds, PrepareSuccess, PrepareFailure, TransferSuccess, TransferFailure};
ghost use Rattle.annex_model.specs.Messages.{CheckpresentSuccess, CheckpresentUnknown, Config, Configend, Availability, Infofield, Infovalue, Infoend, WhereisFailure};
ghost use Rattle.annex_model.specs.Messages.{ExportsupportedSuccess, ExportsupportedFailure, RenameexportSuccess, RenameexportFailure, RemoveSuccess};
ghost use Rattle.annex_model.specs.Messages.{Prepare, Transfer, Checkpresent, Listconfigs, Getinfo, Whereis, Value};
ghost use Rattle.annex_model.specs.Messages.{Exportsupported, Export, Transferexport, Checkpresentexport, Renameexport, Removeexport};
ghost use Rattle.annex_model.specs.Tags.{Tagged, untag};
ghost use Rattle.annex_model.specs.Talks.{final_of, awaits};
ghost use Rattle.annex_model.specs.Laws.{TalksAreFronts, FrontsTalk, FoulCannotFollow};

/// A line is read as the message that it spells, and as no other: it spells one at most.
pub fn reading_is_spelling()
    ensures remote { (m : RemoteMessage) (line : List ℕ) → (remote_reading line ≡ Some m) ↔ RemoteSpells m line }
    ensures host { (m : HostMessage) (line : List ℕ) → (host_reading line ≡ Some m) ↔ HostSpells m line }
{}

/// The line that is written for a message is read as that message.
pub fn canonical_line_is_read()
    ensures host { (m : HostMessage) → IsAskable m → host_reading (host_line m) ≡ Some m }
    ensures remote { (m : RemoteMessage) → IsSayable m → remote_reading (remote_line m) ≡ Some m }
{}

/// What talks so far goes on to a conversation.
pub fn talks_are_fronts()
    ensures { TalksAreFronts }
{}

/// A front of a conversation is one that talks so far, or a whole one.
pub fn fronts_talk()
    ensures { FrontsTalk }
{}

/// After a front that awaits a line, a message that is no aside is foul exactly where no lines after it make a conversation.
pub fn foul_cannot_follow()
    ensures { FoulCannotFollow }
{}

/// Lines that spell a message, and lines that spell none.
pub fn worked_lines()
    ensures zeros { remote_reading (codes "VERSION 01") ≡ Some (Version 1) }
    ensures no_number { remote_reading (codes "VERSION") ≡ None }
    ensures long_number { remote_reading (codes "VERSION 000000000000000000001") ≡ None }
    ensures large_number { remote_reading (codes "VERSION 18446744073709551616") ≡ None }
    ensures names { remote_reading (codes "EXTENSIONS INFO ASYNC") ≡ Some (Extensions (codes "INFO ASYNC")) }
    ensures no_names { remote_reading (codes "EXTENSIONS") ≡ Some (Extensions []) }
    ensures trailing_space { remote_reading (codes "PREPARE-SUCCESS ") ≡ None }
    ensures key { remote_reading (codes "CHECKPRESENT-SUCCESS WORM--a") ≡ Some (CheckpresentSuccess (codes "WORM--a")) }
    ensures no_key { remote_reading (codes "CHECKPRESENT-SUCCESS") ≡ None }
    ensures not_a_key { remote_reading (codes "CHECKPRESENT-SUCCESS WORM-a") ≡ None }
    ensures spaced_key { remote_reading (codes "CHECKPRESENT-SUCCESS WORM--a b") ≡ None }
    ensures lower_case { remote_reading (codes "version 1") ≡ None }
    ensures unknown { remote_reading (codes "CLAIMURL x") ≡ None }
    ensures largest { remote_reading (codes "PROGRESS 18446744073709551615") ≡ Some (Progress 18446744073709551615) }
    ensures leading { remote_reading (codes "PROGRESS 007") ≡ Some (Progress 7) }
    ensures no_text { remote_reading (codes "TRANSFER-FAILURE STORE WORM--a") ≡ Some (TransferFailure true (codes "WORM--a") []) }
    ensures text { remote_reading (codes "TRANSFER-FAILURE RETRIEVE WORM--a no disk") ≡ Some (TransferFailure false (codes "WORM--a") (codes "no disk")) }
    ensures no_key_in_failure { remote_reading (codes "TRANSFER-FAILURE STORE") ≡ None }
    ensures no_direction { remote_reading (codes "TRANSFER-SUCCESS store WORM--a") ≡ None }
    ensures no_space { remote_reading (codes "TRANSFER-SUCCESS STOREWORM--a") ≡ None }
    ensures creds { remote_reading (codes "SETCREDS x user pass word") ≡ Some (Setcreds (codes "x") (codes "user") (codes "pass word")) }
    ensures empty_word { remote_reading (codes "SETCONFIG  on") ≡ Some (Setconfig [] (codes "on")) }
    ensures no_value { remote_reading (codes "SETCONFIG color") ≡ Some (Setconfig (codes "color") []) }
    ensures no_name { remote_reading (codes "SETCONFIG") ≡ None }
    ensures scope { remote_reading (codes "AVAILABILITY LOCAL") ≡ Some (Availability false) }
    ensures no_scope { remote_reading (codes "AVAILABILITY UNAVAILABLE") ≡ None }
    ensures value { remote_reading (codes "INFOVALUE") ≡ Some (Infovalue []) }
    ensures no_cost { remote_reading (codes "COST") ≡ None }
    ensures transfer { host_reading (codes "TRANSFER STORE WORM--a a file") ≡ Some (Transfer true (codes "WORM--a") (codes "a file")) }
    ensures export { host_reading (codes "EXPORT docs/a b.txt") ≡ Some (Export (codes "docs/a b.txt")) }
    ensures no_export_name { host_reading (codes "EXPORT") ≡ Some (Export []) }
    ensures exported { host_reading (codes "TRANSFEREXPORT STORE WORM--a f") ≡ Some (Transferexport true (codes "WORM--a") (codes "f")) }
    ensures renaming { host_reading (codes "RENAMEEXPORT WORM--a new name") ≡ Some (Renameexport (codes "WORM--a") (codes "new name")) }
    ensures asked_for_exports { host_reading (codes "EXPORTSUPPORTED x") ≡ None }
    ensures renamed { remote_reading (codes "RENAMEEXPORT-SUCCESS WORM--a") ≡ Some (RenameexportSuccess (codes "WORM--a")) }
    ensures renamed_with_text { remote_reading (codes "RENAMEEXPORT-FAILURE WORM--a no disk") ≡ None }
    ensures text_of_failure { text_in (TransferFailure false (codes "WORM--a") (codes "no disk")) ≡ codes "no disk" }
    ensures text_of_success { text_in (CheckpresentSuccess (codes "WORM--a")) ≡ [] }
    ensures tag { untag (codes "J 07 PREPARE-SUCCESS") ≡ Some (7, codes "PREPARE-SUCCESS") }
    ensures empty_message { untag (codes "J 5 ") ≡ Some (5, []) }
    ensures no_message { untag (codes "J 5") ≡ None }
    ensures no_tag { untag (codes "JOB 5 x") ≡ None }
{}

/// A line is read as tagged exactly where it is.
pub fn untagging_is_tagging()
    ensures { (line : List ℕ) (number : ℕ) (rest : List ℕ) → (untag line ≡ Some (number, rest)) ↔ Tagged line number rest }
{}

/// What lines are whole answers, and what they say. A final line names the request's own key. `UNSUPPORTED-REQUEST` alone answers
/// anything that the host says, and nothing else answers what is no request.
pub fn worked_answers()
    ensures checked { final_of (Checkpresent (codes "WORM--a")) (Some (CheckpresentUnknown (codes "WORM--a") []) ∷ []) ≡ Some Unknown }
    ensures other_key { final_of (Checkpresent (codes "WORM--a")) (Some (CheckpresentUnknown (codes "WORM--b") []) ∷ []) ≡ None }
    ensures stored { final_of (Transfer true (codes "WORM--a") (codes "f")) (Some (TransferSuccess true (codes "WORM--a")) ∷ []) ≡ Some Done }
    ensures other_way { final_of (Transfer true (codes "WORM--a") (codes "f")) (Some (TransferSuccess false (codes "WORM--a")) ∷ []) ≡ None }
    ensures failed { final_of Prepare (Some (PrepareFailure (codes "no disk")) ∷ []) ≡ Some Failed }
    ensures no_configs { final_of Listconfigs (Some Configend ∷ []) ≡ Some Done }
    ensures configs { final_of Listconfigs (Some (Config (codes "a") []) ∷ Some (Config (codes "b") []) ∷ Some Configend ∷ []) ≡ Some Done }
    ensures open_configs { final_of Listconfigs (Some (Config (codes "a") []) ∷ []) ≡ None }
    ensures infos { final_of Getinfo (Some (Infofield (codes "size")) ∷ Some (Infovalue (codes "5")) ∷ Some Infoend ∷ []) ≡ Some Done }
    ensures half_pair { final_of Getinfo (Some (Infofield (codes "size")) ∷ Some Infoend ∷ []) ≡ None }
    ensures value_first { awaits Getinfo (Some (Infovalue (codes "5")) ∷ []) ≡ false }
    ensures unsupported { final_of Getinfo (Some UnsupportedRequest ∷ []) ≡ Some Unsupported }
    ensures unsupported_late { final_of Listconfigs (Some (Config (codes "a") []) ∷ Some UnsupportedRequest ∷ []) ≡ None }
    ensures late_not_awaited { awaits Listconfigs (Some (Config (codes "a") []) ∷ Some UnsupportedRequest ∷ []) ≡ false }
    ensures whereis { final_of (Whereis (codes "WORM--a")) (Some WhereisFailure ∷ []) ≡ Some Absent }
    ensures exports { final_of Exportsupported (Some ExportsupportedSuccess ∷ []) ≡ Some Done }
    ensures no_exports { final_of Exportsupported (Some ExportsupportedFailure ∷ []) ≡ Some Absent }
    ensures exported { final_of (Transferexport true (codes "WORM--a") (codes "f")) (Some (TransferSuccess true (codes "WORM--a")) ∷ []) ≡ Some Done }
    ensures export_retrieved { final_of (Transferexport true (codes "WORM--a") (codes "f")) (Some (TransferSuccess false (codes "WORM--a")) ∷ []) ≡ None }
    ensures export_unknown { final_of (Checkpresentexport (codes "WORM--a")) (Some (CheckpresentUnknown (codes "WORM--a") []) ∷ []) ≡ Some Unknown }
    ensures export_removed { final_of (Removeexport (codes "WORM--a")) (Some (RemoveSuccess (codes "WORM--a")) ∷ []) ≡ Some Done }
    ensures renamed { final_of (Renameexport (codes "WORM--a") (codes "n")) (Some (RenameexportSuccess (codes "WORM--a")) ∷ []) ≡ Some Done }
    ensures unrenamed { final_of (Renameexport (codes "WORM--a") (codes "n")) (Some (RenameexportFailure (codes "WORM--a")) ∷ []) ≡ Some Failed }
    ensures another_renamed { final_of (Renameexport (codes "WORM--a") (codes "n")) (Some (RenameexportSuccess (codes "WORM--b")) ∷ []) ≡ None }
    ensures nothing_said_to_a_name { final_of (Export (codes "n")) (Some (RenameexportSuccess (codes "n")) ∷ []) ≡ None }
    ensures reply { final_of (Value (codes "x")) (Some PrepareSuccess ∷ []) ≡ None }
{}
