// Laws over the definitions, each the contract of a function with nothing to do.
ghost use Rattle.std.specs.Prelude.{ℕ, ◌&&◌, not, ◌≡◌, ◌≤◌, ◌+◌, ◌*◌, ◌↔◌, ◌++◌, true, false, List, [], ◌∷◌, take, IsTrue, Some, codes, length};
ghost use Rattle.journal_model.specs.declared.verdict.Why.TheVariants.{Closed, Full, Foul, Error};
ghost use Rattle.journal_model.specs.declared.verdict.Verdict.TheVariants.{Ended, Done, Failed, Unsupported};
ghost use Rattle.annex_model.specs.Messages.{Checkpresent};
ghost use Rattle.annex_model.specs.Talks.{Conv, ConvFront, Talking};
ghost use Rattle.annex_model.specs.Lines.{text};
ghost use Rattle.journal_model.specs.declared.answer.Answer.TheVariants.{Present, Stored, Unknown as UnknownAnswer, NotPrepared, Ended as EndedAnswer};
ghost use Rattle.journal_model.specs.declared.entry.What.TheVariants.{Claim, Ask, Sent, Got, End, Verdict as Settled, Answer as Answered};
ghost use Rattle.journal_model.specs.declared.entry.Entry.{Entry};
ghost use Rattle.journal_model.specs.declared.opening.Opening.{Opening};
ghost use Rattle.journal_model.specs.Journal.{got_lines, verdict_of, is_tagged, is_full};
ghost use Rattle.journal_model.specs.Parts.{part, part_by_places};
ghost use Rattle.journal_model.specs.Due.{due_by_got, replies_at};
ghost use Rattle.journal_model.specs.Legality.{Legal, IsGroup, LegalByGroups, LegalByPlaces, FirstWrong, MayStand, Follows, owed_after, may_come, is_busy, is_claimed, is_answered, is_prepared, count};
ghost use Rattle.journal_model.specs.Registers.{is_got};
ghost use Rattle.journal_model.specs.Projection.{JobFits, PartIsAsked};
ghost use Rattle.journal_model.specs.Wires.{Wired};
ghost use Rattle.journal_model.specs.Output.{answer_line};
ghost use Rattle.journal_model.specs.Room.{room_for, room_for_all, room_of, is_put, is_ask};
ghost use Rattle.journal_model.specs.Rows.{one_check, check_present, not_closed, other_key, not_settled, sample_key, by_main, settled, answered, greeting, asked_lines};
ghost use Rattle.journal_model.specs.Rows.{two_checks, crossed, unknown_job, tag_left_off, tagged_greeting, end_with, not_extended, no_disk, checking, away};
ghost use Rattle.journal_model.specs.Rows.{settled_by_aside, out_of_disk, one_left, ask_configs, listing, one_listed, set_up, two_stores, first_claimed};

/// The journal of one check is legal, and so it is before its child is closed.
pub fn check_present_is_legal()
    ensures legal { Legal one_check check_present }
    ensures open { Legal one_check not_closed }
    ensures long { length check_present ≡ 17 }
{}

/// A final line of another key makes the child's end due, and the verdict of its job.
pub fn other_key_is_foul()
    ensures due { owed_after one_check (take 14 other_key) ≡ by_main (End 1 (Foul 13)) ∷ by_main (Settled 1 2 (Ended (Foul 13))) ∷ [] }
    ensures illegal { Legal one_check other_key → ⊥ }
    ensures first { FirstWrong one_check other_key 14 settled }
{}

/// Where the verdict is left out, it is due where the answer stands.
pub fn missing_verdict_is_illegal()
    ensures due { owed_after one_check (take 14 not_settled) ≡ settled ∷ [] }
    ensures illegal { Legal one_check not_settled → ⊥ }
    ensures first { FirstWrong one_check not_settled 14 answered }
{}

/// Entries that may not come: an Ask before the greeting allows it, a Claim of a claimed task, a Sent with nothing to send,
/// a verdict without a final line, an End as closed with an open job, a Got after an End.
pub fn refused_entries()
    ensures ask_early { may_come one_check (take 1 check_present) 0 (Ask 1 0 0 (codes "EXTENSIONS INFO GETGITREMOTENAME")) ≡ false }
    ensures prepare_early { may_come one_check (take 5 check_present) 0 (Ask 1 1 0 (codes "PREPARE")) ≡ false }
    ensures request_early { may_come one_check (take 8 check_present) 0 (Ask 1 2 1 (codes "CHECKPRESENT " ++ sample_key)) ≡ false }
    ensures other_number { may_come one_check (take 11 check_present) 1 (Ask 1 2 1 (codes "CHECKPRESENT " ++ sample_key)) ≡ false }
    ensures second_claim { may_come one_check (take 11 check_present) 0 (Claim 1 1) ≡ false }
    ensures nothing_to_send { may_come one_check (take 13 check_present) 0 (Sent 1) ≡ false }
    ensures no_final { may_come one_check (take 13 check_present) 0 (Settled 1 2 (Done 13)) ≡ false }
    ensures open_job { may_come one_check (take 13 check_present) 0 (End 1 Closed) ≡ false }
    ensures answer_early { may_come one_check (take 13 check_present) 0 (Answered 1 Present) ≡ false }
    ensures after_end { may_come one_check check_present 0 (Got 1 (codes "VERSION 1")) ≡ false }
{}

/// The part of the check is a conversation, and goes on to one before its last line.
pub fn check_present_talks()
    ensures conversation { Conv (replies_at one_check check_present) (Checkpresent sample_key) (part check_present 1 2) }
    ensures front { ConvFront (replies_at one_check check_present) (Checkpresent sample_key) (part (take 13 check_present) 1 2) }
    ensures so_far { Talking (replies_at one_check check_present) (Checkpresent sample_key) (part (take 13 check_present) 1 2) }
    ensures same { part_by_places check_present 1 2 ≡ part check_present 1 2 }
{}

/// What was read and written, and what is printed.
pub fn check_present_is_wired()
    ensures wired { Wired check_present 1 (Some (text (got_lines check_present 1))) (Some (text asked_lines)) [] }
    ensures printed { answer_line check_present 1 Present ≡ codes "1 present" ++ 10 ∷ [] }
    ensures foul { answer_line other_key 1 (EndedAnswer (Foul 13)) ≡ codes "1 foul CHECKPRESENT-SUCCESS WORM--x" ++ 10 ∷ [] }
{}

/// Over a tagged child two jobs may be open at once, and their lines may cross.
pub fn crossed_is_legal()
    ensures legal { Legal two_checks crossed }
    ensures first { Conv (replies_at two_checks crossed) (Checkpresent (codes "WORM--a")) (part crossed 1 2) }
    ensures second { Conv (replies_at two_checks crossed) (Checkpresent (codes "WORM--b")) (part crossed 1 3) }
    ensures unknown { Legal two_checks unknown_job }
    ensures left_off { Legal two_checks tag_left_off }
{}

/// A child that doesn't know EXTENSIONS has no tags, though they were offered, and is prepared and asked all the same.
pub fn not_extended_is_legal()
    ensures legal { Legal one_check not_extended }
    ensures verdict { verdict_of not_extended 1 0 ≡ Some (Unsupported 4) }
    ensures untagged { is_tagged not_extended 1 ≡ false }
{}

/// A task whose child couldn't get ready is claimed for no child, and its answer names the line that says why.
pub fn no_disk_is_legal()
    ensures legal { Legal one_check no_disk }
    ensures verdict { verdict_of no_disk 1 1 ≡ Some (Failed 8) }
    ensures refused { may_come one_check (take 10 no_disk) 0 (Claim 1 1) ≡ false }
    ensures printed { answer_line no_disk 1 (NotPrepared 8) ≡ codes "1 notprepared no disk" ++ 10 ∷ [] }
{}

/// Talk before an answer belongs to the conversation, and settles nothing.
pub fn away_is_legal()
    ensures legal { Legal one_check away }
    ensures conversation { Conv (replies_at one_check away) (Checkpresent sample_key) (part away 1 2) }
    ensures printed { answer_line away 1 (UnknownAnswer 15) ≡ codes "1 unknown away" ++ 10 ∷ [] }
    ensures nothing_due { due_by_got one_check checking 1 (codes "PROGRESS 10") ≡ [] }
    ensures aside { FirstWrong one_check settled_by_aside 14 settled }
{}

/// A line that spells ERROR ends its child, and each open job with it, whether it is tagged or not, and whatever its tag.
pub fn error_ends()
    ensures legal { Legal one_check out_of_disk }
    ensures due { due_by_got one_check checking 1 (codes "ERROR out of disk") ≡ end_with (Error 13) (2 ∷ []) }
    ensures printed { answer_line out_of_disk 1 (EndedAnswer (Error 13)) ≡ codes "1 ended error out of disk" ++ 10 ∷ [] }
    ensures no_tag { due_by_got two_checks tagged_greeting 1 (codes "ERROR x") ≡ end_with (Error 14) (2 ∷ 3 ∷ []) }
    ensures tag { due_by_got two_checks tagged_greeting 1 (codes "J 2 ERROR x") ≡ end_with (Error 14) (2 ∷ 3 ∷ []) }
    ensures any_tag { due_by_got two_checks tagged_greeting 1 (codes "J 9 ERROR x") ≡ end_with (Error 14) (2 ∷ 3 ∷ []) }
{}

/// What a child says late is passed over, where it is talk about a job that was open; where lines have no tags, any talk is. What
/// it asks late isn't answered.
pub fn strange_lines()
    ensures late { due_by_got two_checks one_left 1 (codes "J 2 PROGRESS 3") ≡ [] }
    ensures asks_late { due_by_got two_checks one_left 1 (codes "J 2 GETUUID") ≡ end_with (Foul 16) (3 ∷ []) }
    ensures job_0 { due_by_got two_checks one_left 1 (codes "J 0 DEBUG x") ≡ end_with (Foul 16) (3 ∷ []) }
    ensures never_asked { due_by_got two_checks one_left 1 (codes "J 9 PROGRESS 1") ≡ end_with (Foul 16) (3 ∷ []) }
    ensures no_job { due_by_got one_check greeting 1 (codes "PROGRESS 1") ≡ [] }
    ensures answers_none { due_by_got one_check greeting 1 (codes "CHECKPRESENT-SUCCESS " ++ sample_key) ≡ end_with (Foul 10) [] }
{}

/// A child is not ended for a full journal while there is room. The main thread may ask for a list of configs, whose first line
/// settles nothing; after it the request can't be unsupported.
pub fn room_and_lists()
    ensures not_full { is_full checking ≡ false }
    ensures no_end { may_come one_check checking 0 (End 1 Full) ≡ false }
    ensures ask { may_come one_check greeting 0 ask_configs ≡ true }
    ensures ask_by_other { may_come one_check greeting 1 ask_configs ≡ false }
    ensures first { due_by_got one_check listing 1 (codes "CONFIG a b") ≡ [] }
    ensures last { due_by_got one_check one_listed 1 (codes "CONFIGEND") ≡ Settled 1 2 (Done 13) ∷ [] }
    ensures unsupported { due_by_got one_check one_listed 1 (codes "UNSUPPORTED-REQUEST") ≡ end_with (Foul 13) (2 ∷ []) }
{}

/// A whole group keeps a journal legal. It is an entry that may stand, and then what that makes due, or a name and a request that it leads.
pub fn group_keeps_legal()
    ensures legal { (o : Opening) (past group : List Entry) → Legal o past → IsGroup o past group → Legal o (past ++ group) }
    ensures first { (o : Opening) (past : List Entry) (e : Entry) (rest : List Entry) → IsGroup o past (e ∷ rest) ↔ (MayStand o past [] e × Follows o past e rest) }
{}

/// Three ways to say which journals are legal: along the list, place by place, and group by group.
pub fn forms_agree()
    ensures places { (o : Opening) (journal : List Entry) → Legal o journal ↔ LegalByPlaces o journal }
    ensures groups { (o : Opening) (journal : List Entry) → Legal o journal ↔ LegalByGroups o journal }
{}

/// In a legal journal each job's part fits its request and its verdict, and is there exactly where the job was asked.
pub fn parts_fit()
    ensures fits { (o : Opening) (journal : List Entry) → Legal o journal → (c j : ℕ) → JobFits (replies_at o journal) journal c j }
    ensures asked { (o : Opening) (journal : List Entry) → Legal o journal → (c j : ℕ) → PartIsAsked journal c j }
{}

/// A legal journal is no longer than its room, to which entries add what each of them takes. A group takes what its first entry
/// does, none for a Claim, a Sent, a Mute, an End or an Answer, two for each reply and three for a request after a name; replies stand only
/// after a line of a child.
pub fn room_suffices()
    ensures long { (o : Opening) (journal : List Entry) → Legal o journal → length journal ≤ room_of o journal }
    ensures grows { (o : Opening) (past more : List Entry) → room_of o (past ++ more) ≡ room_of o past + room_for_all more }
    ensures group { (o : Opening) (past rest : List Entry) (e : Entry) → IsGroup o past (e ∷ rest) → room_for_all (e ∷ rest) ≡ room_for e.what + 2 * count is_put rest + 3 * count is_ask rest }
    ensures no_reply { (o : Opening) (past : List Entry) (e : Entry) (rest : List Entry) → IsGroup o past (e ∷ rest) → is_got e.what ≡ false → count is_put rest ≡ 0 }
{}

/// In a legal journal a task is held from its claim to its answer.
pub fn held_until_answered()
    ensures { (o : Opening) (journal : List Entry) → Legal o journal → (t : ℕ) → is_busy journal t ≡ (is_claimed journal t && not (is_answered journal t)) }
{}

/// A child may be set up in place of getting ready. Then nothing more is asked of it, and no task is claimed for it.
pub fn set_up_is_not_prepared()
    ensures legal { Legal one_check set_up }
    ensures verdict { verdict_of set_up 1 1 ≡ Some (Done 8) }
    ensures unprepared { is_prepared set_up 1 ≡ false }
    ensures prepared { is_prepared greeting 1 ≡ true }
    ensures tagged { is_prepared tagged_greeting 1 ≡ true }
    ensures no_claim { may_come one_check set_up 0 (Claim 1 1) ≡ false }
    ensures no_request { may_come one_check set_up 0 ask_configs ≡ false }
    ensures late { may_come one_check greeting 0 (Ask 1 2 0 (codes "INITREMOTE")) ≡ false }
{}

/// A task waits while another is busy whose key is its own, or whose file is its own or differs by an ending .part; until the
/// other is answered.
pub fn clashing_claims()
    ensures part_file { may_come (two_stores (codes "WORM--b") (codes "f.part")) first_claimed 0 (Claim 2 1) ≡ false }
    ensures same_file { may_come (two_stores (codes "WORM--b") (codes "f")) first_claimed 3 (Claim 2 1) ≡ false }
    ensures same_key { may_come (two_stores (codes "WORM--a") (codes "g")) first_claimed 0 (Claim 2 1) ≡ false }
    ensures apart { may_come (two_stores (codes "WORM--b") (codes "g")) first_claimed 0 (Claim 2 1) ≡ true }
    ensures later { may_come (two_stores (codes "WORM--b") (codes "f.part")) (first_claimed ++ by_main (Answered 1 Stored) ∷ []) 0 (Claim 2 1) ≡ true }
    ensures other_ending { may_come (two_stores (codes "WORM--b") (codes "f.parts")) first_claimed 0 (Claim 2 1) ≡ true }
{}
