// Laws over the replies to asides, each the contract of a function with nothing to do.
ghost use Rattle.std.specs.Prelude.{◌≡◌, List, [], ◌∷◌, ◌++◌, codes, take, Some};
ghost use Rattle.annex_model.specs.Messages.{Checkpresent, AskExtensions};
ghost use Rattle.annex_model.specs.Talks.{Conv};
ghost use Rattle.journal_model.specs.declared.entry.What.TheVariants.{Put};
ghost use Rattle.journal_model.specs.declared.entry.Entry.{Entry};
ghost use Rattle.journal_model.specs.declared.opening.Opening.{Opening};
ghost use Rattle.annex_model.specs.Lines.{text};
ghost use Rattle.journal_model.specs.Journal.{got_lines};
ghost use Rattle.journal_model.specs.Parts.{part};
ghost use Rattle.journal_model.specs.Wires.{Wired};
ghost use Rattle.journal_model.specs.Due.{due_by_got, replies_at, foul};
ghost use Rattle.journal_model.specs.Legality.{Legal, FirstWrong, Unfinished};
ghost use Rattle.journal_model.specs.Projection.{PutsReply};
ghost use Rattle.journal_model.specs.Rows.{one_check, sample_key, by_main, greeting, asked_lines, two_checks, one_left};
ghost use Rattle.journal_model.specs.ReplyRows.{with_settings, told, config_asked, config_told, set_and_told, urls_told, directory_told, state_told, tagged_told};
ghost use Rattle.journal_model.specs.ReplyRows.{told_twice, not_told, other_value, by_other, ended_for_asking, told_behind_final, talk_told, setting_told};
ghost use Rattle.journal_model.specs.ReplyRows.{urls_cut, urls_crossed, state_unseen, other_tag, other_job, no_tag};

/// In a legal journal each Put is one of the replies that a line is owed, after it at its place.
pub fn puts_reply()
    ensures { (o : Opening) (journal : List Entry) → Legal o journal → PutsReply o journal }
{}

/// Asides that are answered: a config, as the run began with it and as it was set, creds that nobody set, two URLs, a
/// directory. The part is a conversation, and what was sent is on the wire.
pub fn answered_asides()
    ensures config { Legal with_settings config_told }
    ensures unset { Legal one_check set_and_told }
    ensures urls { Legal with_settings urls_told }
    ensures directory { Legal one_check directory_told }
    ensures config_talks { Conv (replies_at with_settings config_told) (Checkpresent sample_key) (part config_told 1 2) }
    ensures config_wired { Wired config_told 1 (Some (text (got_lines config_told 1))) (Some (text (asked_lines ++ codes "VALUE 1" ∷ []))) [] }
    ensures urls_talk { Conv (replies_at with_settings urls_told) (Checkpresent sample_key) (part urls_told 1 2) }
{}

/// What one child set another is told, and what one job set another, each under its own tag.
pub fn answered_apart()
    ensures children { Legal one_check state_told }
    ensures jobs { Legal two_checks tagged_told }
    ensures children_talk { Conv (replies_at one_check state_told) (AskExtensions (codes "INFO GETGITREMOTENAME")) (part state_told 2 0) }
    ensures jobs_talk { Conv (replies_at two_checks tagged_told) (Checkpresent (codes "WORM--b")) (part tagged_told 1 3) }
{}

/// An aside is answered once, at once, with its own value and by the number that made its line; and it doesn't end its child.
pub fn refused_answers()
    ensures twice { FirstWrong with_settings told_twice 15 (told (codes "VALUE 1")) }
    ensures never { Legal with_settings not_told → ⊥ }
    ensures other_value { FirstWrong with_settings other_value 14 (told (codes "VALUE 2")) }
    ensures by_other { FirstWrong with_settings by_other 14 (record { by = 3; what = Put 1 2 (codes "VALUE 1") }) }
    ensures ended { Legal with_settings ended_for_asking → ⊥ }
    ensures owed { Unfinished with_settings config_asked }
    ensures urls_cut { FirstWrong with_settings urls_cut 16 (told (codes "VALUE ")) }
    ensures urls_crossed { FirstWrong with_settings urls_crossed 15 (told (codes "VALUE http://b")) }
{}

/// Talk, a setting and an answer are owed no reply; a late aside is foul.
pub fn owed_no_answer()
    ensures behind_final { FirstWrong one_check told_behind_final 15 (told (codes "VALUE ")) }
    ensures talk { FirstWrong one_check talk_told 14 (told (codes "VALUE ")) }
    ensures setting { FirstWrong one_check setting_told 14 (told (codes "VALUE ")) }
    ensures no_job { due_by_got one_check greeting 1 (codes "GETUUID") ≡ foul greeting 1 }
    ensures set_late { due_by_got one_check greeting 1 (codes "SETSTATE WORM--a s") ≡ foul greeting 1 }
    ensures late { due_by_got two_checks one_left 1 (codes "J 2 GETUUID") ≡ foul one_left 1 }
    ensures tag_zero { due_by_got two_checks one_left 1 (codes "J 0 GETUUID") ≡ foul one_left 1 }
{}

/// All children have one history of registers; and a reply has the tag and the number of its own job.
pub fn refused_apart()
    ensures unseen { FirstWrong one_check state_unseen 18 (by_main (Put 2 0 (codes "VALUE "))) }
    ensures other_tag { FirstWrong two_checks other_tag 16 (by_main (Put 1 3 (codes "J 2 VALUE 2"))) }
    ensures other_job { FirstWrong two_checks other_job 16 (by_main (Put 1 2 (codes "J 2 VALUE 2"))) }
    ensures no_tag { FirstWrong two_checks no_tag 16 (by_main (Put 1 3 (codes "VALUE 2"))) }
{}
