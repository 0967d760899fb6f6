// Laws over the definitions, each the contract of a function with nothing to do.
ghost use Rattle.std.specs.Prelude.{◌≡◌, ℕ, ◌++◌, ◌∷◌, [], List, Option, Some, None, true, false, codes, bytes_eq};
ghost use Rattle.plain_lines.specs.Words.Changes.{says, is_dropped, has_loose_end, said_by_remote, said_by_host};
ghost use Rattle.plain_lines.specs.Words.Questions.{FromRemote, FromHost, oldest_open};
ghost use Rattle.plain_lines.specs.declared.words.question.Question.{Question};
ghost use Rattle.plain_lines.specs.declared.words.question.Question.TheVariants.{Folder, Urls, Other};

/// Each line that isn't one of the named ones passes byte for byte, both ways.
pub fn other_lines_pass()
    ensures remote { (line : List ℕ) → is_dropped line ≡ false → bytes_eq line (codes "VERSION 2") ≡ false → has_loose_end line ≡ false → said_by_remote line ≡ Some line }
    ensures host { (oldest : Option Question) (line : List ℕ) → says (codes "EXTENSIONS") line ≡ false → says (codes "VALUE") line ≡ false → said_by_host oldest line ≡ line }
{}

/// Lines of a remote that are changed or dropped, and their neighbours, which pass.
pub fn worked_remote_lines()
    ensures version_two { said_by_remote (codes "VERSION 2") ≡ Some (codes "VERSION 1") }
    ensures version_three { said_by_remote (codes "VERSION 3") ≡ Some (codes "VERSION 3") }
    ensures version_longer { said_by_remote (codes "VERSION 21") ≡ Some (codes "VERSION 21") }
    ensures uri_present { said_by_remote (codes "SETURIPRESENT WORM--a https://a/b") ≡ None }
    ensures uri_missing { said_by_remote (codes "SETURIMISSING WORM--a https://a/b") ≡ None }
    ensures url_present { said_by_remote (codes "SETURLPRESENT WORM--a https://a/b") ≡ Some (codes "SETURLPRESENT WORM--a https://a/b") }
    ensures uri_longer { said_by_remote (codes "SETURIPRESENTS WORM--a") ≡ Some (codes "SETURIPRESENTS WORM--a") }
    ensures progress { said_by_remote (codes "PROGRESS 5") ≡ Some (codes "PROGRESS 5") }
    ensures negative { said_by_remote (codes "PROGRESS -5") ≡ None }
    ensures largest { said_by_remote (codes "PROGRESS 18446744073709551615") ≡ Some (codes "PROGRESS 18446744073709551615") }
    ensures too_large { said_by_remote (codes "PROGRESS 18446744073709551616") ≡ None }
    ensures twenty_digits { said_by_remote (codes "PROGRESS 00000000000000000001") ≡ Some (codes "PROGRESS 00000000000000000001") }
    ensures more_digits { said_by_remote (codes "PROGRESS 000000000000000000001") ≡ None }
    ensures no_number { said_by_remote (codes "PROGRESS") ≡ None }
    ensures progress_longer { said_by_remote (codes "PROGRESSES -5") ≡ Some (codes "PROGRESSES -5") }
    ensures blank { said_by_remote (codes "PREPARE-SUCCESS ") ≡ Some (codes "PREPARE-SUCCESS") }
    ensures byte_13 { said_by_remote (codes "CONFIGEND" ++ 13 ∷ []) ≡ Some (codes "CONFIGEND") }
    ensures two_blanks { said_by_remote (codes "PREPARE-SUCCESS  ") ≡ Some (codes "PREPARE-SUCCESS  ") }
    ensures has_parameter { said_by_remote (codes "DIRHASH WORM--a ") ≡ Some (codes "DIRHASH WORM--a ") }
    ensures may_have_parameter { said_by_remote (codes "PREPARE-FAILURE ") ≡ Some (codes "PREPARE-FAILURE ") }
    ensures empty { said_by_remote [] ≡ Some [] }
{}

/// Lines of a host that are changed, and their neighbours, which pass.
pub fn worked_host_lines()
    ensures middle { said_by_host None (codes "EXTENSIONS INFO ASYNC GETGITREMOTENAME") ≡ codes "EXTENSIONS INFO GETGITREMOTENAME" }
    ensures last { said_by_host None (codes "EXTENSIONS INFO ASYNC") ≡ codes "EXTENSIONS INFO" }
    ensures alone { said_by_host None (codes "EXTENSIONS ASYNC") ≡ codes "EXTENSIONS " }
    ensures other_name { said_by_host None (codes "EXTENSIONS INFO ASYNCS") ≡ codes "EXTENSIONS INFO ASYNCS" }
    ensures no_names { said_by_host None (codes "EXTENSIONS") ≡ codes "EXTENSIONS" }
    ensures folder { said_by_host (Some Folder) (codes "VALUE a/b") ≡ codes "VALUE a/b/" }
    ensures has_slash { said_by_host (Some Folder) (codes "VALUE a/b/") ≡ codes "VALUE a/b/" }
    ensures other_question { said_by_host (Some Other) (codes "VALUE a/b") ≡ codes "VALUE a/b" }
    ensures urls { said_by_host (Some Urls) (codes "VALUE a/b") ≡ codes "VALUE a/b" }
    ensures no_question { said_by_host None (codes "VALUE a/b") ≡ codes "VALUE a/b" }
    ensures no_value { said_by_host (Some Folder) (codes "ERROR a/b") ≡ codes "ERROR a/b" }
{}

/// Which question a VALUE answers next. The last line stands first.
pub fn worked_answers()
    ensures folder { oldest_open (FromRemote (codes "DIRHASH WORM--a") ∷ []) ≡ Some Folder }
    ensures lower { oldest_open (FromRemote (codes "DIRHASH-LOWER WORM--a") ∷ []) ≡ Some Folder }
    ensures longer { oldest_open (FromRemote (codes "DIRHASHES WORM--a") ∷ []) ≡ None }
    ensures in_order { oldest_open (FromHost (codes "VALUE x") ∷ FromRemote (codes "DIRHASH WORM--a") ∷ FromRemote (codes "GETCONFIG x") ∷ []) ≡ Some Folder }
    ensures settled { oldest_open (FromHost (codes "VALUE a/b") ∷ FromRemote (codes "DIRHASH WORM--a") ∷ []) ≡ None }
    ensures no_answer { oldest_open (FromHost (codes "CHECKPRESENT WORM--a") ∷ FromRemote (codes "DIRHASH WORM--a") ∷ []) ≡ Some Folder }
    ensures more_urls { oldest_open (FromHost (codes "VALUE u") ∷ FromRemote (codes "GETURLS WORM--a ") ∷ []) ≡ Some Urls }
    ensures last_url { oldest_open (FromHost (codes "VALUE ") ∷ FromHost (codes "VALUE u") ∷ FromRemote (codes "GETURLS WORM--a ") ∷ []) ≡ None }
    ensures creds { oldest_open (FromHost (codes "CREDS u p") ∷ FromRemote (codes "DIRHASH WORM--a") ∷ FromRemote (codes "GETCREDS c") ∷ []) ≡ Some Folder }
    ensures unasked { oldest_open (FromRemote (codes "DIRHASH WORM--a") ∷ FromHost (codes "VALUE x") ∷ []) ≡ Some Folder }
    ensures loose_end { oldest_open (FromRemote (codes "GETUUID" ++ 13 ∷ []) ∷ []) ≡ Some Other }
{}
