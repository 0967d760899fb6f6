// Laws over what remotes set and ask for, each the contract of a function with nothing to do.
ghost use Rattle.std.specs.Prelude.{ℕ, ◌≡◌, ◌++◌, not, List, [], ◌∷◌, IsTrue, codes};
ghost use Rattle.std.specs.List.Sorted.{IsStrictlySortedBy};
ghost use Rattle.ann_key.specs.Keys.{Parts, IsKey, without_chunk};
ghost use Rattle.annex_model.specs.Lines.{has_newline};
ghost use Rattle.annex_model.specs.Messages.{RemoteMessage, RemoteSpells, IsSayable, Getconfig, Setconfig, Getcreds, Setcreds, Getuuid, Getwanted, Getstate, Setstate, Geturls};
ghost use Rattle.registers.specs.Tables.{by_bytes};
ghost use Rattle.registers.specs.Registers.{RegisterFile, IsKept};
ghost use Rattle.journal_model.specs.declared.entry.Entry.{Entry};
ghost use Rattle.journal_model.specs.declared.opening.Identity.{Identity};
ghost use Rattle.journal_model.specs.Replies.{base_text, are_line_fields, SameValues, Values, values_of, replies_by, set_by_all};
ghost use Rattle.journal_model.specs.Registers.{settings, settings_from, values_at, urls_at, NamesNoLine, HasNoLine};
ghost use Rattle.journal_model.specs.RegisterRows.{says, saying, with_second, foul_setting, tagged_saying, urls_said, url_said_twice, url_said_again, before, owed};
ghost use Rattle.journal_model.specs.Rows.{greeting};

/// What the last settings gave is what registers hold that were set by each setting in turn; and what is owed to a message
/// hangs on nothing else.
pub fn registers_follow()
    ensures values { (r : RegisterFile) (i : Identity) (past : List Entry) → IsKept r → SameValues (values_at r i past) (values_of (set_by_all r (settings past)) i) }
    ensures replies { (v w : Values) (m : RemoteMessage) → SameValues v w → replies_by v m ≡ replies_by w m }
    ensures rising { (r : RegisterFile) (past : List Entry) (key prefix : List ℕ) → IsStrictlySortedBy by_bytes (urls_at r past key prefix) }
{}

/// After more entries the settings are those before and then those that the entries make, unless the first of them ends a
/// child at an earlier line.
pub fn settings_grow()
    ensures grow { (past rest : List Entry) → NamesNoLine rest → settings (past ++ rest) ≡ settings past ++ settings_from past rest }
    ensures none { (past rest : List Entry) → HasNoLine rest → settings_from past rest ≡ [] }
{}

/// The base key's text spells the key without its chunk.
pub fn base_text_is_the_base()
    ensures { (text : List ℕ) (key : Parts) → IsKey text key → IsKey (base_text text) (without_chunk key) }
{}

/// A message that a line spells has fields of their classes, and none holds byte 10 where the line holds none.
pub fn said_fields_fit()
    ensures class { (m : RemoteMessage) (line : List ℕ) → RemoteSpells m line → IsSayable m }
    ensures lines { (m : RemoteMessage) (line : List ℕ) → RemoteSpells m line → IsTrue (not (has_newline line)) → IsTrue (are_line_fields m) }
{}

/// Settings, and what is owed after them.
pub fn worked_settings()
    ensures other_child { owed (with_second (codes "SETSTATE WORM--a s" ∷ [])) (Getstate (codes "WORM--a")) ≡ codes "VALUE s" ∷ [] }
    ensures later_child { owed (with_second (codes "SETSTATE WORM--a s" ∷ []) ++ says 2 (codes "SETSTATE WORM--a t") ∷ []) (Getstate (codes "WORM--a")) ≡ codes "VALUE t" ∷ [] }
    ensures other_key { owed (saying (codes "SETSTATE WORM--a s" ∷ [])) (Getstate (codes "WORM--b")) ≡ codes "VALUE " ∷ [] }
    ensures no_state { owed (saying (codes "SETSTATE WORM--a s" ∷ codes "SETSTATE WORM--a" ∷ [])) (Getstate (codes "WORM--a")) ≡ codes "VALUE " ∷ [] }
    ensures wanted { owed (saying (codes "SETWANTED a" ∷ codes "SETWANTED b c" ∷ [])) Getwanted ≡ codes "VALUE b c" ∷ [] }
    ensures creds { owed (saying (codes "SETCREDS s user pass word" ∷ codes "SETCREDS t x y" ∷ [])) (Getcreds (codes "s")) ≡ codes "CREDS user pass word" ∷ [] }
    ensures no_creds { owed (saying []) (Getcreds (codes "s")) ≡ codes "CREDS  " ∷ [] }
    ensures uuid { owed (saying []) Getuuid ≡ codes "VALUE 00000000-0000-0000-0000-000000000000" ∷ [] }
    ensures setting { owed (saying []) (Setconfig (codes "a") (codes "2")) ≡ [] }
{}

/// A config value that is set to nothing is set; one that isn't set is as it was.
pub fn worked_configs()
    ensures at_first { owed (saying []) (Getconfig (codes "a")) ≡ codes "VALUE 1" ∷ [] }
    ensures unset { owed (saying []) (Getconfig (codes "b")) ≡ codes "VALUE " ∷ [] }
    ensures emptied { owed (saying (codes "SETCONFIG a" ∷ [])) (Getconfig (codes "a")) ≡ codes "VALUE " ∷ [] }
    ensures again { owed (saying (codes "SETCONFIG a" ∷ codes "SETCONFIG a 2" ∷ codes "SETCONFIG b 3" ∷ [])) (Getconfig (codes "a")) ≡ codes "VALUE 2" ∷ [] }
    ensures spaced { owed (saying (codes "SETCONFIG a b c" ∷ [])) (Getconfig (codes "a b")) ≡ codes "VALUE " ∷ [] }
{}

/// The URLs that are present, in rising order, and then an empty value.
pub fn worked_urls()
    ensures at_first { owed (saying []) (Geturls (codes "WORM--a") []) ≡ codes "VALUE http://b" ∷ codes "VALUE " ∷ [] }
    ensures taken_away { owed (saying (codes "SETURLMISSING WORM--a http://b" ∷ [])) (Geturls (codes "WORM--a") []) ≡ codes "VALUE " ∷ [] }
    ensures set_and_taken_away { owed (saying (codes "SETURLPRESENT WORM--a x" ∷ codes "SETURLMISSING WORM--a x" ∷ [])) (Geturls (codes "WORM--a") (codes "x")) ≡ codes "VALUE " ∷ [] }
    ensures taken_away_and_set { owed (saying url_said_again) (Geturls (codes "WORM--a") []) ≡ codes "VALUE http://b" ∷ codes "VALUE " ∷ [] }
    ensures prefix { owed (saying urls_said) (Geturls (codes "WORM--a") (codes "http:")) ≡ codes "VALUE http://a" ∷ codes "VALUE http://b" ∷ codes "VALUE http://c" ∷ codes "VALUE " ∷ [] }
    ensures all { owed (saying url_said_twice) (Geturls (codes "WORM--a") []) ≡ codes "VALUE ftp://d" ∷ codes "VALUE http://b" ∷ codes "VALUE http://c" ∷ codes "VALUE " ∷ [] }
    ensures other_key { owed (saying (codes "SETURLPRESENT WORM--ab x" ∷ [])) (Geturls (codes "WORM--a") (codes "x")) ≡ codes "VALUE " ∷ [] }
{}

/// Lines that set nothing: one that ends its child, one that is for no open job, one without its tag, and one that asks.
pub fn worked_lines_that_set_nothing()
    ensures foul { settings foul_setting ≡ [] }
    ensures before_its_end { settings (saying (codes "SETSTATE WORM--a s" ∷ [])) ≡ Setstate (codes "WORM--a") (codes "s") ∷ [] }
    ensures no_job { settings (greeting ++ says 1 (codes "SETSTATE WORM--a s") ∷ []) ≡ [] }
    ensures tagged { settings (tagged_saying (codes "J 3 SETSTATE WORM--a s")) ≡ Setstate (codes "WORM--a") (codes "s") ∷ [] }
    ensures no_tag { settings (tagged_saying (codes "SETSTATE WORM--a s")) ≡ [] }
    ensures other_job { settings (tagged_saying (codes "J 4 SETSTATE WORM--a s")) ≡ [] }
    ensures asks { settings (saying (codes "GETSTATE WORM--a" ∷ [])) ≡ [] }
    ensures no_key { settings (saying (codes "SETSTATE WORM-a s" ∷ [])) ≡ [] }
{}
