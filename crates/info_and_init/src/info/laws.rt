// Laws over the definitions, each the contract of a function with nothing to do.
ghost use Rattle.std.specs.Prelude.{◌≡◌, [], ◌∷◌, Some, None, codes, true, false};
ghost use Rattle.annex_model.specs.Messages.{UnsupportedRequest, Config, Configend, Cost, Availability, Infofield, Infovalue, Infoend, WhereisSuccess, WhereisFailure};
ghost use Rattle.annex_model.specs.Messages.{ExportsupportedSuccess, ExportsupportedFailure, Listconfigs, Getcost, Getavailability, Getinfo, Exportsupported, Whereis};
ghost use Rattle.info_and_init.specs.Info.Infos.{lines_of, child_lines, is_informed, info_lines};
ghost use Rattle.info_and_init.specs.Info.Rows.{foul_cost, ended_early, lost_cost, answered, not_started};

/// What is printed of an answer.
pub fn worked_answers()
    ensures config { lines_of Listconfigs (Some (Config (codes "directory") (codes "where")) ∷ Some Configend ∷ []) ≡ codes "config directory where" ∷ [] }
    ensures no_description { lines_of Listconfigs (Some (Config (codes "a") []) ∷ Some Configend ∷ []) ≡ codes "config a " ∷ [] }
    ensures no_configs { lines_of Listconfigs (Some Configend ∷ []) ≡ [] }
    ensures cost { lines_of Getcost (Some (Cost 200) ∷ []) ≡ codes "cost 200" ∷ [] }
    ensures everywhere { lines_of Getavailability (Some (Availability true) ∷ []) ≡ codes "availability global" ∷ [] }
    ensures here { lines_of Getavailability (Some (Availability false) ∷ []) ≡ codes "availability local" ∷ [] }
    ensures unsupported { lines_of Getavailability (Some UnsupportedRequest ∷ []) ≡ codes "availability unsupported" ∷ [] }
    ensures info { lines_of Getinfo (Some (Infofield (codes "size")) ∷ Some (Infovalue (codes "5")) ∷ Some Infoend ∷ []) ≡ codes "info size=5" ∷ [] }
    ensures empty_pair { lines_of Getinfo (Some (Infofield []) ∷ Some (Infovalue []) ∷ Some Infoend ∷ []) ≡ codes "info =" ∷ [] }
    ensures exports { lines_of Exportsupported (Some ExportsupportedSuccess ∷ []) ≡ codes "export supported" ∷ [] }
    ensures no_exports { lines_of Exportsupported (Some ExportsupportedFailure ∷ []) ≡ codes "export unsupported" ∷ [] }
    ensures unknown_exports { lines_of Exportsupported (Some UnsupportedRequest ∷ []) ≡ codes "export unsupported" ∷ [] }
    ensures whereis { lines_of (Whereis (codes "WORM--a")) (Some (WhereisSuccess (codes "on the shelf")) ∷ []) ≡ codes "whereis on the shelf" ∷ [] }
    ensures nowhere { lines_of (Whereis (codes "WORM--a")) (Some WhereisFailure ∷ []) ≡ codes "whereis failure" ∷ [] }
{}

/// A child that is ended for its second answer: the first answer is printed, and the line in place of the second.
pub fn a_foul_cost()
    ensures lines { child_lines foul_cost 1 None ≡ codes "config directory where" ∷ codes "foul COST" ∷ [] }
    ensures not_informed { is_informed foul_cost 1 None ≡ false }
{}

/// A child that is gone before its second request: its end is printed in place of the answer, whether the request was lost or not
/// asked at all.
pub fn a_lost_cost()
    ensures lines { info_lines lost_cost None ≡ codes "config directory where" ∷ codes "ended eof" ∷ [] }
    ensures not_informed { is_informed lost_cost 1 None ≡ false }
    ensures not_asked { info_lines ended_early None ≡ codes "config directory where" ∷ codes "ended eof" ∷ [] }
{}

/// What was asked is answered, where each job was settled by a line; a key asks one more.
pub fn answers_inform()
    ensures informed { is_informed answered 1 None ≡ true }
    ensures more { is_informed answered 1 (Some (codes "WORM--a")) ≡ false }
    ensures not_started { info_lines not_started None ≡ codes "startfault" ∷ [] }
    ensures nothing { info_lines [] None ≡ [] }
{}
