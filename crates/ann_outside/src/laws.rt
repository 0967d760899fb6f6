// What may be played on files, of worked calls. Each law is the contract of a function with nothing to do.
ghost use Rattle.std.specs.Prelude.{[], ◌∷◌, codes, Ok};
ghost use Rattle.ann_outside.specs.Played.{Played};
ghost use Rattle.ann_outside.specs.PlayRows.{holding, fills_ab, adds_cd, fails_to_add};
ghost use Rattle.ann_outside.specs.declared.file_desk.Call.TheVariants.{Size, ReadAt};

/// Calls are played on files that hold what they found, and make what they say; a failed one may have added a part.
pub fn plays()
    ensures filled { Played fills_ab [] (holding (codes "ab")) }
    ensures added { Played adds_cd (holding (codes "ab")) (holding (codes "abcd")) }
    ensures part { Played fails_to_add (holding (codes "ab")) (holding (codes "abc")) }
    ensures nothing { Played [] (holding (codes "ab")) (holding (codes "ab")) }
{}

/// No file holds other bytes than its calls put there, and none found what isn't there.
pub fn plays_no_other()
    ensures other { Played fills_ab [] (holding (codes "abc")) → ⊥ }
    ensures unmade { Played adds_cd [] (holding (codes "cd")) → ⊥ }
    ensures another_part { Played fails_to_add (holding (codes "ab")) (holding (codes "abd")) → ⊥ }
    ensures nothing { Played [] [] (holding (codes "ab")) → ⊥ }
    ensures other_length { Played (Size (codes "o") (Ok 3) ∷ []) (holding (codes "ab")) (holding (codes "ab")) → ⊥ }
    ensures other_bytes { Played (ReadAt (codes "o") 0 (Ok (codes "b")) ∷ []) (holding (codes "ab")) (holding (codes "ab")) → ⊥ }
{}
