// Each law is the contract of a function with nothing to do.
ghost use Rattle.std.specs.Prelude.{ℕ, ◌≡◌, ◌∷◌, [], List, Result, codes, true, false, map};
ghost use Rattle.ann_key.specs.declared.bytes.NoMemory.{NoMemory as WithoutMemory};
ghost use Rattle.dir_remote.specs.Guard.Guards.{GuardTold};
ghost use Rattle.dir_remote.specs.Guard.LeftFiles.{is_left};
ghost use Rattle.dir_remote.specs.Guard.Meanings.{WordsHold};
ghost use Rattle.dir_remote.specs.Guard.Sweeps.{RemovesLeft, SweepsBy, folder_of};
ghost use Rattle.dir_remote.specs.Traces.{Each};
ghost use Rattle.dir_remote.specs.declared.guard.place.Step.{Step};

/// Which names a store that was cut off leaves.
pub fn left_names()
    ensures { map is_left (codes "1.2.1-WORM--x" ∷ codes "0.0.4-WORM--a&c%" ∷ codes "417.1764622432000000.4-WORM-s3-S2-C1--x" ∷ []) ≡ true ∷ true ∷ true ∷ [] }
{}

/// A user's own names are none of these.
pub fn other_names()
    ensures words { map is_left (codes "old" ∷ codes "thesis.txt" ∷ codes "notes-WORM--x" ∷ codes "WORM--x" ∷ codes "1.2.3-thesis.txt" ∷ []) ≡ false ∷ false ∷ false ∷ false ∷ false ∷ [] }
    ensures marks { map is_left (codes "1.2-WORM--x" ∷ codes "1.2.9-WORM--x" ∷ codes "1.2.0-WORM--x" ∷ codes "01.2.3-WORM--x" ∷ codes "1.2.3.4-WORM--x" ∷ []) ≡ false ∷ false ∷ false ∷ false ∷ false ∷ [] }
    ensures files { map is_left (codes "1.2.3-WORM--a:b" ∷ codes "1.2.3-WORM--a&b" ∷ codes "1.2.3-WORM--x&" ∷ codes "1.2.3-" ∷ codes "-WORM--x" ∷ []) ≡ false ∷ false ∷ false ∷ false ∷ false ∷ [] }
{}

/// However sweeping goes, nothing else than such files is removed.
pub fn only_left_is_removed()
    ensures { (directory : List ℕ) (steps : List Step) (result : Result (Unit {0}) WithoutMemory) → SweepsBy directory steps result → Each (RemovesLeft (folder_of directory)) steps }
{}

/// What is said of a content is so.
pub fn words_hold()
    ensures { (old new : GuardTold) (key file : List ℕ) → WordsHold old new key file }
{}
