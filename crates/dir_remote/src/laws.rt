// Each law is the contract of a function with nothing to do.
ghost use Rattle.std.specs.Prelude.{ℕ, List};
ghost use Rattle.ann_outside.specs.Files.{Files};
ghost use Rattle.ann_outside.specs.declared.file_desk.Call.{Call};
ghost use Rattle.dir_remote.specs.Interleavings.{Deed, MixesWithOneMark, NeverMixed};

/// Two remotes with different marks use one directory, and their calls come in any order: no content is a mixture.
pub fn never_mixed()
    ensures { (directory mark other : List ℕ) (mine yours : List Deed) (log : List Call) (old new : Files) → NeverMixed directory mark other mine yours log old new }
{}

/// With one mark it can be: a worked case.
pub fn one_mark_mixes()
    ensures { (directory mark text name : List ℕ) → MixesWithOneMark directory mark text name }
{}
