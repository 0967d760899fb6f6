// Laws over whole texts, each the contract of a function with nothing to do.
ghost use Rattle.std.specs.Prelude.{◌≡◌, ℕ, List, [], ◌∷◌, ◌++◌, length, codes, true, IsTrue};
ghost use Rattle.task_text.specs.ChunkLog.NoteBooks.{in_order};
ghost use Rattle.journal_text.specs.Lines.JournalTexts.{Told, journal_lines, told, told_lines};
ghost use Rattle.journal_model.specs.declared.answer.Answer.TheVariants.{Unsent};
ghost use Rattle.journal_model.specs.declared.entry.Entry.{Entry};
ghost use Rattle.journal_model.specs.declared.entry.What.TheVariants.{Again};
ghost use Rattle.journal_model.specs.declared.opening.Opening.{Opening};
ghost use Rattle.journal_reader.specs.Openings.{CanBeTold, IsReadBack, IsTellable, as_told};
ghost use Rattle.journal_reader.specs.Readings.{Reading, Goes, CannotGo, nothing_told, start};
ghost use Rattle.journal_reader.specs.RunTexts.{Begins, IsTold};
ghost use Rattle.journal_reader.specs.Runs.{IsOpeningOf, Reads};
ghost use Rattle.journal_reader.specs.declared.place.Place.TheVariants as at;

/// Lines that were taken one after the other, up to the end, are the whole text of what they tell.
pub fn what_is_taken_is_a_text()
    ensures told { (lines : List (List ℕ)) (r : Reading) → Reads start lines r → r.place ≡ at.Over → IsTold r.told }
    ensures lines { (lines : List (List ℕ)) (r : Reading) → Reads start lines r → r.place ≡ at.Over → told_lines r.told ≡ lines }
    ensures counted { (lines : List (List ℕ)) (r : Reading) → Reads start lines r → r.taken ≡ length lines }
{}

/// Each whole text is taken to its end, and then what it tells was told.
pub fn each_text_is_taken()
    ensures { (t : Told) → IsTold t → (n : ℕ) × Reads start (told_lines t) (record { place = at.Over; taken = n; told = t }) }
{}

/// Lines that were taken one after the other begin a whole text.
pub fn what_is_taken_begins_a_text()
    ensures { (lines : List (List ℕ)) (r : Reading) → Reads start lines r → Begins lines }
{}

/// A line that can't follow those that were taken stands after them in no whole text.
pub fn what_is_refused_is_in_no_text()
    ensures { (lines : List (List ℕ)) (r : Reading) (line : List ℕ) → Reads start lines r → CannotGo r.place r.told line → Begins (lines ++ line ∷ []) → ⊥ }
{}

/// What is written of an opening and a journal is a whole text, and is read as that opening: users and passwords are left out,
/// and the stamps of notes are cut to microseconds.
pub fn what_is_written_is_read()
    ensures text { (o : Opening) (journal : List Entry) → CanBeTold o journal → IsTold (told o journal) }
    ensures opening { (o read : Opening) (journal : List Entry) → IsTellable o → IsTrue (in_order read.notes) → IsOpeningOf read (told o journal) → IsReadBack read o }
{}

/// One text tells one run: lines that are the whole text of two things are that of one, and two runs that are written alike are alike, but
/// for users and passwords and for parts of a microsecond in the stamps of notes.
pub fn one_text_tells_one_run()
    ensures told { (t u : Told) → IsTold t → IsTold u → told_lines t ≡ told_lines u → t ≡ u }
    ensures run { (o p : Opening) (a b : List Entry) → CanBeTold o a → CanBeTold p b → journal_lines o a ≡ journal_lines p b → (as_told o ≡ as_told p) × (a ≡ b) }
{}

/// Each text says after its stamp how often a task may be run again. A text with the head of before doesn't, and holds no Again.
pub fn lines_on_runs()
    ensures head { Goes at.Head nothing_told (codes "annex-journal 2") at.Uuid nothing_told }
    ensures early_head { Goes at.Head nothing_told (codes "annex-journal 1") at.Uuid (record nothing_told { early = true }) }
    ensures no_head { CannotGo at.Head nothing_told (codes "annex-journal 3") }
    ensures most { Goes at.Again nothing_told (codes "again 8") at.Given (record nothing_told { again = 8 }) }
    ensures too_many { CannotGo at.Again nothing_told (codes "again 9") }
    ensures missing { CannotGo at.Again nothing_told (codes "begin") }
    ensures early { (t : Told) → CannotGo at.Given t (codes "again 0") }
    ensures entry { Goes at.Entries nothing_told (codes "0 again 1 unsent") at.Entries (record nothing_told { entries = record { by = 0; what = Again 1 Unsent } ∷ [] }) }
    ensures early_entry { CannotGo at.Entries (record nothing_told { early = true }) (codes "0 again 1 unsent") }
{}
