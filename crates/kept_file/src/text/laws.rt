// Laws over kept files, each the contract of a function with nothing to do.
ghost use Rattle.std.specs.Prelude.{ℕ, ◌≡◌, ◌↔◌, List, [], ◌∷◌, ◌++◌, map, Some, None, IsTrue};
ghost use Rattle.annex_model.specs.Lines.{text};
ghost use Rattle.registers.specs.Registers.{RegisterFile};
ghost use Rattle.task_text.specs.declared.chunk_log.note.Note.{Note};
ghost use Rattle.kept_file.specs.Text.KeptFiles.{lines_in, bad_line, registers_of, notes_of, kept_text, cut_note, are_lines, is_unended, AreKeepable};
ghost use Rattle.kept_file.specs.Text.KeptLines.{KeptLine, KeptSpells, kept_reading};

/// The lines of a text are those that were put one after the other; the last may lack its end.
pub fn lines_are_cut()
    ensures ended { (lines : List (List ℕ)) → IsTrue (are_lines lines) → lines_in (text lines) ≡ lines }
    ensures unended { (lines : List (List ℕ)) (last : List ℕ) → IsTrue (are_lines lines) → IsTrue (is_unended last) → lines_in (text lines ++ last) ≡ lines ++ last ∷ [] }
{}

/// A line is read as what it spells, and as nothing else.
pub fn reading_is_spelling()
    ensures { (k : KeptLine) (line : List ℕ) → (kept_reading line ≡ Some k) ↔ KeptSpells k line }
{}

/// What is written is read: the config of the first registers, all else of the second but creds, and the notes with their
/// stamps cut to millionths of a second.
pub fn what_is_written_is_read()
    ensures right { (config now : RegisterFile) (notes : List Note) → AreKeepable config now notes → bad_line (kept_text config now notes) ≡ None }
    ensures registers { (config now : RegisterFile) (notes : List Note) → AreKeepable config now notes → registers_of (kept_text config now notes) ≡ record now { config = config.config; creds = [] } }
    ensures notes { (config now : RegisterFile) (notes : List Note) → AreKeepable config now notes → notes_of (kept_text config now notes) ≡ map cut_note notes }
{}
