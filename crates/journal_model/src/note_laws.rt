// Laws over notes of chunks, each the contract of a function with nothing to do.
ghost use Rattle.std.specs.Prelude.{ℕ, ◌≡◌, ◌<◌, ◌++◌, List, [], ◌∷◌, true, false, Some, IsTrue};
ghost use Rattle.task_text.specs.declared.task.Task.{Task};
ghost use Rattle.task_text.specs.declared.task.Work.TheVariants.{Store, Get, Check, Drop};
ghost use Rattle.task_text.specs.ChunkLog.ChunkLines.{IsWritable, IsWrittenUuid};
ghost use Rattle.task_text.specs.ChunkLog.NoteBooks.{counting, in_order};
ghost use Rattle.task_text.specs.ChunkLog.Current.{IsCurrent};
ghost use Rattle.task_text.specs.declared.chunk_log.note.Note.{Note};
ghost use Rattle.journal_model.specs.declared.answer.Answer.TheVariants.{Stored};
ghost use Rattle.journal_model.specs.declared.entry.What.TheVariants.{Answer as Answered, Note as Noted};
ghost use Rattle.journal_model.specs.declared.entry.Entry.{Entry};
ghost use Rattle.journal_model.specs.declared.opening.Opening.{Opening};
ghost use Rattle.journal_model.specs.Journal.{each_of};
ghost use Rattle.journal_model.specs.Legality.{Legal, IsGroup, may_come};
ghost use Rattle.journal_model.specs.Notes.{stamp_of, note_of, noted, notes_at, with_notes, AreCurrentAt, GivesLayouts};
ghost use Rattle.journal_model.specs.Rows.{greeting, by_main};
ghost use Rattle.journal_model.specs.NoteRows.{content, remote, to_do, line_of, known_since, claimed, storing, stored, noting, noted_and_answered};

/// A book in order that is given the notes one by one counts as the list of all of them does, and what such a book says is current
/// is so. Two books in order in which the same lines count are one.
pub fn notes_follow()
    ensures counts { (book notes : List Note) → IsTrue (in_order book) → (key uuid : List ℕ) (chunk : ℕ) → counting (with_notes book notes) key uuid chunk ≡ counting (book ++ notes) key uuid chunk }
    ensures one { (a b : List Note) → IsTrue (in_order a) → IsTrue (in_order b) → ((key uuid : List ℕ) (chunk : ℕ) → counting a key uuid chunk ≡ counting b key uuid chunk) → a ≡ b }
    ensures order { (book notes : List Note) → IsTrue (in_order book) → IsTrue (in_order (with_notes book notes)) }
    ensures current { (o : Opening) (past : List Entry) (key : List ℕ) (layouts : List (ℕ × ℕ)) → GivesLayouts o past key layouts → AreCurrentAt o past key layouts }
{}

/// After more entries stand the notes before and then those of the entries. In a group the first entry alone may note something.
pub fn notes_grow()
    ensures grow { (o : Opening) (past more : List Entry) → notes_at o (past ++ more) ≡ notes_at o past ++ each_of (noted o) more }
    ensures group { (o : Opening) (past : List Entry) (e : Entry) (rest : List Entry) → IsGroup o past (e ∷ rest) → each_of (noted o) rest ≡ [] }
{}

/// A line that is noted can be written.
pub fn noted_line_is_writable()
    ensures { (o : Opening) (task : Task) (chunk count : ℕ) → IsWrittenUuid o.identity.uuid → 0 < chunk → IsWritable (note_of o chunk count task).line }
{}

/// Chunks are noted by the number that holds a task that changes content, while none of its jobs is open.
pub fn who_may_note()
    ensures store { may_come (to_do Store) stored 0 (Noted 1 100 2) ≡ true }
    ensures drop { may_come (to_do Drop) claimed 0 (Noted 1 100 0) ≡ true }
    ensures other_number { may_come (to_do Store) stored 3 (Noted 1 100 2) ≡ false }
    ensures check { may_come (to_do Check) claimed 0 (Noted 1 100 2) ≡ false }
    ensures get { may_come (to_do Get) claimed 0 (Noted 1 100 2) ≡ false }
    ensures no_size { may_come (to_do Store) stored 0 (Noted 1 0 2) ≡ false }
    ensures open_job { may_come (to_do Store) storing 0 (Noted 1 100 2) ≡ false }
    ensures unclaimed { may_come (to_do Store) greeting 0 (Noted 1 100 2) ≡ false }
    ensures answered { may_come (to_do Store) noted_and_answered 0 (Noted 1 100 2) ≡ false }
    ensures other_task { may_come (to_do Store) stored 0 (Noted 2 100 2) ≡ false }
    ensures legal { Legal (to_do Store) noted_and_answered }
{}

/// A note has its task's key, the remote's UUID and the run's stamp. It counts over an older line and over one of the same time,
/// and gives way to a newer one.
pub fn worked_notes()
    ensures stamp { stamp_of 1287290776765152 ≡ record { seconds = 1287290776; nanos = 765152000 } }
    ensures one { notes_at (to_do Store) (noting 2) ≡ record { key = content; line = line_of 1700000000000000 100 2 } ∷ [] }
    ensures before { notes_at (known_since 5 Store) stored ≡ record { key = content; line = line_of 5 100 2 } ∷ [] }
    ensures over_older { counting (notes_at (known_since 5 Store) (noting 7)) content remote 100 ≡ Some (line_of 1700000000000000 100 7) }
    ensures at_a_tie { counting (notes_at (known_since 1700000000000000 Store) (noting 7)) content remote 100 ≡ Some (line_of 1700000000000000 100 7) }
    ensures under_newer { counting (notes_at (known_since 1700000000000001 Store) (noting 7)) content remote 100 ≡ Some (line_of 1700000000000001 100 2) }
    ensures twice { counting (notes_at (to_do Store) (noting 2 ++ by_main (Noted 1 100 3) ∷ [])) content remote 100 ≡ Some (line_of 1700000000000000 100 3) }
{}
