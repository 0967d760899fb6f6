// Which lines of a chunk log count.
ghost use Rattle.std.specs.Prelude.{◌≡◌, ◌≤◌, ◌<◌, ℕ, List, [], ◌∷◌, ◌++◌, length, map, slice_get, true, false, not, OnOk, OnErr, IfOk, IsTrue, MatchOption, Some, None, option_map, All};
ghost use Rattle.std.specs.List.{list_any, prefix_len};
ghost use Rattle.task_text.specs.ChunkLog.ChunkLines.{is_space, IsWritable};
ghost use Rattle.ann_key.specs.KeyRefs.{text_of};

use crate::chunk_log::current::current;
use crate::chunk_log::insert::{copies, insert};
use crate::chunk_log::key_text::KeyText;
use crate::chunk_log::layouts::Layouts;
use crate::chunk_log::line::ChunkLine;
use crate::chunk_log::note::Note;
use ann_key::{KeyRef, NoMemory};
use std::alloc::Global;
use std::collections::BTreeSet;
use std::marker::Model;

/// The lines that count: of each key, UUID and chunk size the newest one, at a tie the one that was added last.
#[derive(Drop)]
pub struct NoteBook {
    alloc: Global,
    notes: BTreeSet<Note>,
}

impl Model for NoteBook {
    ghost use Rattle.std.specs.Prelude.{List, IsTrue, All};
    ghost use Rattle.task_text.specs.declared.chunk_log.note.Note.{Note};

    ghost Value = { List Note };

    ghost use Rattle.task_text.specs.ChunkLog.NoteBooks.{in_order, IsNote};

    ghost view = { λ b. b.notes.keys };

    ghost invariant = { λ b. IsTrue (in_order b.notes.keys) × All IsNote b.notes.keys };
}

impl NoteBook {
    ghost use Rattle.task_text.specs.ChunkLog.NoteBooks.{CountsAs, counting, in_order, inserted, IsNote};
    ghost use Rattle.task_text.specs.ChunkLog.Current.{layouts_of};
    ghost use Rattle.task_text.specs.declared.chunk_log.note.Note.{Note};

    /// No line. It takes no memory.
    pub fn new(alloc: Global) -> NoteBook
        ensures { result ≡ [] }
    {
        NoteBook {
            alloc,
            notes: BTreeSet::new(alloc),
        }
    }

    /// Adds a line of a key.
    pub fn add(&mut self, key: KeyRef<'_>, line: ChunkLine) -> Result<(), NoMemory>
        requires key { list_any is_space (text_of key) ≡ true → ⊥ }
        requires line { IsWritable line }
        ensures inserted { OnOk result (self.new ≡ inserted (record { key = text_of key.entry; line = line }) self.old) }
        ensures counts { OnOk result (CountsAs self.new (self.old ++ record { key = text_of key.entry; line = line } ∷ [])) }
        ensures err { OnErr result (self.new ≡ self.old) }
    {
        let key = KeyText::copy(self.alloc, key)?;
        insert(&mut self.notes, Note { key, line })
    }

    /// An equal book.
    pub fn copy(&self) -> Result<NoteBook, NoMemory>
        ensures { IfOk result (λ book. book ≡ self.now) }
    {
        let alloc = self.alloc;
        let notes = copies(alloc, &self.notes)?;
        Ok(NoteBook { alloc, notes })
    }

    /// How many lines there are. It takes no memory.
    pub fn len(&self) -> usize
        ensures { result ≡ length self.now }
    {
        self.notes.len()
    }

    /// The nth line, by key text, then UUID, then chunk size. It takes no memory.
    pub fn line(&self, n: usize) -> Option<(KeyRef<'_>, &ChunkLine)>
        ensures nth { option_map (λ line. record { key = text_of line.0; line = line.1.now }) result ≡ slice_get self.now n }
        ensures order { IsTrue (in_order self.now) }
        ensures notes { All IsNote self.now }
    {
        let note = self.notes.iter().nth(n)?;
        Some((note.key(), note.line()))
    }

    /// All lines with their keys, lent, in that order: one pass, where `line` counts from the first each time.
    pub fn lines(&self) -> Result<Vec<&Note>, NoMemory>
        ensures lines { IfOk result (λ lines. map (λ note. note.now) lines.items ≡ self.now) }
        ensures notes { All IsNote self.now }
    {
        let mut lines = Vec::new(self.alloc);
        for note in self.notes.iter() {
            lines.push(note)?;
        }
        Ok(lines)
    }

    /// The layouts in which the remote has chunks of the key: the newest first, then the largest chunks.
    pub fn current(&self, key: KeyRef<'_>, uuid: &str) -> Result<Layouts, NoMemory>
        ensures { IfOk result (λ layouts. layouts ≡ layouts_of self.now (text_of key.entry) uuid.now) }
    {
        current(self.alloc, &self.notes, key, uuid)
    }
}
