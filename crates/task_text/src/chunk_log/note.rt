// A line of a key.
ghost use Rattle.std.specs.Prelude.{◌≡◌, IfOk, refl};
ghost use Rattle.std.specs.Cmp.{eq_by_cmp_equiv, partial_equiv_from_equiv, partial_order_from_agreeing_total};
ghost use Rattle.std.specs.Ordering.{as_partial_cmp, eq_by_cmp};
ghost use Rattle.ann_key.specs.KeyRefs.{text_of};
ghost use Rattle.task_text.specs.ChunkLog.Current.{first_place};
ghost use Rattle.task_text.specs.ChunkLog.NoteBooks.{place_cmp};
ghost use Rattle.task_text.specs.ChunkLog.Places.{places_ordered};

use crate::chunk_log::key_text::KeyText;
use crate::chunk_log::line::ChunkLine;
use crate::chunk_log::stamp::Stamp;
use ann_key::{KeyRef, NoMemory, Text};
use std::alloc::Global;
use std::cmp::Ordering;

/// A line and the key that it is of. Two compare by their places alone: by key text, then UUID, then chunk size.
#[derive(Drop)]
pub struct Note {
    pub(crate) key: KeyText,
    pub(crate) line: ChunkLine,
}

impl Note {
    /// The key. It takes no memory.
    pub fn key(&self) -> KeyRef<'_>
        ensures { text_of result ≡ self.now.key }
    {
        self.key.read()
    }

    /// The line. It takes no memory.
    pub fn line(&self) -> &ChunkLine
        ensures { result.now ≡ self.now.line }
    {
        &self.line
    }

    /// What stands before each note of the key at the remote.
    pub(crate) fn first(alloc: Global, key: KeyRef<'_>, uuid: &str) -> Result<Note, NoMemory>
        ensures { IfOk result (λ note. note ≡ first_place (text_of key.entry) uuid.now) }
    {
        let key = KeyText::copy(alloc, key)?;
        let uuid = Text::copy(alloc, uuid)?;
        let line = ChunkLine {
            stamp: Stamp {
                seconds: 0,
                nanos: 0,
            },
            uuid,
            chunk: 0,
            count: 0,
        };
        Ok(Note { key, line })
    }

    pub(crate) fn copy(&self, alloc: Global) -> Result<Note, NoMemory>
        ensures { IfOk result (λ note. note ≡ self.now) }
    {
        let key = KeyText::copy(alloc, self.key.read())?;
        let uuid = Text::copy(alloc, self.line.uuid.view())?;
        let line = ChunkLine {
            stamp: self.line.stamp,
            uuid,
            chunk: self.line.chunk,
            count: self.line.count,
        };
        Ok(Note { key, line })
    }
}

impl PartialEq for Note {
    ghost eq = { eq_by_cmp place_cmp };

    ghost laws = { partial_equiv_from_equiv (eq_by_cmp_equiv places_ordered) };

    fn eq(&self, other: &Note) -> bool {
        self.cmp(other).is_eq()
    }
}

impl Eq for Note {
    ghost laws = { eq_by_cmp_equiv places_ordered };
}

impl PartialOrd for Note {
    ghost partial_cmp = { as_partial_cmp place_cmp };

    ghost laws = { partial_order_from_agreeing_total place_cmp places_ordered (λ x y. refl) (λ x y. refl) };

    fn partial_cmp(&self, other: &Note) -> Option<Ordering> {
        Some(self.cmp(other))
    }
}

impl Ord for Note {
    ghost cmp = { place_cmp };

    ghost total = { places_ordered };

    ghost matches_partial_cmp = { λ x y. refl };

    ghost matches_eq = { λ x y. refl };

    fn cmp(&self, other: &Note) -> Ordering {
        let key = self.key.bytes().cmp(other.key.bytes());
        let uuid = self
            .line
            .uuid
            .view()
            .as_bytes()
            .cmp(other.line.uuid.view().as_bytes());
        key.then(uuid).then(self.line.chunk.cmp(&other.line.chunk))
    }
}
