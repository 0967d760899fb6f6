// A note more, at its place.
ghost use Rattle.std.specs.Prelude.{◌≡◌, OnOk, OnErr, IfOk, IsTrue};
ghost use Rattle.task_text.specs.ChunkLog.NoteBooks.{in_order, inserted, is_outdated};

use crate::chunk_log::note::Note;
use crate::chunk_log::order::is_no_later;
use ann_key::NoMemory;
use std::alloc::Global;
use std::collections::BTreeSet;

/// Whether a newer note has its place.
fn is_outdated(notes: &BTreeSet<Note>, note: &Note) -> bool
    ensures { result ≡ is_outdated note.now notes.now.keys }
{
    match notes.get(note) {
        Some(there) => !is_no_later(there.line.stamp, note.line.stamp),
        None => false,
    }
}

/// Puts the note at its place, unless the one there is newer.
pub fn insert(notes: &mut BTreeSet<Note>, note: Note) -> Result<(), NoMemory>
    requires { IsTrue (in_order notes.old.keys) }
    ensures ok { OnOk result (notes.new.keys ≡ inserted note notes.old.keys) }
    ensures err { OnErr result (notes.new.keys ≡ notes.old.keys) }
{
    if is_outdated(notes, &note) {
        return Ok(());
    }
    notes.replace(note)?;
    Ok(())
}

pub fn copies(alloc: Global, notes: &BTreeSet<Note>) -> Result<BTreeSet<Note>, NoMemory>
    requires { IsTrue (in_order notes.now.keys) }
    ensures { IfOk result (λ copies. copies.keys ≡ notes.now.keys) }
{
    let mut copies = BTreeSet::new(alloc);
    for note in notes.iter() {
        copies.insert(note.copy(alloc)?)?;
    }
    Ok(copies)
}
