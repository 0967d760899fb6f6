// The layouts in which a remote has chunks of a key.
ghost use Rattle.std.specs.Prelude.{◌≡◌, ◌≤◌, ◌∷◌, [], length, IfOk, IsTrue, OnOk, map};
ghost use Rattle.std.specs.List.{position_or_len};
ghost use Rattle.ann_key.specs.KeyRefs.{text_of};
ghost use Rattle.task_text.specs.ChunkLog.Current.{first_place, is_at, is_current, in_rank, layout_of, layouts_of, ranked, ranked_all, standing_of, standings_of, stands_before};
ghost use Rattle.task_text.specs.ChunkLog.NoteBooks.{in_order};

use crate::chunk_log::layouts::Layouts;
use crate::chunk_log::note::Note;
use crate::chunk_log::standing::Standing;
use ann_key::{KeyRef, NoMemory};
use std::alloc::Global;
use std::collections::BTreeSet;

fn is_at(note: &Note, key: &[u8], uuid: &[u8]) -> bool
    ensures { result ≡ is_at key.now uuid.now note.now }
{
    note.key.bytes() == key && note.line.uuid.view().as_bytes() == uuid
}

fn is_current(note: &Note, key: &[u8], uuid: &[u8]) -> bool
    ensures { result ≡ is_current key.now uuid.now note.now }
{
    is_at(note, key, uuid) && note.line.count != 0
}

fn standing_of(note: &Note) -> Standing
    ensures { result ≡ standing_of note.now }
{
    Standing {
        stamp: note.line.stamp,
        chunk: note.line.chunk,
        count: note.line.count,
    }
}

fn place_of(others: &[Standing], one: &Standing) -> usize
    ensures value { result ≡ position_or_len (stands_before one.now) others.now }
    ensures bound { result ≤ length others.now }
{
    others
        .iter()
        .take_while(|other| !one.stands_before(other))
        .count()
}

fn rank(others: &mut Vec<Standing>, one: Standing) -> Result<(), NoMemory>
    ensures { OnOk result (others.new.items ≡ ranked one others.old.items) }
{
    let at = place_of(others, &one);
    others.insert(at, one)?;
    Ok(())
}

fn rank_current(
    others: &mut Vec<Standing>,
    note: &Note,
    key: &[u8],
    uuid: &[u8],
) -> Result<(), NoMemory>
    ensures { OnOk result (others.new.items ≡ ranked_all (standings_of (note.now ∷ []) key.now uuid.now) others.old.items) }
{
    if is_current(note, key, uuid) {
        rank(others, standing_of(note))
    } else {
        Ok(())
    }
}

/// What stands of the key at the remote, in order. Its notes stand together, and the first place is before them.
fn ranks(
    alloc: Global,
    notes: &BTreeSet<Note>,
    first: Note,
    key: &[u8],
    uuid: &[u8],
) -> Result<Vec<Standing>, NoMemory>
    requires order { IsTrue (in_order notes.now.keys) }
    requires first { first ≡ first_place key.now uuid.now }
    ensures { IfOk result (λ ranks. ranks.items ≡ in_rank (standings_of notes.now.keys key.now uuid.now)) }
{
    let mut ranks = Vec::new(alloc);
    for note in notes.range(first..) {
        if !is_at(note, key, uuid) {
            return Ok(ranks);
        }
        rank_current(&mut ranks, note, key, uuid)?;
    }
    Ok(ranks)
}

#[tactic(auto, unfolding(crate::specs::ChunkLog::Current::layouts_of))]
pub fn current(
    alloc: Global,
    notes: &BTreeSet<Note>,
    key: KeyRef<'_>,
    uuid: &str,
) -> Result<Layouts, NoMemory>
    requires { IsTrue (in_order notes.now.keys) }
    ensures { IfOk result (λ layouts. layouts ≡ layouts_of notes.now.keys (text_of key.entry) uuid.now) }
{
    let first = Note::first(alloc, key, uuid)?;
    let ranks = ranks(alloc, notes, first, key.text(), uuid.as_bytes())?;
    pairs(alloc, ranks.as_slice())
}

fn pairs(alloc: Global, ranks: &[Standing]) -> Result<Layouts, NoMemory>
    ensures { IfOk result (λ layouts. layouts ≡ map layout_of ranks.now) }
{
    let mut items = Vec::new(alloc);
    for one in ranks {
        items.push((one.chunk, one.count))?;
    }
    Ok(Layouts::new(items))
}
