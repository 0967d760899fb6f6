// The layouts that a task tries, and what it asks of the keys of each.
ghost use Rattle.std.specs.Prelude.{◌≡◌, ◌++◌, ◌∷◌, [], ◌<◌, ◌==◌, not, true, Some, None, IfOk};
ghost use Rattle.annex_model.specs.Messages.{is_sent_key};
ghost use Rattle.ann_key.specs.Keys.{key_reading};
ghost use Rattle.ann_key.specs.KeyRefs.{parts_of, text_of};
ghost use Rattle.task_text.specs.Layouts.Layouts.{count_of};
ghost use Rattle.task_model.specs.Askers.{AskAdds, IsSameTask, are_layouts};
ghost use Rattle.task_model.specs.Layouts.{chunk_sizes, keys_of_layout};
ghost use Rattle.task_model.specs.Ran.{is_verdict_of};
ghost use Rattle.task_run.specs.Rounds.{asked_by, key_at, key_count, RoundAsks};

use ann_key::{Key, KeyRef, NoMemory};
use journal_model::Verdict;
use std::alloc::Global;
use task_model::answers::is_done;
use task_model::{Asker, ask};
use task_text::chunk_log::Layouts;

/// The chunk sizes of the layouts that are tried for content of this size, in their order. The last one is 0, the plain layout.
pub fn sizes_tried(
    alloc: Global,
    size: Option<u64>,
    layouts: &Layouts,
) -> Result<Vec<u64>, NoMemory>
    requires { are_layouts layouts.now ≡ true }
    ensures { IfOk result (λ sizes. sizes.items ≡ chunk_sizes size layouts.now ++ 0 ∷ []) }
{
    let mut sizes = match size {
        Some(size) => fitting(alloc, size, layouts.view())?,
        None => Vec::new(alloc),
    };
    sizes.push(0)?;
    Ok(sizes)
}

// The chunk sizes of the layouts that have as many chunks as content of this size has.
fn fitting(alloc: Global, size: u64, layouts: &[(u64, u64)]) -> Result<Vec<u64>, NoMemory>
    requires { are_layouts layouts.now ≡ true }
    ensures { IfOk result (λ sizes. sizes.items ≡ chunk_sizes (Some size) layouts.now) }
{
    let mut sizes = Vec::new(alloc);
    for layout in layouts {
        if has_all_chunks(size, *layout) {
            sizes.push(layout.0)?;
        }
    }
    Ok(sizes)
}

fn has_all_chunks(size: u64, layout: (u64, u64)) -> bool
    requires { not (layout.0 == 0) ≡ true }
    ensures { result ≡ (layout.1 == count_of size layout.0) }
{
    layout.1 == task_text::layouts::count(size, layout.0)
}

// How many keys content of this size has in the layout.
fn key_count(size: Option<u64>, chunk: u64) -> u64
    ensures { result ≡ key_count size chunk }
{
    if chunk == 0 {
        1
    } else {
        task_text::layouts::count(size.unwrap_or(0), chunk)
    }
}

// The key of this number in the layout.
fn key_at(alloc: Global, key: KeyRef<'_>, chunk: u64, number: u64) -> Result<Key, NoMemory>
    requires whole { (parts_of key).chunk ≡ None }
    requires sent { is_sent_key (text_of key) ≡ true }
    requires number { 0 < number }
    ensures read { IfOk result (λ k. key_reading k ≡ Some (key_at (parts_of key.entry) chunk number)) }
    ensures sent { IfOk result (λ k. is_sent_key k ≡ true) }
{
    if chunk == 0 {
        Key::copy(alloc, key)
    } else {
        task_text::layouts::piece(alloc, key, chunk, number)
    }
}

/// What is asked of a key.
#[derive(Clone, Copy)]
pub enum Query {
    Present,
    Remove,
}

// Asks it of one key.
fn ask_key<A: Asker>(
    alloc: Global,
    asker: &mut A,
    number: u32,
    query: Query,
    key: KeyRef<'_>,
) -> Result<Verdict, NoMemory>
    requires task { number ≡ (A.told asker.old).task }
    requires ready { A.ready asker.old }
    requires key { is_sent_key (text_of key) ≡ true }
    ensures pairs { AskAdds (A.told asker.old).pairs (A.told asker.new).pairs None (asked_by query 1 (text_of key.entry)) result }
    ensures verdict { IfOk result (λ v. is_verdict_of (asked_by query 1 []) v ≡ true) }
    ensures notes { (A.told asker.new).notes ≡ (A.told asker.old).notes }
    ensures layouts { (A.told asker.new).current ≡ (A.told asker.old).current }
    ensures same { IsSameTask (A.told asker.old) (A.told asker.new) }
    ensures on { A.goes_on asker.old asker.new }
{
    match query {
        Query::Present => ask::present(alloc, asker, number, key),
        Query::Remove => ask::remove(alloc, asker, number, key),
    }
}

/// Asks it of the keys of one layout in their order, until one isn't done, whose verdict is answered.
pub fn ask_layout<A: Asker>(
    alloc: Global,
    asker: &mut A,
    number: u32,
    query: Query,
    key: KeyRef<'_>,
    chunk: u64,
) -> Result<Option<Verdict>, NoMemory>
    requires task { number ≡ (A.told asker.old).task }
    requires ready { A.ready asker.old }
    requires whole { (parts_of key).chunk ≡ None }
    requires sent { is_sent_key (text_of key) ≡ true }
    ensures asks { RoundAsks query (A.told asker.old).pairs (A.told asker.new).pairs (keys_of_layout (parts_of key.entry) chunk) result }
    ensures notes { (A.told asker.new).notes ≡ (A.told asker.old).notes }
    ensures layouts { (A.told asker.new).current ≡ (A.told asker.old).current }
    ensures same { IsSameTask (A.told asker.old) (A.told asker.new) }
    ensures on { A.goes_on asker.old asker.new }
{
    for at in 0..key_count(key.size(), chunk) {
        let piece = key_at(alloc, key, chunk, at + 1)?;
        let verdict = ask_key(alloc, asker, number, query, piece.view())?;
        if !is_done(verdict) {
            return Ok(Some(verdict));
        }
    }
    Ok(None)
}
