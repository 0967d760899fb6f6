// Storing content in chunks.
ghost use Rattle.std.specs.Prelude.{◌≡◌, ◌≤◌, ◌<◌, ◌+◌, ◌^◌, [], Ok, IfOk, length, true, false};
ghost use Rattle.ann_key.specs.Keys.{with_chunk};
ghost use Rattle.ann_key.specs.KeyRefs.{parts_of};
ghost use Rattle.annex_model.specs.Lines.{has_newline};
ghost use Rattle.annex_model.specs.Messages.{Checkpresent, Transfer};
ghost use Rattle.ann_outside.specs.Calls.{logged};
ghost use Rattle.ann_outside.specs.declared.file_desk.Call.TheVariants.{Remove};
ghost use Rattle.task_text.specs.Layouts.Layouts.{count_of, from_of, to_of};
ghost use Rattle.task_text.specs.TaskLines.{IsTask};
ghost use Rattle.task_text.specs.declared.task.Work.TheVariants as W;
ghost use Rattle.task_model.specs.Askers.{IsSameTask};
ghost use Rattle.task_model.specs.Checks.{present_request};
ghost use Rattle.task_run.specs.Store.ChunkStoring.{AsksNext, from_file, Seeks, StoresChunk, CopiesChunk, SettlesChunk, StoresFrom, StoresSized, StandsAs, IsQuiet, NotesChunks, removal_result, so_far};
ghost use Rattle.task_model.specs.Fetching.{Outcome};
ghost use Rattle.task_model.specs.Names.{chunk_file};
ghost use Rattle.task_model.specs.Ran.{RanStore, IsInChunks, HasQuietCauses, is_verdict_of, may_follow_refusal};

use crate::store::stores::{Chunk, Store};
use ann_key::NoMemory;
use ann_outside::{Desk, DeskError};
use journal_model::{Answer, Verdict};
use std::alloc::Global;
use task_model::answers::refused;
use task_model::copying::{Copied, copy_out};
use task_model::names::chunk_name;
use task_model::{Asker, Setup, TaskTurn, ask};
use task_text::Task;
use task_text::layouts::{count, piece, range};

// What a remote has of a key's chunks, or how asking for them ended the task.
pub enum Sought {
    All,
    /// The first that isn't there stands after so many.
    Missing(u64),
    Over(Answer),
}

// What a verdict says of one chunk.
pub enum Standing {
    There,
    Missing,
    Over(Answer),
}

fn said_of(verdict: Verdict) -> Standing
    requires { is_verdict_of (Checkpresent []) verdict ≡ true }
    ensures said { StandsAs verdict result }
{
    match verdict {
        Verdict::Done { .. } => Standing::There,
        Verdict::Absent { .. } | Verdict::Unknown { .. } | Verdict::Unsupported { .. } => {
            Standing::Missing
        }
        Verdict::Ended { why } => Standing::Over(Answer::Ended { why }),
        Verdict::Unsent => Standing::Over(Answer::Unsent),
        Verdict::Failed { .. } => unreachable!(),
    }
}

// Whether the nth chunk is there.
fn ask_there<A: Asker>(
    alloc: Global,
    asker: &mut A,
    store: Store<'_>,
    n: u64,
) -> Result<Verdict, NoMemory>
    requires task { store.turn.task ≡ (A.told asker.old).task }
    requires ready { A.ready asker.old }
    requires first { 0 < n }
    ensures pairs { AsksNext present_request (with_chunk store.entry.setup.now.chunk n (parts_of store.entry.key)) (A.told asker.old).pairs (A.told asker.new).pairs result }
    ensures verdict { IfOk result (λ v. is_verdict_of (Checkpresent []) v ≡ true) }
    ensures notes { (A.told asker.new).notes ≡ (A.told asker.old).notes }
    ensures same { IsSameTask (A.told asker.old) (A.told asker.new) }
    ensures on { A.goes_on asker.old asker.new }
{
    let key = piece(alloc, store.key, store.setup.chunk, n)?;
    ask::present(alloc, asker, store.turn.task, key.view())
}

// That the nth chunk be stored from the named file.
fn ask_stored<A: Asker>(
    alloc: Global,
    asker: &mut A,
    store: Store<'_>,
    n: u64,
    name: &str,
) -> Result<Verdict, NoMemory>
    requires task { store.turn.task ≡ (A.told asker.old).task }
    requires ready { A.ready asker.old }
    requires first { 0 < n }
    requires line { has_newline name.now ≡ false }
    ensures pairs { AsksNext (from_file name.now) (with_chunk store.entry.setup.now.chunk n (parts_of store.entry.key)) (A.told asker.old).pairs (A.told asker.new).pairs result }
    ensures verdict { IfOk result (λ v. is_verdict_of (Transfer true [] []) v ≡ true) }
    ensures notes { (A.told asker.new).notes ≡ (A.told asker.old).notes }
    ensures same { IsSameTask (A.told asker.old) (A.told asker.new) }
    ensures on { A.goes_on asker.old asker.new }
{
    let key = piece(alloc, store.key, store.setup.chunk, n)?;
    ask::transfer(alloc, asker, store.turn.task, true, key.view(), name)
}

// Asks for the chunks in their order, until one isn't there.
fn seek<A: Asker>(
    alloc: Global,
    asker: &mut A,
    store: Store<'_>,
    count: u64,
) -> Result<Sought, NoMemory>
    requires task { store.turn.task ≡ (A.told asker.old).task }
    requires ready { A.ready asker.old }
    ensures pairs { Seeks (parts_of store.entry.key) store.entry.setup.now.chunk count (A.told asker.old).pairs (A.told asker.new).pairs result }
    ensures answer { IfOk result (λ sought. IsQuiet sought) }
    ensures notes { (A.told asker.new).notes ≡ (A.told asker.old).notes }
    ensures same { IsSameTask (A.told asker.old) (A.told asker.new) }
    ensures on { A.goes_on asker.old asker.new }
{
    let mut there = 0;
    while there < count {
        let verdict = ask_there(alloc, asker, store, there + 1)?;
        match said_of(verdict) {
            Standing::There => there += 1,
            Standing::Missing => return Ok(Sought::Missing(there)),
            Standing::Over(answer) => return Ok(Sought::Over(answer)),
        }
    }
    Ok(Sought::All)
}

// Copies a chunk to a file of its own. There is no answer where it is whole.
fn copy_chunk<D: Desk>(
    alloc: Global,
    desk: &mut D,
    file: &str,
    from: u64,
    to: u64,
    name: &str,
) -> Result<Option<Answer>, NoMemory>
    requires { from ≤ to }
    ensures copied { CopiesChunk file.now name.now from to (D.told desk.old).log (D.told desk.new).log result }
    ensures causes { HasQuietCauses (D.told desk.old).counts (D.told desk.new).counts (so_far result) }
{
    match copy_out(alloc, desk, file, from, to, name)? {
        Copied::Done(n) => {
            if n < to - from {
                Ok(Some(Answer::Size { bytes: n }))
            } else {
                Ok(None)
            }
        }
        Copied::Fault => Ok(Some(Answer::FileFault)),
        Copied::Missing => Ok(Some(Answer::NoFile)),
    }
}

// Removes the file of a chunk, and gives what is said then.
fn remove_chunk<D: Desk>(
    desk: &mut D,
    name: &str,
    said: Option<Answer>,
) -> Result<Option<Answer>, NoMemory>
    requires { may_follow_refusal (so_far (Ok said)) ≡ false }
    ensures calls { (r : Outcome) × ((D.told desk.new).log ≡ logged (D.told desk.old).log (Remove name.now r)) × (result ≡ removal_result said r) }
    ensures causes { HasQuietCauses (D.told desk.old).counts (D.told desk.new).counts (so_far result) }
{
    match desk.remove(name) {
        Ok(()) => Ok(said),
        Err(DeskError::Failed) => Ok(Some(Answer::FileFault)),
        Err(DeskError::Missing) => Ok(Some(Answer::NoFile)),
        Err(DeskError::NoMemory) => Err(NoMemory),
    }
}

// What the verdict of a chunk's request says. After done and failed the chunk's file goes.
fn settle_chunk<D: Desk>(
    desk: &mut D,
    name: &str,
    verdict: Verdict,
) -> Result<Option<Answer>, NoMemory>
    requires { is_verdict_of (Transfer true [] []) verdict ≡ true }
    ensures settled { SettlesChunk name.now verdict (D.told desk.old).log (D.told desk.new).log result }
    ensures causes { HasQuietCauses (D.told desk.old).counts (D.told desk.new).counts (so_far result) }
{
    match verdict {
        Verdict::Done { .. } => remove_chunk(desk, name, None),
        Verdict::Failed { at } => remove_chunk(desk, name, Some(Answer::Failed { at })),
        Verdict::Unsupported { .. } => Ok(Some(Answer::Unsupported)),
        Verdict::Ended { why } => Ok(Some(Answer::Ended { why })),
        Verdict::Unsent => Ok(Some(Answer::Unsent)),
        Verdict::Absent { .. } | Verdict::Unknown { .. } => unreachable!(),
    }
}

// Stores one chunk, by a file of its own.
fn store_copied<A: Asker, D: Desk>(
    alloc: Global,
    store: Store<'_>,
    chunk: Chunk<'_>,
    asker: &mut A,
    desk: &mut D,
) -> Result<Option<Answer>, NoMemory>
    requires range { chunk.from ≤ chunk.to }
    requires first { 0 < chunk.number }
    requires line { has_newline chunk.name.now ≡ false }
    requires task { store.turn.task ≡ (A.told asker.old).task }
    requires ready { A.ready asker.old }
    ensures stored { StoresChunk store.entry.file.now chunk.entry.name.now chunk.entry.from chunk.entry.to (with_chunk store.entry.setup.now.chunk chunk.entry.number (parts_of store.entry.key))
        (A.told asker.old).pairs (A.told asker.new).pairs (D.told desk.old).log (D.told desk.new).log result }
    ensures notes { (A.told asker.new).notes ≡ (A.told asker.old).notes }
    ensures same { IsSameTask (A.told asker.old) (A.told asker.new) }
    ensures on { A.goes_on asker.old asker.new }
    ensures causes { HasQuietCauses (D.told desk.old).counts (D.told desk.new).counts (so_far result) }
{
    match copy_chunk(alloc, desk, store.file, chunk.from, chunk.to, chunk.name)? {
        None => {
            let verdict = ask_stored(alloc, asker, store, chunk.number, chunk.name)?;
            settle_chunk(desk, chunk.name, verdict)
        }
        Some(answer) => Ok(Some(answer)),
    }
}

// Stores the nth chunk. Its request is the one after as many as chunks stand before it, and the question that found one missing.
fn store_chunk<A: Asker, D: Desk>(
    alloc: Global,
    store: Store<'_>,
    n: u64,
    asker: &mut A,
    desk: &mut D,
) -> Result<Option<Answer>, NoMemory>
    requires task { store.turn.task ≡ (A.told asker.old).task }
    requires ready { A.ready asker.old }
    requires first { 0 < n }
    requires last { n ≤ count_of store.size store.setup.now.chunk }
    requires small { n + 1 < 2 ^ 64 }
    ensures stored { StoresChunk store.entry.file.now (chunk_file store.entry.setup.now store.entry.turn (n + 1))
        (from_of store.entry.setup.now.chunk n) (to_of store.entry.size store.entry.setup.now.chunk n)
        (with_chunk store.entry.setup.now.chunk n (parts_of store.entry.key)) (A.told asker.old).pairs (A.told asker.new).pairs (D.told desk.old).log (D.told desk.new).log result }
    ensures notes { (A.told asker.new).notes ≡ (A.told asker.old).notes }
    ensures same { IsSameTask (A.told asker.old) (A.told asker.new) }
    ensures on { A.goes_on asker.old asker.new }
    ensures causes { HasQuietCauses (D.told desk.old).counts (D.told desk.new).counts (so_far result) }
{
    let name = chunk_name(alloc, store.setup, store.turn, n + 1)?;
    let (from, to) = range(store.size, store.setup.chunk, n);
    let chunk = Chunk {
        number: n,
        from,
        to,
        name: name.view(),
    };
    store_copied(alloc, store, chunk, asker, desk)
}

// Notes that the chunks are there.
fn note_chunks<A: Asker>(
    asker: &mut A,
    number: u32,
    chunk: u64,
    count: u64,
) -> Result<Answer, NoMemory>
    requires task { number ≡ (A.told asker.old).task }
    requires ready { A.ready asker.old }
    requires may { (A.told asker.old).may_note ≡ true }
    requires chunk { 0 < chunk }
    ensures notes { NotesChunks chunk count (length (A.told asker.old).pairs) (A.told asker.old).notes (A.told asker.new).notes result }
    ensures pairs { (A.told asker.new).pairs ≡ (A.told asker.old).pairs }
    ensures same { IsSameTask (A.told asker.old) (A.told asker.new) }
    ensures on { A.goes_on asker.old asker.new }
{
    asker.note(number, chunk, count)?;
    Ok(Answer::Stored)
}

// Stores the chunks after the first n, and notes them all.
fn store_from<A: Asker, D: Desk>(
    alloc: Global,
    store: Store<'_>,
    n: u64,
    asker: &mut A,
    desk: &mut D,
) -> Result<Answer, NoMemory>
    requires task { store.turn.task ≡ (A.told asker.old).task }
    requires ready { A.ready asker.old }
    requires may { (A.told asker.old).may_note ≡ true }
    requires missing { n < count_of store.size store.setup.now.chunk }
    requires small { count_of store.size store.setup.now.chunk + 1 < 2 ^ 64 }
    ensures stored { StoresFrom store.entry.setup.now store.entry.turn (parts_of store.entry.key) store.entry.file.now store.entry.size n (A.told asker.old).pairs (A.told asker.new).pairs
        (A.told asker.old).notes (A.told asker.new).notes (D.told desk.old).log (D.told desk.new).log result }
    ensures same { IsSameTask (A.told asker.old) (A.told asker.new) }
    ensures on { A.goes_on asker.old asker.new }
    ensures causes { HasQuietCauses (D.told desk.old).counts (D.told desk.new).counts result }
{
    let all = count(store.size, store.setup.chunk);
    let mut stored = n;
    while stored < all {
        match store_chunk(alloc, store, stored + 1, asker, desk)? {
            None => stored += 1,
            Some(answer) => return Ok(answer),
        }
    }
    note_chunks(asker, store.turn.task, store.setup.chunk, all)
}

// Stores what is missing of the content, which has the key's size.
fn store_missing<A: Asker, D: Desk>(
    alloc: Global,
    store: Store<'_>,
    asker: &mut A,
    desk: &mut D,
) -> Result<Answer, NoMemory>
    requires task { store.turn.task ≡ (A.told asker.old).task }
    requires ready { A.ready asker.old }
    requires may { (A.told asker.old).may_note ≡ true }
    ensures stored { StoresSized store.entry.setup.now store.entry.turn (parts_of store.entry.key) store.entry.file.now store.entry.size (A.told asker.old).pairs (A.told asker.new).pairs
        (A.told asker.old).notes (A.told asker.new).notes (D.told desk.old).log (D.told desk.new).log result }
    ensures same { IsSameTask (A.told asker.old) (A.told asker.new) }
    ensures on { A.goes_on asker.old asker.new }
    ensures causes { HasQuietCauses (D.told desk.old).counts (D.told desk.new).counts result }
{
    let chunk = store.setup.chunk;
    let all = count(store.size, chunk);
    // No memory holds the requests of so many chunks.
    if all > u64::MAX - 2 {
        return Err(NoMemory);
    }
    match seek(alloc, asker, store, all)? {
        Sought::All => note_chunks(asker, store.turn.task, chunk, all),
        Sought::Missing(n) => store_from(alloc, store, n, asker, desk),
        Sought::Over(answer) => Ok(answer),
    }
}

/// Has the file stored as those of the key's chunks that the remote hasn't, if it has the key's size.
pub fn store_chunks<A: Asker, D: Desk>(
    alloc: Global,
    task: &Task,
    turn: TaskTurn,
    setup: &Setup,
    asker: &mut A,
    desk: &mut D,
) -> Result<Answer, NoMemory>
    requires task { IsTask task.now }
    requires work { task.now.work ≡ W.Store }
    requires folder { has_newline setup.now.work ≡ false }
    requires chunked { IsInChunks setup.now task.now }
    requires number { turn.task ≡ (A.told asker.old).task }
    requires ready { A.ready asker.old }
    requires may { (A.told asker.old).may_note ≡ true }
    ensures ran { RanStore task.now turn setup.now (A.told asker.old).pairs (A.told asker.new).pairs (A.told asker.old).notes (A.told asker.new).notes
        (D.told desk.old).log (D.told desk.new).log result }
    ensures same { IsSameTask (A.told asker.old) (A.told asker.new) }
    ensures on { A.goes_on asker.old asker.new }
    ensures causes { HasQuietCauses (D.told desk.old).counts (D.told desk.new).counts result }
{
    let key = task.key.view();
    let file = task.file.view();
    let Some(size) = key.size() else {
        unreachable!()
    };
    match desk.size(file) {
        Ok(n) => {
            if n == size {
                let store = Store {
                    turn,
                    setup,
                    key,
                    size,
                    file,
                };
                store_missing(alloc, store, asker, desk)
            } else {
                Ok(Answer::Size { bytes: n })
            }
        }
        Err(error) => refused(error),
    }
}
