// A get over all layouts.
ghost use Rattle.std.specs.Prelude.{◌≡◌, ◌≢◌, ◌+◌, ◌<◌, ◌^◌, ℕ, Some, true, false};
ghost use Rattle.ann_key.specs.KeyRefs.{parts_of};
ghost use Rattle.annex_model.specs.Lines.{has_newline};
ghost use Rattle.task_model.specs.Askers.{IsSameTask, are_layouts};
ghost use Rattle.task_run.specs.Get.LayoutRuns.{WholeRan, TriesRan, GetRan};
ghost use Rattle.task_run.specs.Get.ChunkFetches.{answer_in};
ghost use Rattle.task_model.specs.Names.{fetch_file};
ghost use Rattle.task_model.specs.Ran.{HasQuietCauses, HasTaskCauses, RanGet};
ghost use Rattle.task_text.specs.TaskLines.{IsTask};
ghost use Rattle.task_text.specs.declared.task.Work.TheVariants as W;

use crate::get::get_chunk::Went;
use crate::get::get_layout::get_layout;
use crate::get::gets::{Get, Layout};
use crate::get::taking::take_whole;
use ann_key::NoMemory;
use ann_outside::Desk;
use journal_model::Answer;
use std::alloc::Global;
use task_model::names::{fetch_name, part_name};
use task_model::{Asker, Setup, TaskTurn, ask};
use task_text::Task;
use task_text::layouts::count;

// Fetches the key whole, by this name of the fetched file.
fn whole_by<A: Asker, D: Desk>(
    alloc: Global,
    get: Get<'_, '_>,
    fetch: &str,
    asker: &mut A,
    desk: &mut D,
) -> Result<Answer, NoMemory>
    requires line { has_newline fetch.now ≡ false }
    requires differ { fetch.now ≢ get.part.now }
    requires number { get.turn.task ≡ (A.told asker.old).task }
    requires ready { A.ready asker.old }
    ensures ran { (first : ℕ) → fetch.now ≡ fetch_file get.entry.setup.now get.entry.turn (first + 1) → first + 1 < 2 ^ 64
        → WholeRan get.entry.setup.now get.entry.turn (parts_of get.entry.key) get.entry.file.now first
        (A.told asker.old).pairs (A.told asker.new).pairs (D.told desk.old).log (D.told desk.new).log result }
    ensures notes { (A.told asker.new).notes ≡ (A.told asker.old).notes }
    ensures same { IsSameTask (A.told asker.old) (A.told asker.new) }
    ensures on { A.goes_on asker.old asker.new }
    ensures causes { HasQuietCauses (D.told desk.old).counts (D.told desk.new).counts result }
{
    let verdict = ask::transfer(alloc, asker, get.turn.task, false, get.key, fetch)?;
    take_whole(alloc, desk, get.key, get.file, get.part, fetch, verdict)
}

// Fetches the key whole, after so many requests.
fn get_whole<A: Asker, D: Desk>(
    alloc: Global,
    get: Get<'_, '_>,
    asked: u64,
    asker: &mut A,
    desk: &mut D,
) -> Result<Answer, NoMemory>
    requires number { get.turn.task ≡ (A.told asker.old).task }
    requires ready { A.ready asker.old }
    ensures ran { WholeRan get.entry.setup.now get.entry.turn (parts_of get.entry.key) get.entry.file.now asked
        (A.told asker.old).pairs (A.told asker.new).pairs (D.told desk.old).log (D.told desk.new).log result }
    ensures notes { (A.told asker.new).notes ≡ (A.told asker.old).notes }
    ensures same { IsSameTask (A.told asker.old) (A.told asker.new) }
    ensures on { A.goes_on asker.old asker.new }
    ensures causes { HasQuietCauses (D.told desk.old).counts (D.told desk.new).counts result }
{
    if asked == u64::MAX {
        return Err(NoMemory);
    }
    let fetch = fetch_name(alloc, get.setup, get.turn, asked + 1)?;
    whole_by(alloc, get, fetch.view(), asker, desk)
}

// Tries the layouts that have the number of chunks which the size asks for, one after the other.
fn try_layouts<A: Asker, D: Desk>(
    alloc: Global,
    get: Get<'_, '_>,
    size: u64,
    layouts: &[(u64, u64)],
    asked: &mut u64,
    asker: &mut A,
    desk: &mut D,
) -> Result<Went, NoMemory>
    requires size { (parts_of get.key).size ≡ Some size }
    requires sizes { are_layouts layouts.now ≡ true }
    requires first { asked.old ≡ 0 }
    requires number { get.turn.task ≡ (A.told asker.old).task }
    requires ready { A.ready asker.old }
    ensures ran { TriesRan get.entry.setup.now get.entry.turn (parts_of get.entry.key) get.entry.file.now layouts.now asked.new
        (A.told asker.old).pairs (A.told asker.new).pairs (D.told desk.old).log (D.told desk.new).log result }
    ensures notes { (A.told asker.new).notes ≡ (A.told asker.old).notes }
    ensures same { IsSameTask (A.told asker.old) (A.told asker.new) }
    ensures on { A.goes_on asker.old asker.new }
    ensures causes { HasTaskCauses (D.told desk.old).counts (D.told desk.new).counts (answer_in result) }
{
    for i in 0..layouts.len() {
        let (chunk, chunks) = layouts[i];
        if chunks == count(size, chunk) {
            let layout = Layout { get, size, chunk };
            match get_layout(alloc, layout, asked, asker, desk)? {
                Went::Failed => {}
                went => return Ok(went),
            }
        }
    }
    Ok(Went::Failed)
}

// Tries the layouts of chunks. A key without a size has none.
fn try_chunks<A: Asker, D: Desk>(
    alloc: Global,
    get: Get<'_, '_>,
    layouts: &[(u64, u64)],
    asked: &mut u64,
    asker: &mut A,
    desk: &mut D,
) -> Result<Went, NoMemory>
    requires sizes { are_layouts layouts.now ≡ true }
    requires first { asked.old ≡ 0 }
    requires number { get.turn.task ≡ (A.told asker.old).task }
    requires ready { A.ready asker.old }
    ensures ran { TriesRan get.entry.setup.now get.entry.turn (parts_of get.entry.key) get.entry.file.now layouts.now asked.new
        (A.told asker.old).pairs (A.told asker.new).pairs (D.told desk.old).log (D.told desk.new).log result }
    ensures notes { (A.told asker.new).notes ≡ (A.told asker.old).notes }
    ensures same { IsSameTask (A.told asker.old) (A.told asker.new) }
    ensures on { A.goes_on asker.old asker.new }
    ensures causes { HasTaskCauses (D.told desk.old).counts (D.told desk.new).counts (answer_in result) }
{
    match get.key.size() {
        Some(size) => try_layouts(alloc, get, size, layouts, asked, asker, desk),
        None => Ok(Went::Failed),
    }
}

// Tries the layouts of chunks, and then the plain one.
fn get_from<A: Asker, D: Desk>(
    alloc: Global,
    get: Get<'_, '_>,
    layouts: &[(u64, u64)],
    asker: &mut A,
    desk: &mut D,
) -> Result<Answer, NoMemory>
    requires sizes { are_layouts layouts.now ≡ true }
    requires number { get.turn.task ≡ (A.told asker.old).task }
    requires ready { A.ready asker.old }
    ensures ran { GetRan get.entry.setup.now get.entry.turn (parts_of get.entry.key) get.entry.file.now layouts.now
        (A.told asker.old).pairs (A.told asker.new).pairs (D.told desk.old).log (D.told desk.new).log result }
    ensures notes { (A.told asker.new).notes ≡ (A.told asker.old).notes }
    ensures same { IsSameTask (A.told asker.old) (A.told asker.new) }
    ensures on { A.goes_on asker.old asker.new }
    ensures causes { HasTaskCauses (D.told desk.old).counts (D.told desk.new).counts result }
{
    let mut asked = 0;
    match try_chunks(alloc, get, layouts, &mut asked, asker, desk)? {
        Went::Failed => get_whole(alloc, get, asked, asker, desk),
        Went::Over(answer) => Ok(answer),
        Went::Whole => unreachable!(),
    }
}

/// Fetches the key in the first layout whose keys the remote sends, from what the file's part holds on, and keeps part as the file where it
/// fits.
pub fn get_key<A: Asker, D: Desk>(
    alloc: Global,
    task: &Task,
    turn: TaskTurn,
    setup: &Setup,
    asker: &mut A,
    desk: &mut D,
) -> Result<Answer, NoMemory>
    requires task { IsTask task.now }
    requires work { task.now.work ≡ W.Get }
    requires folder { has_newline setup.now.work ≡ false }
    requires number { turn.task ≡ (A.told asker.old).task }
    requires ready { A.ready asker.old }
    ensures ran { RanGet task.now turn setup.now (A.told asker.old).current (A.told asker.old).pairs (A.told asker.new).pairs (D.told desk.old).log (D.told desk.new).log result }
    ensures notes { (A.told asker.new).notes ≡ (A.told asker.old).notes }
    ensures same { IsSameTask (A.told asker.old) (A.told asker.new) }
    ensures on { A.goes_on asker.old asker.new }
    ensures causes { HasTaskCauses (D.told desk.old).counts (D.told desk.new).counts result }
{
    let file = task.file.view();
    let part = part_name(alloc, file)?;
    let layouts = asker.layouts(alloc, turn.task)?;
    let get = Get {
        turn,
        setup,
        key: task.key.view(),
        file,
        part: part.view(),
    };
    get_from(alloc, get, layouts.view(), asker, desk)
}
