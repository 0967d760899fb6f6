// One layout of a get, in chunks.
ghost use Rattle.std.specs.Prelude.{◌≡◌, ◌+◌, ◌<◌, ◌≤◌, ◌^◌, Ok};
ghost use Rattle.ann_digest.specs.Checkers.{taken_of};
ghost use Rattle.ann_key.specs.KeyRefs.{parts_of};
ghost use Rattle.task_text.specs.Layouts.Layouts.{count_of, from_of};
ghost use Rattle.task_model.specs.Askers.{IsSameTask};
ghost use Rattle.task_run.specs.Get.ChunkFetches.{answer_in};
ghost use Rattle.task_run.specs.Get.LayoutRuns.{NextRan, ChunksRan, LayoutRan};
ghost use Rattle.task_model.specs.Ran.{HasQuietCauses, HasTaskCauses};
ghost use Rattle.task_run.specs.declared.get.get_chunk.Went.TheVariants as T;

use crate::get::get_begin::{Begun, begin_part};
use crate::get::get_chunk::{Chunk, Went, over, take_chunk};
use crate::get::gets::Layout;
use crate::get::taking::settle;
use ann_digest::Checker;
use ann_key::NoMemory;
use ann_outside::Desk;
use std::alloc::Global;
use task_model::Asker;
use task_model::names::fetch_name;
use task_text::layouts::{count, piece, range};

// Asks for the chunk after the first i, as the next request, and adds it to part.
fn next_chunk<A: Asker, D: Desk>(
    alloc: Global,
    layout: Layout<'_, '_>,
    i: u64,
    asked: &mut u64,
    asker: &mut A,
    desk: &mut D,
    checker: &mut Checker<'_>,
) -> Result<Went, NoMemory>
    requires there { i < count_of layout.size layout.chunk }
    requires few { asked.old + 1 < 2 ^ 64 }
    requires room { taken_of checker.old ≤ from_of layout.chunk (i + 1) }
    requires number { layout.get.turn.task ≡ (A.told asker.old).task }
    requires ready { A.ready asker.old }
    ensures ran { NextRan layout.entry.get.setup.now layout.entry.get.turn (parts_of layout.entry.get.key) layout.entry.size layout.entry.chunk i layout.entry.get.part.now asked.old
        (A.told asker.old).pairs (A.told asker.new).pairs (D.told desk.old).log (D.told desk.new).log checker.old checker.new result }
    ensures counted { asked.new ≡ asked.old + 1 }
    ensures room { result ≡ Ok T.Whole → taken_of checker.new ≤ from_of layout.entry.chunk (i + 2) }
    ensures notes { (A.told asker.new).notes ≡ (A.told asker.old).notes }
    ensures same { IsSameTask (A.told asker.old) (A.told asker.new) }
    ensures on { A.goes_on asker.old asker.new }
    ensures causes { HasQuietCauses (D.told desk.old).counts (D.told desk.new).counts (answer_in result) }
{
    let get = layout.get;
    *asked += 1;
    let fetch = fetch_name(alloc, get.setup, get.turn, *asked)?;
    let piece = piece(alloc, get.key, layout.chunk, i + 1)?;
    let (from, to) = range(layout.size, layout.chunk, i + 1);
    let chunk = Chunk {
        bytes: to - from,
        fetch: fetch.view(),
        part: get.part,
    };
    take_chunk(
        alloc,
        get.turn.task,
        piece.view(),
        chunk,
        asker,
        desk,
        checker,
    )
}

// Asks for the chunks after the first `held`, one after the other.
fn chunks<A: Asker, D: Desk>(
    alloc: Global,
    layout: Layout<'_, '_>,
    held: u64,
    asked: &mut u64,
    asker: &mut A,
    desk: &mut D,
    checker: &mut Checker<'_>,
) -> Result<Went, NoMemory>
    requires held { held ≤ count_of layout.size layout.chunk }
    requires few { asked.old + count_of layout.size layout.chunk < 2 ^ 64 }
    requires room { taken_of checker.old ≤ from_of layout.chunk (held + 1) }
    requires number { layout.get.turn.task ≡ (A.told asker.old).task }
    requires ready { A.ready asker.old }
    ensures ran { ChunksRan layout.entry.get.setup.now layout.entry.get.turn (parts_of layout.entry.get.key) layout.entry.size layout.entry.chunk held layout.entry.get.part.now
        asked.old asked.new (A.told asker.old).pairs (A.told asker.new).pairs (D.told desk.old).log (D.told desk.new).log checker.old checker.new result }
    ensures notes { (A.told asker.new).notes ≡ (A.told asker.old).notes }
    ensures same { IsSameTask (A.told asker.old) (A.told asker.new) }
    ensures on { A.goes_on asker.old asker.new }
    ensures causes { HasQuietCauses (D.told desk.old).counts (D.told desk.new).counts (answer_in result) }
{
    let count = count(layout.size, layout.chunk);
    for i in held..count {
        match next_chunk(alloc, layout, i, asked, asker, desk, checker)? {
            Went::Whole => {}
            went => return Ok(went),
        }
    }
    Ok(Went::Whole)
}

/// Fetches what part doesn't hold whole in the layout's chunks, and keeps part as the file where all of it fits.
pub fn get_layout<A: Asker, D: Desk>(
    alloc: Global,
    layout: Layout<'_, '_>,
    asked: &mut u64,
    asker: &mut A,
    desk: &mut D,
) -> Result<Went, NoMemory>
    requires number { layout.get.turn.task ≡ (A.told asker.old).task }
    requires ready { A.ready asker.old }
    ensures ran { LayoutRan layout.entry.get.setup.now layout.entry.get.turn (parts_of layout.entry.get.key) layout.entry.get.file.now layout.entry.chunk
        asked.old asked.new (A.told asker.old).pairs (A.told asker.new).pairs (D.told desk.old).log (D.told desk.new).log result }
    ensures notes { (A.told asker.new).notes ≡ (A.told asker.old).notes }
    ensures same { IsSameTask (A.told asker.old) (A.told asker.new) }
    ensures on { A.goes_on asker.old asker.new }
    ensures causes { HasTaskCauses (D.told desk.old).counts (D.told desk.new).counts (answer_in result) }
{
    let get = layout.get;
    let most = count(layout.size, layout.chunk);
    if most > u64::MAX - *asked {
        return Err(NoMemory);
    }
    let mut checker = Checker::new(get.key);
    match begin_part(
        alloc,
        desk,
        layout.size,
        layout.chunk,
        get.part,
        &mut checker,
    )? {
        Begun::Held(held) => match chunks(alloc, layout, held, asked, asker, desk, &mut checker)? {
            Went::Whole => over(settle(desk, checker.finish(), get.file, get.part)),
            went => Ok(went),
        },
        Begun::Over(answer) => Ok(Went::Over(answer)),
    }
}
