// A run: its desks, what it begins with, and its tasks.
ghost use Rattle.std.specs.Prelude.{◌≡◌, ◌≤◌, ◌<◌, ◌*◌, ◌∷◌, [], IfOk, false, true, vec_len, vec_capacity};
ghost use Rattle.annex_model.specs.Lines.{has_newline};
ghost use Rattle.task_text.specs.ChunkLog.ChunkLines.{IsWrittenUuid};
ghost use Rattle.child_life.specs.End.Outsides.{OutsideValue};
ghost use Rattle.cli_words.specs.Identities.{IsFit};
ghost use Rattle.cli_words.specs.declared.command.Command.TheVariants.{Run};
ghost use Rattle.journal_model.specs.Limits.{most_again};
ghost use Rattle.run_and_check.specs.Run.Inputs.{input_flow};
ghost use Rattle.run_and_check.specs.Run.Runs.{HasDone};
ghost use Rattle.run_and_check.specs.declared.run.made.RunEnd.TheVariants.{Memory};

use crate::run::beginning::begin;
use crate::run::made::{Made, RunEnd};
use crate::run::rounds::go_on;
use crate::run::setting::Setting;
use ann_key::NoMemory;
use ann_outside::{Clock, Desks, Programs, Source};
use child_link::Wire;
use cli_words::RunWords;
use journal_look::Journal;
use std::alloc::Global;
use std::marker::{Send, Sync};
use std::sync::Wait;
use std::thread::Threads;

// Room for what a run leaves of its objects.
#[derive(Drop)]
struct Room<P: Programs, K: Desks> {
    wires: Vec<Wire<P::Inlet, P::Outlet>>,
    crew: Vec<K::Desk>,
    tables: Vec<K::Desk>,
}

// Room for a wire of each child, of which each start may have one for each worker, for a desk of each worker, and for all desks.
fn take_room<P: Programs, K: Desks>(
    alloc: Global,
    starts: u32,
    jobs: u32,
) -> Result<Room<P, K>, NoMemory>
where
    P::Inlet: Drop,
    P::Outlet: Drop,
    K::Desk: Drop,
    requires few { (starts ≤ 16) × (jobs ≤ 64) }
    ensures none { IfOk result (λ r. (r.wires.items ≡ []) × (r.crew.items ≡ []) × (r.tables.items ≡ []) × (vec_len r.crew ≡ 0) × (vec_len r.tables ≡ 0)) }
    ensures room { IfOk result (λ r. (starts * jobs ≤ vec_capacity r.wires) × (jobs ≤ vec_capacity r.crew) × (jobs < vec_capacity r.tables)) }
{
    let wires = Vec::with_capacity(alloc, starts as usize * jobs as usize)?;
    let crew = Vec::with_capacity(alloc, jobs as usize)?;
    let tables = Vec::with_capacity(alloc, jobs as usize + 1)?;
    Ok(Room {
        wires,
        crew,
        tables,
    })
}

// No memory was found before anything was asked for.
fn nothing_made<P: Programs, K: Desks>(alloc: Global) -> Made<P, K>
where
    P::Inlet: Drop,
    P::Outlet: Drop,
    K::Desk: Drop,
    ensures { result ≡ record { journal = []; answers = []; wires = []; tables = []; end = Memory } }
{
    Made {
        journal: Journal::new(alloc),
        answers: Vec::new(alloc),
        wires: Vec::new(alloc),
        tables: Vec::new(alloc),
        end: RunEnd::Memory,
    }
}

// All desks, within the room that was taken for them.
fn all_desks<D: Drop>(tables: Vec<D>, first: D, crew: Vec<D>) -> Vec<D>
    requires none { (tables.items ≡ []) × (vec_len tables ≡ 0) }
    requires room { vec_len crew < vec_capacity tables }
    ensures { result.items ≡ first ∷ crew.items }
{
    let mut tables = tables;
    let mut crew = crew;
    tables.push_reserved(first);
    let Ok(()) = tables.append(&mut crew) else {
        unreachable!();
    };
    tables
}

/// Does the tasks of the input, with as many workers as the words say. The kept file is read first, where the words name one, then
/// the input to its end, then the clock; after the tasks the kept file is written, and then the journal file.
pub fn do_tasks<P: Programs, K: Desks, I: Source, C: Clock, R: Threads + Wait + Sync>(
    rt: &R,
    alloc: Global,
    words: &RunWords,
    programs: &mut P,
    desks: &mut K,
    input: &mut I,
    clock: &mut C,
) -> Made<P, K>
where
    P::Inlet: Send + Drop,
    P::Outlet: Send + Drop,
    P::Stub: Drop,
    K::Desk: Send + Drop,
    requires fit { IsFit (Run words.now) }
    requires uuid { IsWrittenUuid words.now.uuid }
    requires jobs { (0 < words.now.jobs) × (words.now.jobs ≤ 64) }
    requires starts { (0 < words.now.starts) × (words.now.starts ≤ 16) }
    requires again { words.now.again ≤ most_again }
    requires text { has_newline words.now.work ≡ false }
    requires input { (I.told input.old).is_open ≡ true }
    ensures { HasDone words.now (C.answer clock.old) (record { programs = P.told programs.old; made = K.made desks.old })
        (input_flow (I.told input.old) (I.told input.new))
        (record { programs = P.told programs.new; made = K.made desks.new }) result }
{
    let Ok(room) = take_room::<P, K>(alloc, words.starts, words.jobs) else {
        return nothing_made(alloc);
    };
    let Room {
        mut wires,
        crew,
        tables,
    } = room;
    let Ok(mut desk) = desks.desk(0) else {
        return nothing_made(alloc);
    };
    let begun = begin(alloc, words, &mut desk, input, clock);
    let setting = Setting { rt, alloc, words };
    let worked = go_on(
        &setting, begun, programs, desks, &mut desk, crew, &mut wires,
    );
    Made {
        journal: worked.journal,
        answers: worked.answers,
        wires,
        tables: all_desks(tables, desk, worked.crew),
        end: worked.end,
    }
}
