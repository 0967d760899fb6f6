// The tasks of a run, with a desk for each worker.
ghost use Rattle.std.specs.Prelude.{◌≡◌, ◌≤◌, ◌*◌, [], IfOk, OnOk, map, vec_len, vec_capacity};
ghost use Rattle.journal_model.specs.Beginnings.{MayBegin};
ghost use Rattle.ann_outside.specs.TextFile.Names.{NamesOnly};
ghost use Rattle.child_life.specs.End.Programs.{Leaves};
ghost use Rattle.run_and_check.specs.Run.Runs.{origins_of, AreFresh, IsRunFile};
ghost use Rattle.run_and_check.specs.Run.Workings.{AddsWorkers, EndsWork, GoesOn, IsPrepared};
ghost use Rattle.run_and_check.specs.declared.run.made.RunEnd.TheVariants.{Memory};

use crate::run::keeping::finish;
use crate::run::made::RunEnd;
use crate::run::setting::Setting;
use ann_key::{NoMemory, Text};
use ann_outside::{Desk, Desks, Programs};
use child_life::end::journal_of;
use child_link::Wire;
use cli_words::RunWords;
use host_core::Core;
use journal_look::Journal;
use journal_model::{Answer, Opening};
use run_children::{Bench, run_jobs};
use run_starts::Plan;
use std::alloc::Global;
use std::marker::{Send, Sync};
use std::sync::Wait;
use std::thread::Threads;
use task_model::Setup;
use task_text::Tasks;

/// What came of the tasks, and the desks of the workers that were asked for.
#[derive(Drop)]
pub(crate) struct Worked<D: Desk> {
    pub(crate) journal: Journal,
    pub(crate) answers: Vec<Answer>,
    pub(crate) crew: Vec<D>,
    pub(crate) end: RunEnd,
}

impl<D: Desk> Worked<D> {
    /// Nothing was done, for this reason.
    pub(crate) fn nothing(alloc: Global, crew: Vec<D>, end: RunEnd) -> Worked<D>
        ensures journal { result.journal.entries ≡ [] }
        ensures answers { result.answers.items ≡ [] }
        ensures crew { result.crew ≡ crew }
        ensures end { result.end ≡ end }
    {
        Worked {
            journal: Journal::new(alloc),
            answers: Vec::new(alloc),
            crew,
            end,
        }
    }
}

// What the tasks are done with.
#[derive(Drop)]
struct Ready {
    core: Core,
    plan: Plan,
    tasks: Tasks,
}

// All that the tasks of the opening are done with.
fn prepare(alloc: Global, words: &RunWords, opening: Opening) -> Result<Ready, NoMemory>
    requires { MayBegin opening }
    ensures opening { IfOk result (λ r. r.core.opening ≡ opening) }
    ensures prepared { IfOk result (IsPrepared words.now) }
{
    let tasks = opening.tasks.copy(alloc)?;
    let program = Text::copy(alloc, words.program.view())?;
    let work = Text::copy(alloc, words.work.view())?;
    let setup = Setup {
        work,
        stamp: opening.stamp,
        chunk: words.chunk,
    };
    let plan = Plan {
        program,
        starts: words.starts,
        offers: true,
        setup,
    };
    let core = Core::new(alloc, opening)?;
    Ok(Ready { core, plan, tasks })
}

// Asks for the desks of so many workers, 1, 2 and so on, until no memory is found for one.
fn ask_desks<K: Desks>(desks: &mut K, jobs: u32, crew: &mut Vec<K::Desk>) -> Result<(), NoMemory>
    requires few { jobs ≤ 64 }
    requires none { crew.old.items ≡ [] }
    requires room { jobs ≤ vec_capacity crew.old }
    ensures desks { AddsWorkers jobs (K.made desks.old) (K.made desks.new) (map (K.Desk.told) crew.new.items) }
    ensures fresh { AreFresh (map K.Desk.told crew.new.items) }
    ensures all { OnOk result (vec_len crew.new ≡ jobs) }
{
    'workers: for before in 0..jobs {
        let desk = desks.desk(before + 1)?;
        crew.push_reserved(desk);
    }
    Ok(())
}

// Does the tasks, and keeps what is known after them. The workers' desks are handed back.
fn do_all<P: Programs, D: Desk + Send + Drop, R: Threads + Wait + Sync>(
    setting: &Setting<'_, R>,
    ready: Ready,
    programs: &mut P,
    desk: &mut D,
    crew: Vec<D>,
    wires: &mut Vec<Wire<P::Inlet, P::Outlet>>,
) -> Worked<D>
where
    P::Inlet: Send + Drop,
    P::Outlet: Send + Drop,
    P::Stub: Drop,
    requires prepared { IsPrepared setting.now.words.now ready }
    requires may { MayBegin ready.core.opening }
    requires crew { vec_len crew ≡ setting.now.words.now.jobs }
    requires fresh { AreFresh (map D.told crew.items) }
    requires room { setting.now.words.now.starts * setting.now.words.now.jobs ≤ vec_capacity wires.old }
    requires none { wires.old.items ≡ [] }
    ensures ends { EndsWork setting.now.words.now (D.told desk.old).files (D.told desk.new) ready.core.opening (map (D.told) result.crew.items)
        result.journal.entries result.answers.items result.end }
    ensures calls { NamesOnly (IsRunFile setting.now.words.now) (D.told desk.old).log (D.told desk.new).log }
    ensures crew { vec_len result.crew ≡ setting.now.words.now.jobs }
    ensures origins { origins_of (map D.told result.crew.items) ≡ origins_of (map D.told crew.items) }
    ensures leaves { Leaves (result.end ≡ Memory) setting.now.words.now.program result.journal.entries
        (P.told programs.old) (P.told programs.new) wires.new.items }
{
    let alloc = setting.alloc;
    let Ready { core, plan, tasks } = ready;
    let bench = Bench { core, desks: crew };
    let (bench, ran) = run_jobs(
        setting.rt,
        alloc,
        programs,
        &plan,
        tasks.view(),
        bench,
        wires,
    );
    let Bench { core, desks: crew } = bench;
    match ran {
        Ok(()) => {
            let finished = finish(alloc, setting.words, desk, &core);
            Worked {
                journal: journal_of(core),
                answers: finished.answers,
                crew,
                end: finished.end,
            }
        }
        Err(NoMemory) => Worked {
            journal: journal_of(core),
            answers: Vec::new(alloc),
            crew,
            end: RunEnd::Memory,
        },
    }
}

/// Asks for the workers' desks, does the tasks of the opening, and keeps what is known after them at the other desk.
pub(crate) fn work<P: Programs, K: Desks, R: Threads + Wait + Sync>(
    setting: &Setting<'_, R>,
    opening: Opening,
    programs: &mut P,
    desks: &mut K,
    desk: &mut K::Desk,
    crew: Vec<K::Desk>,
    wires: &mut Vec<Wire<P::Inlet, P::Outlet>>,
) -> Worked<K::Desk>
where
    P::Inlet: Send + Drop,
    P::Outlet: Send + Drop,
    P::Stub: Drop,
    K::Desk: Send + Drop,
    requires may { MayBegin opening }
    requires crew { (crew.items ≡ []) × (setting.now.words.now.jobs ≤ vec_capacity crew) }
    requires room { setting.now.words.now.starts * setting.now.words.now.jobs ≤ vec_capacity wires.old }
    requires none { wires.old.items ≡ [] }
    ensures ends { EndsWork setting.now.words.now (K.Desk.told desk.old).files (K.Desk.told desk.new) opening
        (map (K.Desk.told) result.crew.items) result.journal.entries result.answers.items result.end }
    ensures calls { NamesOnly (IsRunFile setting.now.words.now) (K.Desk.told desk.old).log (K.Desk.told desk.new).log }
    ensures desks { AddsWorkers setting.now.words.now.jobs (K.made desks.old) (K.made desks.new) (map (K.Desk.told) result.crew.items) }
    ensures leaves { Leaves (result.end ≡ Memory) setting.now.words.now.program result.journal.entries
        (P.told programs.old) (P.told programs.new) wires.new.items }
{
    let mut crew = crew;
    let Ok(()) = ask_desks(desks, setting.words.jobs, &mut crew) else {
        return Worked::nothing(setting.alloc, crew, RunEnd::Memory);
    };
    let Ok(ready) = prepare(setting.alloc, setting.words, opening) else {
        return Worked::nothing(setting.alloc, crew, RunEnd::Memory);
    };
    do_all(setting, ready, programs, desk, crew, wires)
}

/// Does the tasks of what a run begins with, where it begins.
pub(crate) fn go_on<P: Programs, K: Desks, R: Threads + Wait + Sync>(
    setting: &Setting<'_, R>,
    begun: Result<Opening, RunEnd>,
    programs: &mut P,
    desks: &mut K,
    desk: &mut K::Desk,
    crew: Vec<K::Desk>,
    wires: &mut Vec<Wire<P::Inlet, P::Outlet>>,
) -> Worked<K::Desk>
where
    P::Inlet: Send + Drop,
    P::Outlet: Send + Drop,
    P::Stub: Drop,
    K::Desk: Send + Drop,
    requires may { IfOk begun MayBegin }
    requires crew { (crew.items ≡ []) × (setting.now.words.now.jobs ≤ vec_capacity crew) }
    requires room { setting.now.words.now.starts * setting.now.words.now.jobs ≤ vec_capacity wires.old }
    requires none { wires.old.items ≡ [] }
    ensures goes_on { GoesOn setting.now.words.now (K.Desk.told desk.old) (K.Desk.told desk.new)
        (map (K.Desk.told) result.crew.items) result.journal.entries result.answers.items begun result.end }
    ensures calls { NamesOnly (IsRunFile setting.now.words.now) (K.Desk.told desk.old).log (K.Desk.told desk.new).log }
    ensures desks { AddsWorkers setting.now.words.now.jobs (K.made desks.old) (K.made desks.new) (map (K.Desk.told) result.crew.items) }
    ensures leaves { Leaves (result.end ≡ Memory) setting.now.words.now.program result.journal.entries
        (P.told programs.old) (P.told programs.new) wires.new.items }
{
    match begun {
        Ok(opening) => work(setting, opening, programs, desks, desk, crew, wires),
        Err(end) => Worked::nothing(setting.alloc, crew, end),
    }
}
