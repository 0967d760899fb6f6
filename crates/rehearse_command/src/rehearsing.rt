// The run of a rehearsal, and what is found of its journal.
ghost use Rattle.std.specs.Prelude.{◌≡◌, ◌≤◌, All, IfOk, map, replicate, vec_len};
ghost use Rattle.ann_outside.specs.Desks.{no_counts};
ghost use Rattle.journal_model.specs.Beginnings.{MayBegin};
ghost use Rattle.journal_audit.specs.Audits.{IsAudit};
ghost use Rattle.run_answers.specs.Answering.{AreAllAnswered};
ghost use Rattle.run_answers.specs.Answers.{AreAnswers};
ghost use Rattle.rehearse_plan.specs.Plans.{opening_of};
ghost use Rattle.rehearse_plan.specs.declared.tasks.TheConstants.{MOST_TASKS};
ghost use Rattle.rehearse_command.specs.Rehearsals.{CountsNone, EndsRun, Finds, HasRehearsed, HasRun, IsQuiet, IsReady, untold};

use crate::made::{RehearsalEnd, Rehearsed};
use crate::ready::{Ready, WORKERS, prepare};
use crate::remotes::Remotes;
use ann_key::NoMemory;
use ann_outside::{Desk, Desks, Programs, Sink, Source};
use child_life::end::journal_of;
use child_link::Wire;
use host_core::Core;
use journal_audit::{Audit, audit};
use journal_look::Journal;
use journal_model::Answer;
use kit_memory::KitPrograms;
use rehearse_plan::{MOST_TASKS, files_of};
use run_answers::answers_of;
use run_children::{Bench, run_jobs};
use shared_desks::{SharedDesk, SharedDesks};
use std::alloc::Global;
use std::marker::{Send, Sync};
use std::sync::Wait;
use std::thread::Threads;

// The desks of the workers.
#[tactic(auto, using(crate::proofs::Crews::counts_more))]
fn ask_desks<K: Desks>(alloc: Global, desks: &mut K) -> Result<Vec<K::Desk>, NoMemory>
where
    K::Desk: Drop,
    ensures many { IfOk result (λ crew. vec_len crew ≡ 4) }
    ensures fresh { IfOk result (λ crew. map (λ k. (K.Desk.told k).counts) crew.items ≡ replicate 4 no_counts) }
{
    let mut crew = Vec::with_capacity(alloc, WORKERS as usize)?;
    'workers: for before in 0..WORKERS {
        let desk = desks.desk(before + 1)?;
        crew.push_reserved(desk);
    }
    Ok(crew)
}

// What the journal of a core answers, and what is found of it.
fn found_of(alloc: Global, core: &Core) -> Result<(Vec<Answer>, Audit), NoMemory>
    requires may { MayBegin core.now.opening }
    requires answered { AreAllAnswered core.now.opening core.now.journal }
    ensures answers { IfOk result (λ found. AreAnswers core.now.opening core.now.journal found.0.items) }
    ensures audit { IfOk result (λ found. IsAudit core.now.opening core.now.journal found.1) }
{
    let answers = answers_of(alloc, core)?;
    let found = audit(alloc, core.opening(), core.journal())?;
    Ok((answers, found))
}

// The answers, and what is found of the journal.
fn finish(alloc: Global, core: Core) -> Rehearsed
    requires may { MayBegin core.opening }
    requires answered { AreAllAnswered core.opening core.journal }
    ensures journal { result.journal.entries ≡ core.journal }
    ensures finds { Finds core.opening core.journal result.answers.items result.end }
{
    let found = found_of(alloc, &core);
    let journal = journal_of(core);
    match found {
        Ok((answers, found)) => Rehearsed {
            journal,
            answers,
            end: RehearsalEnd::Done(found),
        },
        Err(NoMemory) => Rehearsed::cut_off(alloc, journal),
    }
}

// Halves that count no fault leave wires that count none. Clauses see of a wire what it told, so each is looked at.
fn look_at<I: Sink, O: Source>(wires: &[Wire<I, O>])
    requires { CountsNone (λ x. (I.told x).faults) × CountsNone (λ x. (O.told x).faults) }
    ensures { All IsQuiet wires.now }
{
    'looks: for wire in wires {
        let (_inlet, _outlet) = wire.halves();
    }
}

// Does the tasks over programs none of whose calls fails, and gives the core back. The wires are let go.
fn do_tasks<P: Programs, K: Desk + Send + Drop, R: Threads + Wait + Sync>(
    rt: &R,
    alloc: Global,
    ready: Ready,
    programs: &mut P,
    crew: Vec<K>,
) -> (Core, Result<(), NoMemory>)
where
    P::Inlet: Send + Drop,
    P::Outlet: Send + Drop,
    P::Stub: Drop,
    requires ready { IsReady ready }
    requires may { MayBegin ready.core.opening }
    requires many { vec_len crew ≡ 4 }
    requires fresh { map K.told crew.items ≡ replicate 4 untold }
    requires sound { CountsNone (λ x. (P.told x).faults) × CountsNone (λ x. (P.Inlet.told x).faults) × CountsNone (λ x. (P.Outlet.told x).faults) }
    ensures opening { result.0.opening ≡ ready.core.opening }
    ensures ran { HasRun ready.core.opening result.0.journal result.1 }
{
    let Ok(mut wires) = Vec::with_capacity(alloc, WORKERS as usize) else {
        return (ready.core, Err(NoMemory));
    };
    let Ready { core, plan, tasks } = ready;
    let bench = Bench { core, desks: crew };
    let (bench, ran) = run_jobs(rt, alloc, programs, &plan, tasks.view(), bench, &mut wires);
    look_at(&wires);
    (bench.core, ran)
}

// What tasks that were done come to: their answers, and what is found of the journal.
fn end_run(alloc: Global, core: Core, ran: Result<(), NoMemory>) -> Rehearsed
    requires may { MayBegin core.opening }
    requires ran { HasRun core.opening core.journal ran }
    ensures { EndsRun core.opening result.journal.entries result.answers.items result.end }
{
    match ran {
        Ok(()) => finish(alloc, core),
        Err(NoMemory) => Rehearsed::cut_off(alloc, journal_of(core)),
    }
}

// Does the tasks over remotes in memory, and audits the journal.
fn run<'a, R: Threads + Wait + Sync + 'a>(
    rt: &'a R,
    alloc: Global,
    ready: Ready,
    desks: SharedDesks<&'a R>,
    crew: Vec<SharedDesk<&'a R>>,
) -> Rehearsed
    requires ready { IsReady ready }
    requires may { MayBegin ready.core.opening }
    requires many { vec_len crew ≡ 4 }
    requires fresh { map (λ k. (⟦<SharedDesk<&'a R> as Desk>⟧.told k).counts) crew.items ≡ replicate 4 no_counts }
    ensures { EndsRun ready.core.opening result.journal.entries result.answers.items result.end }
{
    let mut programs = KitPrograms::new(rt, alloc, Remotes::new(alloc, desks));
    let (core, ran) = do_tasks(rt, alloc, ready, &mut programs, crew);
    end_run(alloc, core, ran)
}

// What a rehearsal is made with.
#[derive(Drop)]
struct Stage<'a, R> {
    ready: Ready,
    desks: SharedDesks<&'a R>,
    crew: Vec<SharedDesk<&'a R>>,
}

// Makes all of it: the core and its tasks, the files, and the workers' desks over them.
fn set_stage<'a, R: Threads + Wait + Sync>(
    rt: &'a R,
    alloc: Global,
    seed: u32,
    tasks: u32,
) -> Result<Stage<'a, R>, NoMemory>
    requires { tasks ≤ MOST_TASKS }
    ensures opening { IfOk result (λ s. s.ready.core.opening ≡ opening_of seed tasks) }
    ensures ready { IfOk result (λ s. IsReady s.ready) }
    ensures may { IfOk result (λ s. MayBegin s.ready.core.opening) }
    ensures many { IfOk result (λ s. vec_len s.crew ≡ 4) }
    ensures fresh { IfOk result (λ s. map (λ k. (⟦<SharedDesk<&'a R> as Desk>⟧.told k).counts) s.crew.items ≡ replicate 4 no_counts) }
{
    let mut desks = SharedDesks::of_files(rt, alloc, files_of(alloc, tasks)?)?;
    let crew = ask_desks(alloc, &mut desks)?;
    let ready = prepare(alloc, seed, tasks)?;
    Ok(Stage { ready, desks, crew })
}

/// Does so many tasks, which the seed gives, over remotes in memory, and audits the journal. It touches nothing outside.
pub fn rehearse<R: Threads + Wait + Sync>(rt: &R, alloc: Global, seed: u32, tasks: u32) -> Rehearsed
    requires { tasks ≤ MOST_TASKS }
    ensures { HasRehearsed seed tasks result.journal.entries result.answers.items result.end }
{
    let Ok(stage) = set_stage(rt, alloc, seed, tasks) else {
        return Rehearsed::cut_off(alloc, Journal::new(alloc));
    };
    let Stage { ready, desks, crew } = stage;
    run(rt, alloc, ready, desks, crew)
}
