// Doing a check.
ghost use Rattle.std.specs.Prelude.{◌≡◌, ◌≤◌, ℕ, List, [], Option, None, IfOk, IfSome, vec_capacity};
ghost use Rattle.ann_key.specs.KeyRefs.{text_of};
ghost use Rattle.cli_words.specs.Refusals.{reason_refused};
ghost use Rattle.journal_model.specs.Beginnings.{MayBegin};
ghost use Rattle.run_answers.specs.Answering.{AreAllAnswered};
ghost use Rattle.run_and_check.specs.declared.check.made.CheckEnd.TheVariants.{Memory};
ghost use Rattle.run_and_check.specs.Check.Checks.{HasChecked};
ghost use Rattle.run_and_check.specs.Check.Preparings.{AnswersAs, IsPrepared};

use crate::check::made::{CheckEnd, CheckMade};
use crate::check::preparing::{Ready, prepare};
use ann_key::{KeyRef, NoMemory};
use ann_outside::{Clock, Programs};
use child_life::end::journal_of;
use child_link::Wire;
use host_core::Core;
use journal_look::Journal;
use journal_model::Answer;
use run_answers::answers_of;
use run_children::run_alone;
use std::alloc::Global;

// No memory was found before anything was done.
fn nothing_made<P: Programs>(alloc: Global) -> CheckMade<P>
where
    P::Inlet: Drop,
    P::Outlet: Drop,
    ensures { result ≡ record { journal = []; answers = []; wires = []; end = Memory } }
{
    CheckMade {
        journal: Journal::new(alloc),
        answers: Vec::new(alloc),
        wires: Vec::new(alloc),
        end: CheckEnd::Memory,
    }
}

// The answer of a check that ran so, where memory is found for it.
fn answers_after(alloc: Global, ran: Result<(), NoMemory>, core: &Core) -> (Vec<Answer>, CheckEnd)
    requires { IfOk ran (λ _. AreAllAnswered core.now.opening core.now.journal) }
    ensures { AnswersAs core.now.opening core.now.journal ran result.0.items result.1 }
{
    match ran {
        Ok(()) => match answers_of(alloc, core) {
            Ok(answers) => (answers, CheckEnd::Answered),
            Err(NoMemory) => (Vec::new(alloc), CheckEnd::Memory),
        },
        Err(NoMemory) => (Vec::new(alloc), CheckEnd::Memory),
    }
}

// Does the one task, with room for its one wire.
fn do_task<P: Programs>(
    alloc: Global,
    ready: Ready,
    programs: &mut P,
    wires: Vec<Wire<P::Inlet, P::Outlet>>,
) -> CheckMade<P>
where
    P::Inlet: Drop,
    P::Outlet: Drop,
    requires ready { (program : List ℕ) × (key : List ℕ) × (stamp : ℕ) × IsPrepared program key stamp ready }
    requires may { MayBegin ready.core.opening }
    requires room { 1 ≤ vec_capacity wires }
    requires none { wires.items ≡ [] }
    ensures { (clock : Option ℕ) (program key : List ℕ) (stamp : ℕ) → IfSome clock (λ n. stamp ≡ n) → IsPrepared program key stamp ready
        → HasChecked clock program key (P.told programs.old) (P.told programs.new) result }
{
    let Ready {
        mut core,
        tasks,
        plan,
        mut desk,
    } = ready;
    let mut wires = wires;
    let ran = run_alone(
        alloc,
        programs,
        &plan,
        tasks.view(),
        &mut core,
        &mut desk,
        &mut wires,
    );
    let (answers, end) = answers_after(alloc, ran, &core);
    CheckMade {
        journal: journal_of(core),
        answers,
        wires,
        end,
    }
}

/// Asks the remote that the program serves for the key, by a run of one task and one start.
pub fn do_check<P: Programs, C: Clock>(
    alloc: Global,
    program: &str,
    key: KeyRef<'_>,
    programs: &mut P,
    clock: &mut C,
) -> CheckMade<P>
where
    P::Inlet: Drop,
    P::Outlet: Drop,
    requires key { reason_refused (text_of key) ≡ None }
    ensures { HasChecked (C.answer clock.old) program.now (text_of key.entry) (P.told programs.old) (P.told programs.new) result }
{
    let stamp = clock.now();
    let Ok(wires) = Vec::with_capacity(alloc, 1) else {
        return nothing_made(alloc);
    };
    match prepare(alloc, program, key, stamp) {
        Ok(ready) => do_task(alloc, ready, programs, wires),
        Err(NoMemory) => nothing_made(alloc),
    }
}
