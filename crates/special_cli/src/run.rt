// The command `run`: the tasks of the input, by its workers.
ghost use Rattle.std.specs.Prelude.{◌≡◌, true};
ghost use Rattle.task_text.specs.ChunkLog.ChunkLines.{IsWrittenUuid};
ghost use Rattle.cli_words.specs.Identities.{IsFit};
ghost use Rattle.cli_words.specs.Ranges.{IsRanged};
ghost use Rattle.cli_words.specs.declared.command.Command.TheVariants.{Run};
ghost use Rattle.run_and_check.specs.Run.Inputs.{input_flow};
ghost use Rattle.special_cli.specs.Doings.{HasRun, end_of};

use crate::end::End;
use crate::outside::Outside;
use crate::ran::Ran;
use ann_outside::{Clock, Desks, Programs, Source};
use cli_words::RunWords;
use run_and_check::run::{RunEnd, do_tasks};
use std::alloc::Global;
use std::marker::{Send, Sync};
use std::sync::Wait;
use std::thread::Threads;

/// Does the tasks of the input over the remote that the program serves.
pub(crate) fn run<P: Programs, K: Desks, I: Source, C: Clock, R: Threads + Wait + Sync>(
    rt: &R,
    alloc: Global,
    words: &RunWords,
    outside: Outside<P, K>,
    input: &mut I,
    clock: &mut C,
) -> Ran<P, K>
where
    P::Inlet: Send + Drop,
    P::Outlet: Send + Drop,
    P::Stub: Drop,
    K::Desk: Send + Drop,
    requires fit { IsFit (Run words.now) }
    requires uuid { IsWrittenUuid words.now.uuid }
    requires ranges { IsRanged words.now }
    requires input { (I.told input.old).is_open ≡ true }
    ensures { HasRun words.now (C.answer clock.old) outside (input_flow (I.told input.old) (I.told input.new)) result }
{
    let Outside {
        mut programs,
        mut desks,
    } = outside;
    let made = do_tasks(rt, alloc, words, &mut programs, &mut desks, input, clock);
    Ran {
        outside: Outside { programs, desks },
        journal: made.journal,
        answers: made.answers,
        wires: made.wires,
        tables: made.tables,
        end: end_of(made.end),
    }
}

// What is to be told of a run that ended so.
fn end_of(end: RunEnd) -> End
    ensures { result ≡ end_of end }
{
    match end {
        RunEnd::BadKept(line) => End::BadKept(line),
        RunEnd::KeptTooLarge => End::KeptTooLarge,
        RunEnd::FileFailed => End::FileFailed,
        RunEnd::InputFailed => End::InputFailed,
        RunEnd::Refused { line, reason } => End::Refused { line, reason },
        RunEnd::Memory => End::Memory,
        RunEnd::Done(written) => End::Done(written),
    }
}
