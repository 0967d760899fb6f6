ghost use Rattle.std.specs.Prelude.{◌≡◌, true};
ghost use Rattle.cli_words.specs.Values.{texts_of};
ghost use Rattle.run_and_check.specs.Run.Inputs.{input_flow};
ghost use Rattle.special_cli.specs.Calls.{IsCalled, IsDone, world};
ghost use Rattle.special_cli.specs.Commands.{Runs};
ghost use Rattle.special_cli.specs.Wishes.{wish_of, AreRead};

use crate::audit::audit;
use crate::check::check;
use crate::closing::Closing;
use crate::end::End;
use crate::info::info;
use crate::init::init;
use crate::outside::Outside;
use crate::ran::Ran;
use crate::recovery::recover;
use crate::rehearsal::rehearse_tasks;
use crate::run::run;
use crate::telling::tell;
use crate::walking::walk_tasks;
use ann_key::NoMemory;
use ann_outside::{Clock, Desks, Programs, Sink, Source};
use cli_words::{Command, command_of};
use std::alloc::Global;
use std::marker::{Send, Sync};
use std::sync::Wait;
use std::thread::Threads;

/// Does all that the program does: reads the words after its name, starts what they ask for, prints what comes of it to
/// `out` or why there is nothing to `err`, and leaves the status to end with.
///
/// 0: all is well, or a text that was to be recovered had begun nothing. 1: an answer isn't the one that was hoped for, not all was
/// answered, or a journal isn't legal. 2: the words aren't in the grammar. 3: the key, or a line of the input or of that text, is
/// refused, or the input is cut. 4: the input couldn't be read. 5: a write to `out` or `err` failed. 6: the kept file may not be as
/// it is, or it couldn't be read or written, nor that text be read. 7: no memory was found.
pub fn special<
    P: Programs,
    K: Desks,
    I: Source,
    O: Sink,
    E: Sink,
    C: Clock,
    R: Threads + Wait + Sync,
>(
    rt: &R,
    alloc: Global,
    words: &[String],
    programs: P,
    desks: K,
    input: &mut I,
    out: &mut O,
    err: &mut E,
    clock: &mut C,
) -> Closing<P, K>
where
    P::Inlet: Send + Drop,
    P::Outlet: Send + Drop,
    P::Stub: Drop,
    K::Desk: Send + Drop,
    requires open { ((I.told input.old).is_open ≡ true) × ((O.told out.old).is_open ≡ true) × ((E.told err.old).is_open ≡ true) }
    ensures done { IsDone (world (C.answer clock.old) (P.told programs) (K.made desks) (I.told input.old) (I.told input.new)
        (O.told out.old) (O.told out.new) (E.told err.old) (E.told err.new)) (wish_of (texts_of words.now)) result.status result.left }
    ensures called { IsCalled (world (C.answer clock.old) (P.told programs) (K.made desks) (I.told input.old) (I.told input.new)
        (O.told out.old) (O.told out.new) (E.told err.old) (E.told err.new)) (wish_of (texts_of words.now)) result.status result.left }
{
    let outside = Outside { programs, desks };
    let ran = do_words(rt, alloc, words, outside, input, clock);
    tell(alloc, ran, out, err)
}

// Reads the words, and does what they ask for.
fn do_words<P: Programs, K: Desks, I: Source, C: Clock, R: Threads + Wait + Sync>(
    rt: &R,
    alloc: Global,
    words: &[String],
    outside: Outside<P, K>,
    input: &mut I,
    clock: &mut C,
) -> Ran<P, K>
where
    P::Inlet: Send + Drop,
    P::Outlet: Send + Drop,
    P::Stub: Drop,
    K::Desk: Send + Drop,
    requires input { (I.told input.old).is_open ≡ true }
    ensures { Runs (C.answer clock.old) outside (input_flow (I.told input.old) (I.told input.new)) (wish_of (texts_of words.now)) result }
{
    match command_of(alloc, words) {
        Ok(command) => do_command(rt, alloc, &command, outside, input, clock),
        Err(NoMemory) => Ran::nothing(alloc, outside, End::Memory),
    }
}

// Does what was asked for.
fn do_command<P: Programs, K: Desks, I: Source, C: Clock, R: Threads + Wait + Sync>(
    rt: &R,
    alloc: Global,
    command: &Option<Command>,
    outside: Outside<P, K>,
    input: &mut I,
    clock: &mut C,
) -> Ran<P, K>
where
    P::Inlet: Send + Drop,
    P::Outlet: Send + Drop,
    P::Stub: Drop,
    K::Desk: Send + Drop,
    requires words { AreRead command.now }
    requires input { (I.told input.old).is_open ≡ true }
    ensures { Runs (C.answer clock.old) outside (input_flow (I.told input.old) (I.told input.new)) command.now result }
{
    match command {
        Some(Command::Show(page)) => Ran::nothing(alloc, outside, End::Shown(*page)),
        Some(Command::Check { program, key }) => {
            check(alloc, program.view(), key.view(), outside, clock)
        }
        Some(Command::Info { program, key }) => info(alloc, program.view(), key, outside),
        Some(Command::Init(words)) => init(alloc, words, outside),
        Some(Command::Run(words)) => run(rt, alloc, words, outside, input, clock),
        Some(Command::Audit) => audit(alloc, outside, input),
        Some(Command::Recover { journal, keep }) => recover(alloc, journal.view(), keep, outside),
        Some(Command::Rehearse { seed, tasks }) => {
            rehearse_tasks(rt, alloc, *seed, *tasks, outside)
        }
        Some(Command::Walk { seed, tasks }) => walk_tasks(alloc, *seed, *tasks, outside),
        None => Ran::nothing(alloc, outside, End::Usage),
    }
}
