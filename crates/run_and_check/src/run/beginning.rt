// What a run begins with: the kept file, the input and the clock, in this order.
ghost use Rattle.std.specs.Prelude.{◌≡◌, [], IfOk, Some, true};
ghost use Rattle.ann_outside.specs.TextFile.Names.{NamesOnly};
ghost use Rattle.kept_file.specs.Text.KeptFiles.{CountsAs, notes_of, registers_of};
ghost use Rattle.run_and_check.specs.Run.Inputs.{input_flow, run_opening};
ghost use Rattle.run_and_check.specs.Run.Beginnings.{BeginsRun, ReadsInput, ReadsKept};
ghost use Rattle.run_and_check.specs.Run.Runs.{IsRunFile};

use crate::run::made::RunEnd;
use ann_key::NoMemory;
use ann_outside::{Clock, Desk, Source};
use cli_words::RunWords;
use cli_words::task_input::{InputError, Limits, read_tasks};
use journal_model::Opening;
use kept_file::desk::{KeptRead, read_kept};
use registers::Registers;
use std::alloc::Global;
use task_text::Tasks;
use task_text::chunk_log::NoteBook;

// What a kept file hands on.
#[derive(Drop)]
struct Kept {
    registers: Registers,
    notes: NoteBook,
}

// What an empty text hands on.
fn nothing_kept(alloc: Global) -> Kept
    ensures registers { result.registers ≡ registers_of [] }
    ensures notes { CountsAs result.notes (notes_of []) }
{
    Kept {
        registers: Registers::new(alloc),
        notes: NoteBook::new(alloc),
    }
}

// What the kept file of that name hands on, or what stands against it.
fn read_named<D: Desk>(
    alloc: Global,
    words: &RunWords,
    name: &str,
    desk: &mut D,
) -> Result<Kept, RunEnd>
    requires named { words.now.keep ≡ Some name.now }
    ensures kept { ReadsKept words.now (D.told desk.old).files (D.told desk.old).counts.faults (D.told desk.new).counts.faults result }
    ensures files { (D.told desk.new).files ≡ (D.told desk.old).files }
    ensures calls { NamesOnly (IsRunFile words.now) (D.told desk.old).log (D.told desk.new).log }
{
    match read_kept(alloc, desk, name) {
        Ok(KeptRead::Kept { registers, notes }) => Ok(Kept { registers, notes }),
        Ok(KeptRead::BadLine(line)) => Err(RunEnd::BadKept(line)),
        Ok(KeptRead::TooLarge) => Err(RunEnd::KeptTooLarge),
        Ok(KeptRead::Fault) => Err(RunEnd::FileFailed),
        Err(NoMemory) => Err(RunEnd::Memory),
    }
}

// What the kept file hands on, where the words name one.
#[tactic(auto, using(ann_outside::proofs::TextFileLemmas::Naming::names_none))]
fn read_keep<D: Desk>(alloc: Global, words: &RunWords, desk: &mut D) -> Result<Kept, RunEnd>
    ensures kept { ReadsKept words.now (D.told desk.old).files (D.told desk.old).counts.faults (D.told desk.new).counts.faults result }
    ensures files { (D.told desk.new).files ≡ (D.told desk.old).files }
    ensures calls { NamesOnly (IsRunFile words.now) (D.told desk.old).log (D.told desk.new).log }
{
    match &words.keep {
        Some(name) => read_named(alloc, words, name.view(), desk),
        None => Ok(nothing_kept(alloc)),
    }
}

// The tasks of the input, or what stands against it.
fn read_input<I: Source>(alloc: Global, input: &mut I) -> Result<Tasks, RunEnd>
    requires { (I.told input.old).is_open ≡ true }
    ensures { ReadsInput (input_flow (I.told input.old) (I.told input.new)) result }
{
    match read_tasks(alloc, input, &Limits::TASKS) {
        Ok(tasks) => Ok(tasks),
        Err(InputError::Refused { line, reason }) => Err(RunEnd::Refused { line, reason }),
        Err(InputError::Failed) => Err(RunEnd::InputFailed),
        Err(InputError::NoMemory) => Err(RunEnd::Memory),
    }
}

// All of it, and the identity of the words.
fn opening_of(
    alloc: Global,
    words: &RunWords,
    kept: Kept,
    tasks: Tasks,
    stamp: u64,
) -> Result<Opening, NoMemory>
    ensures { IfOk result (λ o. o ≡ run_opening words.now tasks kept.registers kept.notes stamp) }
{
    let Kept { registers, notes } = kept;
    Ok(Opening {
        tasks,
        registers,
        notes,
        identity: words.identity(alloc)?,
        stamp,
        again: words.again,
    })
}

/// Reads the kept file that the words name, then the input to its end, then the clock. The first that can't be taken ends the
/// run.
pub(crate) fn begin<D: Desk, I: Source, C: Clock>(
    alloc: Global,
    words: &RunWords,
    desk: &mut D,
    input: &mut I,
    clock: &mut C,
) -> Result<Opening, RunEnd>
    requires { (I.told input.old).is_open ≡ true }
    ensures begins { BeginsRun words.now (C.answer clock.old) (D.told desk.old).files
        (input_flow (I.told input.old) (I.told input.new))
        (D.told desk.old).counts.faults (D.told desk.new).counts.faults result }
    ensures files { (D.told desk.new).files ≡ (D.told desk.old).files }
    ensures calls { NamesOnly (IsRunFile words.now) (D.told desk.old).log (D.told desk.new).log }
{
    let kept = read_keep(alloc, words, desk)?;
    let tasks = read_input(alloc, input)?;
    let stamp = clock.now();
    match opening_of(alloc, words, kept, tasks, stamp) {
        Ok(opening) => Ok(opening),
        Err(NoMemory) => Err(RunEnd::Memory),
    }
}
