// One task over a desk in memory, with a call that fails, and what came of it.
ghost use Rattle.std.specs.Prelude.{◌≡◌, true, false, IfOk};
ghost use Rattle.annex_model.specs.Lines.{has_newline};
ghost use Rattle.task_model.specs.Askers.{are_layouts};
ghost use Rattle.task_model.specs.Ran.{may_note};
ghost use Rattle.task_text.specs.TaskLines.{IsTask};

use crate::tasks::script::DoneAsker;
use ann_key::{Bytes, NoMemory, Text};
use ann_outside::{Call, MemDesk};
use journal_model::Answer;
use std::alloc::Global;
use task_model::Setup;
use task_run::run_task;
use task_text::{Task, TaskError, Work, read_task};

/// Names of files, and what they hold.
pub type Files = &'static [(&'static str, &'static str)];

/// A task's line, the layouts of its key, how large chunks are stored, and the files that stand on its desk.
#[derive(Clone, Copy)]
pub struct Case {
    pub line: &'static str,
    pub layouts: &'static [(u64, u64)],
    pub chunk: u64,
    pub files: Files,
}

/// The word of the answer, and the desk.
#[derive(Drop)]
pub struct Outcome {
    pub answer: &'static str,
    pub desk: MemDesk,
}

fn file_of(alloc: Global, name: &str, text: &str) -> Result<(Text, Bytes), NoMemory> {
    let name = Text::copy(alloc, name)?;
    Ok((name, Bytes::copy(alloc, text.as_bytes())?))
}

fn files_of(alloc: Global, files: Files) -> Result<Vec<(Text, Bytes)>, NoMemory> {
    let mut list = Vec::new(alloc);
    for (name, text) in files {
        list.push(file_of(alloc, name, text)?)?;
    }
    Ok(list)
}

// A desk with these files, on which the call of that number fails.
fn desk_of(alloc: Global, files: Files, fails: u64) -> Result<MemDesk, NoMemory> {
    MemDesk::new(
        alloc,
        files_of(alloc, files)?,
        Vec::from_slice(alloc, &[fails])?,
    )
}

fn may_note(work: Work) -> bool
    ensures { result ≡ may_note work }
{
    matches!(work, Work::Store | Work::Drop)
}

// Those layouts whose chunks hold something.
fn layouts_of(alloc: Global, layouts: &[(u64, u64)]) -> Result<Vec<(u64, u64)>, NoMemory>
    ensures { IfOk result (λ list. are_layouts list.items ≡ true) }
{
    let mut list = Vec::new(alloc);
    for layout in layouts {
        if layout.0 != 0 {
            list.push(*layout)?;
        }
    }
    Ok(list)
}

fn setup_of(alloc: Global, chunk: u64) -> Result<Setup, NoMemory>
    ensures { IfOk result (λ setup. has_newline setup.work ≡ false) }
{
    Ok(Setup {
        work: Text::copy(alloc, "w")?,
        stamp: 5,
        chunk,
    })
}

fn outcome_of(answer: Answer, desk: MemDesk) -> Outcome {
    let word = word_of(&answer);
    drop(answer);
    Outcome { answer: word, desk }
}

fn run(
    alloc: Global,
    task: &Task,
    case: &Case,
    turn: u32,
    mut desk: MemDesk,
) -> Result<Outcome, NoMemory>
    requires { IsTask task.now }
{
    let setup = setup_of(alloc, case.chunk)?;
    let layouts = layouts_of(alloc, case.layouts)?;
    let mut asker = DoneAsker::new(alloc, 1, may_note(task.work), layouts);
    let answer = run_task(alloc, task, 1, turn, &setup, &mut asker, &mut desk);
    drop(asker);
    drop(setup);
    Ok(outcome_of(answer?, desk))
}

fn tried_task(
    alloc: Global,
    task: &Task,
    case: &Case,
    turn: u32,
    fails: u64,
) -> Result<Outcome, NoMemory>
    requires { IsTask task.now }
{
    let desk = desk_of(alloc, case.files, fails)?;
    run(alloc, task, case, turn, desk)
}

/// The case as task 1, where the desk's call of that number fails.
pub fn tried(alloc: Global, case: &Case, fails: u64) -> Result<Outcome, TaskError> {
    tried_in(alloc, case, 1, fails)
}

/// The same in this turn of the task.
pub fn tried_in(alloc: Global, case: &Case, turn: u32, fails: u64) -> Result<Outcome, TaskError> {
    let task = read_task(alloc, case.line.as_bytes())?;
    let outcome = tried_task(alloc, &task, case, turn, fails);
    drop(task);
    Ok(outcome?)
}

fn word_of(answer: &Answer) -> &'static str {
    match answer {
        Answer::Stored => "stored",
        Answer::Got => "got",
        Answer::Dropped => "dropped",
        Answer::Renamed => "renamed",
        Answer::Absent => "absent",
        Answer::FileFault => "filefault",
        Answer::Size { .. } => "size",
        Answer::Hash { .. } => "hash",
        _ => "another answer",
    }
}

// A call's word, and the name of its file.
fn call_of(call: &Call) -> (&'static str, &str) {
    match call {
        Call::Size { name, .. } => ("size", name.view()),
        Call::ReadAt { name, .. } => ("read", name.view()),
        Call::Create { name, .. } => ("create", name.view()),
        Call::Append { name, .. } => ("append", name.view()),
        Call::Cut { name, .. } => ("cut", name.view()),
        Call::Rename { from, .. } => ("rename", from.view()),
        Call::Remove { name, .. } => ("remove", name.view()),
    }
}

impl Outcome {
    /// Whether so many calls were made, the last of them this one.
    pub fn ends_with(&self, count: u64, word: &str, name: &str) -> bool {
        let calls = self.desk.log();
        match calls.last() {
            Some(call) => calls.len() as u64 == count && call_of(call) == (word, name),
            None => count == 0,
        }
    }

    /// The first of these files that holds something else in the end, where a dash stands for no file; no name where there is none.
    pub fn other(&self, left: Files) -> &'static str {
        for (name, want) in left {
            let holds = match self.desk.content(name) {
                Some(bytes) => bytes.view() == want.as_bytes(),
                None => *want == "-",
            };
            if !holds {
                return name;
            }
        }
        ""
    }
}
