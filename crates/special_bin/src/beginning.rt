// What is done before a run begins, and said for people.
ghost use Rattle.std.specs.Prelude.{◌≡◌, true, IfOk, OnOk};
ghost use Rattle.cli_words.specs.Values.{texts_of};
ghost use Rattle.cli_words.specs.Words.{command_of};
ghost use Rattle.special_bin.specs.People.{work_in};

use crate::hints::work_hint;
use crate::notes::AT_TERMINAL;
use crate::people::{Unsaid, say_lines};
use crate::work::make_work;
use ann_key::{NoMemory, Text};
use ann_outside::{Failed, Sink, write_all};
use cli_words::{Command, command_of, file_line};
use std::alloc::Global;
use std::io::Error;
use std::rt::Files;

// The folder for files in transit, where the words ask for a run.
fn work_of(alloc: Global, words: &[String]) -> Result<Option<Text>, NoMemory>
    ensures { IfOk result (λ work. work ≡ work_in (command_of (texts_of words.now))) }
{
    match command_of(alloc, words)? {
        Some(Command::Run(run)) => Ok(Some(Text::copy(alloc, run.work.view())?)),
        _ => Ok(None),
    }
}

// Says that the folder can't be made, and gives the status to end with.
fn refuse<E: Sink>(alloc: Global, work: &str, error: Error, err: &mut E) -> u8
    requires { (E.told err.old).is_open ≡ true }
{
    if write_all(err, file_line()).is_err() {
        return 5;
    }
    // What can't be said to people changes nothing.
    let _ = say_lines(alloc, &work_hint(alloc, work, error).ok(), &[], err);
    6
}

// That the tasks are read from the terminal.
fn note_terminal<E: Sink>(alloc: Global, err: &mut E) -> Result<(), Unsaid>
    requires { (E.told err.old).is_open ≡ true }
    ensures open { (E.told err.new).is_open ≡ true }
{
    let note = Text::copy(alloc, AT_TERMINAL)?;
    say_lines(alloc, &None, &[note], err)
}

/// Makes the folder for files in transit, where the words ask for a run, and says where its tasks are read from a terminal. `Err` has the
/// status to end with, since the folder can't be made; what was written then no clause says.
pub(crate) fn begin<R: Files + AllocGlobal, E: Sink>(
    rt: &R,
    words: &[String],
    is_terminal: bool,
    err: &mut E,
) -> Result<(), u8>
    requires { (E.told err.old).is_open ≡ true }
    ensures open { OnOk result ((E.told err.new).is_open ≡ true) }
{
    let alloc = rt.alloc();
    // Where no memory is found, the command says it.
    let Ok(Some(work)) = work_of(alloc, words) else {
        return Ok(());
    };
    if let Err(error) = make_work(rt, work.view()) {
        return Err(refuse(alloc, work.view(), error, err));
    }
    if is_terminal {
        // What can't be said to people changes nothing.
        let _ = note_terminal(alloc, err);
    }
    Ok(())
}
