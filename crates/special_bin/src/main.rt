// The program `special`: it makes the real objects, calls the top call, and ends with its status.
#![tactic(auto)]

mod beginning;
mod ended;
mod hints;
mod laws;
mod notes;
mod people;
mod watched;
mod words;
mod work;

use ann_os::{OsClock, OsDesks, OsErrors, OsInput, OsOutput, OsPrograms};
use ann_outside::write_all;
use beginning::begin;
use cli_words::memory_line;
use ended::Ended;
use people::tell_people;
use special_cli::special;
use std::env;
use std::io::{ErrorKind, IsTerminal};
use std::process::ExitCode;
use std::rt::Env;
use watched::{WatchedDesks, faults_of};

// The words after the program's own name; none where they aren't UTF-8, which is out of the grammar. None is out of
// memory.
fn words_of<R: Env + AllocGlobal>(rt: &R) -> Option<Vec<String>> {
    let mut words = Vec::new(rt.alloc());
    let args = match env::args(rt) {
        Ok(args) => args,
        Err(error) if error.kind() == ErrorKind::OutOfMemory => return None,
        Err(_) => return Some(words),
    };
    for word in args.skip(1) {
        if words.push(word).is_err() {
            return None;
        }
    }
    Some(words)
}

fn main(rt: HostRuntime) -> ExitCode {
    let mut err = OsErrors::new(rt.stderr());
    let Some(words) = words_of(&rt) else {
        let status = match write_all(&mut err, memory_line()) {
            Ok(()) => 7,
            Err(_) => 5,
        };
        return ExitCode::from(status);
    };
    if let Err(status) = begin(&rt, words.as_slice(), rt.stdin().is_terminal(), &mut err) {
        return ExitCode::from(status);
    }
    let mut input = OsInput::new(rt.stdin());
    let mut out = OsOutput::new(rt.stdout());
    let mut clock = OsClock::new(&rt);
    let closing = special(
        &rt,
        rt.alloc(),
        words.as_slice(),
        OsPrograms::new(&rt),
        WatchedDesks::new(rt.alloc(), OsDesks::new(&rt)),
        &mut input,
        &mut out,
        &mut err,
        &mut clock,
    );
    let status = closing.status;
    let ended = Ended {
        status,
        journal: &closing.journal,
        answers: closing.answers.as_slice(),
        faults: faults_of(closing.tables.as_slice()),
        failure: closing.programs.failure(),
    };
    // What can't be said to people changes nothing. `special` doesn't promise that it left `err` open, so this is one of its own.
    let mut people = OsErrors::new(rt.stderr());
    let _ = tell_people(rt.alloc(), words.as_slice(), &ended, &mut people);
    drop(closing);
    ExitCode::from(status)
}
