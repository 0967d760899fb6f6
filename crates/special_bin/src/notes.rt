// Notices on standard error: what helps people, and changes no status.
use crate::ended::Ended;
use crate::words::program_of;
use ann_key::{NoMemory, Text};
use journal_look::verdict_of;
use journal_model::{Answer, Verdict};
use std::alloc::{AllocError, Global};
use std::io::{Error, ErrorKind};

/// That the tasks are read from a terminal, where nothing would be said until they end.
pub(crate) const AT_TERMINAL: &str =
    "the tasks are read from the terminal, one a line: end them with Ctrl-D";

const AFTER_INIT: &str =
    "settings are given by: special init PROGRAM UUID KEEP NAME=VALUE .., and PROGRAM --help may say which there are";

const AFTER_RUN: &str =
    "settings are given by: special init PROGRAM UUID KEEP NAME=VALUE .., and then special run --keep KEEP ..";

const AFTER_CHECK: &str =
    "check and info give no settings, which are given by: special init PROGRAM UUID KEEP NAME=VALUE .., and then special run --keep KEEP ..";

// Why the program couldn't be started.
fn start_note(alloc: Global, program: &str, error: Error) -> Result<String, AllocError> {
    let is_path = program.contains('/');
    match error.kind() {
        ErrorKind::NotFound if is_path => format!(in alloc;
            "{program} couldn't be started: it isn't there, or the interpreter that its first line names isn't"
        ),
        ErrorKind::NotFound => format!(in alloc;
            "{program} couldn't be started: it isn't in PATH, and a program in the current folder is ./{program}"
        ),
        ErrorKind::PermissionDenied => format!(in alloc;
            "{program} couldn't be started: it isn't an executable file, which chmod +x makes of a script"
        ),
        _ => format!(in alloc; "{program} couldn't be started: {error}"),
    }
}

// Whether the child said that it can't get ready, or can't be set up.
fn is_refused(ended: &Ended<'_>, counts_unsupported: bool) -> bool {
    match verdict_of(ended.journal, 1, 1) {
        Some(Verdict::Failed { .. }) => true,
        Some(Verdict::Unsupported { .. }) => counts_unsupported,
        _ => false,
    }
}

fn is_unprepared(ended: &Ended<'_>) -> bool {
    ended
        .answers
        .iter()
        .any(|answer| matches!(answer, Answer::NotPrepared { .. }))
}

// What to do next where a remote may lack settings.
fn settings_note(words: &[String], ended: &Ended<'_>) -> Option<&'static str> {
    let [command, ..] = words else {
        return None;
    };
    match command.as_str() {
        "init" if is_refused(ended, false) => Some(AFTER_INIT),
        "info" if is_refused(ended, true) => Some(AFTER_CHECK),
        "check" if is_unprepared(ended) => Some(AFTER_CHECK),
        "run" if is_unprepared(ended) => Some(AFTER_RUN),
        _ => None,
    }
}

/// The notices after a command that ended so, each without its beginning.
pub(crate) fn notes(
    alloc: Global,
    words: &[String],
    ended: &Ended<'_>,
) -> Result<Vec<Text>, NoMemory> {
    let mut notes = Vec::new(alloc);
    if let (Some(program), Some(error)) = (program_of(words), ended.failure) {
        notes.push(Text::from_string(start_note(alloc, program, error)?))?;
    }
    if let Some(note) = settings_note(words, ended) {
        notes.push(Text::copy(alloc, note)?)?;
    }
    Ok(notes)
}
