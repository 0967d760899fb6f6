// The second line on standard error: what is wrong, and what to write or to look at.
ghost use Rattle.std.specs.Prelude.{◌≡◌, is_some, IfOk};
ghost use Rattle.special_bin.specs.People.{has_hint};

use crate::ended::Ended;
use crate::watched::{Deed, Fault};
use crate::words::{is_given, name_of, value_of};
use ann_key::{NoMemory, Text, numeral_of};
use std::alloc::{AllocError, Global};
use std::io::{Error, ErrorKind};
use uuid::Uuid;

// What follows a number option, the least and the most that it may be.
#[derive(Clone, Copy)]
struct Range {
    takes: &'static str,
    least: u64,
    most: u64,
}

// What an option of `run` takes.
#[derive(Clone, Copy)]
enum Takes {
    Number(Range),
    Uuid,
    Text(&'static str),
    Nothing,
}

fn number(takes: &'static str, least: u64, most: u64) -> Takes {
    Takes::Number(Range { takes, least, most })
}

fn option_of(name: &str) -> Takes {
    match name {
        "--program" => Takes::Text("a program's path, or its name in PATH"),
        "--uuid" => Takes::Uuid,
        "--jobs" => number("a number from 1 to 64, such as 8", 1, 64),
        "--chunk" => number(
            "a number of bytes up to 1099511627776, such as 1048576",
            0,
            1_099_511_627_776,
        ),
        "--name" => Takes::Text("the remote's name"),
        "--gitdir" => Takes::Text("a folder"),
        "--keep" | "--journal" => Takes::Text("a file"),
        "--work" => Takes::Text("a folder"),
        "--starts" => number("a number from 1 to 16", 1, 16),
        "--again" => number("a number from 0 to 8", 0, 8),
        _ => Takes::Nothing,
    }
}

fn is_number(value: &str, range: &Range) -> bool {
    match numeral_of(value.as_bytes()) {
        Some(number) => range.least <= number && number <= range.most,
        None => false,
    }
}

// What is wrong with a value of the option, if something is.
fn value_hint(alloc: Global, name: &str, value: &str) -> Result<Option<String>, AllocError> {
    let takes = match option_of(name) {
        Takes::Number(range) if is_number(value, &range) => return Ok(None),
        Takes::Number(range) => range.takes,
        Takes::Uuid if Uuid::try_parse(value).is_ok() => return Ok(None),
        Takes::Uuid => "a UUID, such as 6f9619ff-8b86-d011-b42d-00cf4fc964ff",
        Takes::Text(takes) if value.is_empty() => takes,
        Takes::Text(_) => return Ok(None),
        Takes::Nothing => {
            let text = format!(in alloc; "run has no option {name}: try special run --help")?;
            return Ok(Some(text));
        }
    };
    let text = format!(in alloc; "{name} takes {takes}: try special run --help")?;
    Ok(Some(text))
}

fn first_or_none(words: &[String]) -> Option<&str> {
    match words.first() {
        Some(word) => Some(word.as_str()),
        None => None,
    }
}

fn first_of(words: &[String]) -> &str {
    first_or_none(words).unwrap_or("")
}

// What is wrong with the words after `run`.
fn run_hint(alloc: Global, words: &[String]) -> Result<String, AllocError> {
    let mut is_value = false;
    for at in 0..words.len() {
        if is_value {
            is_value = false;
            continue;
        }
        let word = words[at].as_str();
        let name = name_of(word);
        let rest = &words[at + 1..];
        if is_given(rest, name) {
            return format!(in alloc; "{name} is given twice: try special run --help");
        }
        let value = match word.split_once('=') {
            Some((_, value)) => value,
            None => {
                is_value = true;
                first_of(rest)
            }
        };
        if let Some(text) = value_hint(alloc, name, value)? {
            return Ok(text);
        }
    }
    for name in ["--program", "--uuid"] {
        if !is_given(words, name) {
            return format!(in alloc; "run needs {name}: try special run --help");
        }
    }
    String::from_str(
        alloc,
        "a value is empty or holds a line end: try special run --help",
    )
}

// What is wrong with the words after `init`.
fn init_hint(alloc: Global, words: &[String]) -> Result<String, AllocError> {
    let [_, uuid, _, settings @ ..] = words else {
        return String::from_str(
            alloc,
            "init takes PROGRAM UUID KEEP [NAME=VALUE ..]: try special init --help",
        );
    };
    if Uuid::try_parse(uuid.as_str()).is_err() {
        return format!(in alloc;
            "{uuid} is no UUID, such as 6f9619ff-8b86-d011-b42d-00cf4fc964ff: try special init --help"
        );
    }
    for setting in settings {
        let name = name_of(setting.as_str());
        if name.is_empty() || name.len() == setting.len() {
            return format!(in alloc;
                "{setting} is no setting: write NAME=VALUE, such as directory=/home/me/contents"
            );
        }
    }
    String::from_str(
        alloc,
        "a word is empty or holds a line end, or a NAME holds a space: try special init --help",
    )
}

// What is wrong with the words.
fn usage_hint(alloc: Global, words: &[String]) -> Result<String, AllocError> {
    let [command, rest @ ..] = words else {
        return String::from_str(
            alloc,
            "name a command, in words that are UTF-8: try special --help",
        );
    };
    let takes = match command.as_str() {
        "run" => return run_hint(alloc, rest),
        "init" => return init_hint(alloc, rest),
        "check" => "PROGRAM KEY",
        "info" => "PROGRAM [KEY]",
        "audit" => "no words, since it reads its input",
        "recover" => "JOURNAL [KEEP]",
        "rehearse" => "SEED TASKS [world], SEED from 0 to 4294967295, TASKS from 1 to 65536",
        _ => return format!(in alloc; "there is no command {command}: try special --help"),
    };
    format!(in alloc; "{command} takes {takes}: try special {command} --help")
}

// What failed at one file.
fn fault_hint(alloc: Global, fault: &Fault) -> Result<String, AllocError> {
    let file = fault.file.as_str();
    match fault.deed {
        Deed::Read => format!(in alloc; "{file} can't be read, or another run uses it"),
        Deed::Write => format!(in alloc; "{file} can't be made or written"),
        Deed::Place => {
            format!(in alloc; "{file}.new was written, and can't be given the name {file}")
        }
    }
}

// Which kept file the words name.
fn keep_of(words: &[String]) -> Option<&str> {
    match words {
        [command, _, _, keep, ..] if command.as_str() == "init" => Some(keep.as_str()),
        _ => value_of(words, "--keep"),
    }
}

// Which file a recovery couldn't use, where no call on the kept file failed.
fn recover_hint(
    alloc: Global,
    text: &str,
    keep: Option<&str>,
    is_read: bool,
) -> Result<String, AllocError> {
    match keep {
        Some(keep) if is_read => format!(in alloc;
            "{keep} was left as it is: it has changed since the run of {text} began, or would be too large"
        ),
        Some(keep) => format!(in alloc;
            "{text} can't be read, or {keep} has changed since that run began"
        ),
        None => format!(in alloc; "{text} can't be read"),
    }
}

// Which file a command couldn't use for itself. Where no call failed, it is what the kept file holds.
fn file_hint(
    alloc: Global,
    words: &[String],
    faults: &[Fault],
    is_read: bool,
) -> Result<String, AllocError> {
    match (words, faults) {
        ([command, text, rest @ ..], []) if command.as_str() == "recover" => {
            recover_hint(alloc, text.as_str(), first_or_none(rest), is_read)
        }
        (_, []) => match keep_of(words) {
            Some(keep) => format!(in alloc; "the kept file is {keep}: mend it, or name another"),
            None => String::from_str(alloc, "a file can't be read or written"),
        },
        (_, [fault]) => fault_hint(alloc, fault),
        (_, [first, second, ..]) => {
            let first = fault_hint(alloc, first)?;
            let second = fault_hint(alloc, second)?;
            format!(in alloc; "{first}; and {second}")
        }
    }
}

// What is wrong with an input that was refused.
fn input_hint(alloc: Global, words: &[String]) -> Result<String, AllocError> {
    match words.first() {
        Some(command) => format!(in alloc;
            "special {command} --help says what each reason means; nothing was started"
        ),
        None => String::from_str(alloc, "nothing was started"),
    }
}

// Whether a command that ends so has a second line.
fn has_hint(status: u8) -> bool
    ensures { result ≡ has_hint status }
{
    status == 2 || status == 3 || status == 4 || status == 6 || status == 7
}

fn text_of(alloc: Global, words: &[String], ended: &Ended<'_>) -> Result<String, AllocError> {
    match ended.status {
        2 => usage_hint(alloc, words),
        3 => input_hint(alloc, words),
        4 => String::from_str(alloc, "standard input can't be read; nothing was started"),
        6 => file_hint(alloc, words, ended.faults, ended.journal.len() > 0),
        _ => String::from_str(
            alloc,
            "there wasn't enough memory: do fewer tasks in a run, or free some",
        ),
    }
}

/// The second line after the fixed one of this status, without its beginning: what is wrong with the words, or which file it is. Which
/// words these are no clause says: tests do.
pub(crate) fn hint(
    alloc: Global,
    words: &[String],
    ended: &Ended<'_>,
) -> Result<Option<Text>, NoMemory>
    ensures { IfOk result (λ hint. is_some hint ≡ has_hint ended.now.status) }
{
    if !has_hint(ended.status) {
        return Ok(None);
    }
    let text = text_of(alloc, words, ended)?;
    Ok(Some(Text::from_string(text)))
}

/// The second line where the folder for files in transit can't be made.
pub(crate) fn work_hint(alloc: Global, work: &str, error: Error) -> Result<Text, NoMemory> {
    let text = match error.kind() {
        ErrorKind::NotFound => format!(in alloc;
            "--work {work} can't be made, since the folder that it is in isn't there: make that, or name another; nothing was started"
        ),
        ErrorKind::AlreadyExists => format!(in alloc;
            "--work {work} isn't a folder: name another; nothing was started"
        ),
        _ => format!(in alloc;
            "--work {work} can't be made: {error}: name another; nothing was started"
        ),
    }?;
    Ok(Text::from_string(text))
}
