// Ends and answers, each from a word and a number after it.
use crate::words;
use journal_model::{Answer, Why};

const PLAIN: &[(&str, Why)] = &[
    ("eof", Why::Eof),
    ("readfault", Why::ReadFault),
    ("longline", Why::LongLine),
    ("full", Why::Full),
    ("memory", Why::Memory),
    ("closed", Why::Closed),
];

/// Why a child ended.
pub(crate) fn why(text: &str) -> Option<Why> {
    let (word, rest) = words::cut(text);
    let at = words::number(rest);
    match word {
        "foul" => Some(Why::Foul { at }),
        "error" => Some(Why::Error { at }),
        "version" => Some(Why::Version { at }),
        _ => plain_why(word),
    }
}

fn plain_why(word: &str) -> Option<Why> {
    for (name, why) in PLAIN {
        if *name == word {
            return Some(*why);
        }
    }
    None
}

/// The answer of a task.
pub(crate) fn answer(text: &str) -> Option<Answer> {
    let (word, rest) = words::cut(text);
    let at = words::number(rest);
    match word {
        "unknown" => Some(Answer::Unknown { at }),
        "notprepared" => Some(Answer::NotPrepared { at }),
        "ended" => why(rest).map(|why| Answer::Ended { why }),
        _ => plain_answer(word),
    }
}

fn plain_answer(word: &str) -> Option<Answer> {
    match word {
        "stored" => Some(Answer::Stored),
        "got" => Some(Answer::Got),
        "present" => Some(Answer::Present),
        "dropped" => Some(Answer::Dropped),
        "renamed" => Some(Answer::Renamed),
        "absent" => Some(Answer::Absent),
        "unsupported" => Some(Answer::Unsupported),
        "unsent" => Some(Answer::Unsent),
        "startfault" => Some(Answer::StartFault),
        "nochild" => Some(Answer::NoChild),
        "filefault" => Some(Answer::FileFault),
        "nofile" => Some(Answer::NoFile),
        "memory" => Some(Answer::Memory),
        _ => None,
    }
}
