// Reads the words.
ghost use Rattle.std.specs.Prelude.{◌≡◌, ◌<◌, IfOk, IfSome, length, option_map};
ghost use Rattle.cli_words.specs.Identities.{IsFit};
ghost use Rattle.cli_words.specs.Ranges.{HasRanges};
ghost use Rattle.cli_words.specs.Values.{padded_number_in, texts_of};
ghost use Rattle.cli_words.specs.Words.{all_behind, alone, command_of, is_help, of_command, most_rehearsed, most_seed, page_alone, page_of};
ghost use Rattle.cli_words.specs.Words.{check_of, info_of, init_of, recover_of, rehearse_of, rehearse_with, run_of, walk_with};
ghost use Rattle.cli_words.specs.declared.command.Command.TheVariants.{Run, Show};

use crate::command::{Command, InitWords, Page};
use crate::numbers::padded_number_in;
use crate::run::run_of;
use crate::settings::settings_in;
use crate::uuids::uuid_in;
use crate::values::are_words_of_command;
use ann_key::{NoMemory, Text};
use std::alloc::Global;

/// Reads the words after the program's name; None exactly where they aren't in the grammar. Whether a key is one is not
/// asked here.
pub fn command_of(alloc: Global, words: &[String]) -> Result<Option<Command>, NoMemory>
    ensures command { IfOk result (λ command. command ≡ command_of (texts_of words.now)) }
    ensures fit { IfOk result (λ command. IfSome command IsFit) }
    ensures ranges { IfOk result (λ command. IfSome command HasRanges) }
{
    command_in(alloc, words)
}

fn command_in(alloc: Global, words: &[String]) -> Result<Option<Command>, NoMemory>
    ensures { IfOk result (λ command. command ≡ command_of (texts_of words.now)) }
{
    match words {
        [] => Ok(None),
        [word] => Ok(alone(word.as_str())),
        [_, _, ..] => behind(alloc, words),
    }
}

// The only word.
fn alone(word: &str) -> Option<Command>
    ensures { result ≡ alone word.now }
{
    if word == "audit" {
        Some(Command::Audit)
    } else {
        show(page_alone(word))
    }
}

fn show(page: Option<Page>) -> Option<Command>
    ensures { result ≡ option_map Show page }
{
    match page {
        Some(page) => Some(Command::Show(page)),
        None => None,
    }
}

fn page_alone(word: &str) -> Option<Page>
    ensures { result ≡ page_alone word.now }
{
    match word {
        "--help" => Some(Page::Overview),
        "--version" => Some(Page::Version),
        _ => None,
    }
}

fn page_of(word: &str) -> Option<Page>
    ensures { result ≡ page_of word.now }
{
    match word {
        "check" => Some(Page::Check),
        "info" => Some(Page::Info),
        "init" => Some(Page::Init),
        "run" => Some(Page::Run),
        "audit" => Some(Page::Audit),
        "recover" => Some(Page::Recover),
        "rehearse" => Some(Page::Rehearse),
        _ => None,
    }
}

fn is_help(words: &[String]) -> bool
    ensures { result ≡ is_help (texts_of words.now) }
{
    match words {
        [word] => word.as_str() == "--help",
        _ => false,
    }
}

// The first word, with words after it.
fn behind(alloc: Global, words: &[String]) -> Result<Option<Command>, NoMemory>
    requires { 1 < length words.now }
    ensures { IfOk result (λ command. command ≡ all_behind (texts_of words.now)) }
{
    let word = words[0].as_str();
    let rest = &words[1..];
    if is_help(rest) {
        return Ok(show(page_of(word)));
    }
    if !are_words_of_command(rest) {
        return Ok(None);
    }
    if word == "check" {
        check_of(alloc, rest)
    } else if word == "info" {
        info_of(alloc, rest)
    } else if word == "init" {
        init_of(alloc, rest)
    } else if word == "run" {
        run_command(alloc, words)
    } else if word == "recover" {
        recover_of(alloc, rest)
    } else if word == "rehearse" {
        Ok(rehearse_of(rest))
    } else {
        Ok(None)
    }
}

fn check_of(alloc: Global, words: &[String]) -> Result<Option<Command>, NoMemory>
    ensures { IfOk result (λ command. command ≡ check_of (texts_of words.now)) }
{
    match words {
        [program, key] => Ok(Some(Command::Check {
            program: Text::copy(alloc, program.as_str())?,
            key: Text::copy(alloc, key.as_str())?,
        })),
        _ => Ok(None),
    }
}

fn info_of(alloc: Global, words: &[String]) -> Result<Option<Command>, NoMemory>
    ensures { IfOk result (λ command. command ≡ info_of (texts_of words.now)) }
{
    match words {
        [program] => Ok(Some(Command::Info {
            program: Text::copy(alloc, program.as_str())?,
            key: None,
        })),
        [program, key] => Ok(Some(Command::Info {
            program: Text::copy(alloc, program.as_str())?,
            key: Some(Text::copy(alloc, key.as_str())?),
        })),
        _ => Ok(None),
    }
}

fn init_of(alloc: Global, words: &[String]) -> Result<Option<Command>, NoMemory>
    ensures { IfOk result (λ command. command ≡ init_of (texts_of words.now)) }
{
    let [program, uuid, keep, ..] = words else {
        return Ok(None);
    };
    let Some(uuid) = uuid_in(alloc, uuid.as_str())? else {
        return Ok(None);
    };
    let Some(settings) = settings_in(alloc, &words[3..])? else {
        return Ok(None);
    };
    Ok(Some(Command::Init(InitWords {
        program: Text::copy(alloc, program.as_str())?,
        uuid,
        keep: Text::copy(alloc, keep.as_str())?,
        settings,
    })))
}

fn run_command(alloc: Global, words: &[String]) -> Result<Option<Command>, NoMemory>
    ensures { IfOk result (λ command. command ≡ option_map Run (run_of (texts_of words.now))) }
{
    match run_of(alloc, words)? {
        Some(run) => Ok(Some(Command::Run(run))),
        None => Ok(None),
    }
}

fn recover_of(alloc: Global, words: &[String]) -> Result<Option<Command>, NoMemory>
    ensures { IfOk result (λ command. command ≡ recover_of (texts_of words.now)) }
{
    match words {
        [journal] => Ok(Some(Command::Recover {
            journal: Text::copy(alloc, journal.as_str())?,
            keep: None,
        })),
        [journal, keep] => Ok(Some(Command::Recover {
            journal: Text::copy(alloc, journal.as_str())?,
            keep: Some(Text::copy(alloc, keep.as_str())?),
        })),
        _ => Ok(None),
    }
}

// The seed and the number of tasks, and perhaps the word for a world.
fn rehearse_of(words: &[String]) -> Option<Command>
    ensures { result ≡ rehearse_of (texts_of words.now) }
{
    match words {
        [seed, tasks] => rehearse_with(seed.as_str(), tasks.as_str()),
        [seed, tasks, world] => {
            if world.as_str() == "world" {
                walk_with(seed.as_str(), tasks.as_str())
            } else {
                None
            }
        }
        _ => None,
    }
}

fn rehearse_with(seed: &str, tasks: &str) -> Option<Command>
    ensures { result ≡ rehearse_with (padded_number_in 0 most_seed seed.now) (padded_number_in 1 most_rehearsed tasks.now) }
{
    let seed = padded_number_in(seed, 0, 4_294_967_295)?;
    let tasks = padded_number_in(tasks, 1, 65_536)?;
    Some(Command::Rehearse {
        seed: seed as u32,
        tasks: tasks as u32,
    })
}

fn walk_with(seed: &str, tasks: &str) -> Option<Command>
    ensures { result ≡ walk_with (padded_number_in 0 most_seed seed.now) (padded_number_in 1 most_rehearsed tasks.now) }
{
    let seed = padded_number_in(seed, 0, 4_294_967_295)?;
    let tasks = padded_number_in(tasks, 1, 65_536)?;
    Some(Command::Walk {
        seed: seed as u32,
        tasks: tasks as u32,
    })
}
