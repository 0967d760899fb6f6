// The words of `run`.
ghost use Rattle.std.specs.Prelude.{◌≡◌, IfOk, Some, option_map, true};
ghost use Rattle.std.specs.Option.{option_map_or};
ghost use Rattle.clap.specs.Words.{found_of, first_of, rows_of};
ghost use Rattle.cli_words.specs.Grammar.{value_at};
ghost use Rattle.cli_words.specs.Values.{is_text, texts_of};
ghost use Rattle.cli_words.specs.Words.{are_texts, run_from, run_of, run_with};

use crate::command::RunWords;
use crate::grammar::run_grammar;
use crate::numbers::number_in;
use crate::uuids::uuid_in;
use crate::values::is_text;
use ann_key::{NoMemory, Text};
use clap::ArgMatches;
use clap::error::ErrorKind;
use std::alloc::Global;

// The greatest size of a chunk, in bytes.
const MOST_CHUNK: u64 = 1_099_511_627_776;

/// What the words of a run say, `run` among them; None where they aren't in the grammar.
pub(super) fn run_of(alloc: Global, words: &[String]) -> Result<Option<RunWords>, NoMemory>
    ensures { IfOk result (λ run. run ≡ run_of (texts_of words.now)) }
{
    let grammar = run_grammar(alloc)?;
    match grammar.try_get_matches_from(words) {
        Ok(matches) => run_from(alloc, &matches),
        Err(error) => match error.kind() {
            ErrorKind::OutOfMemory => Err(NoMemory),
            _ => Ok(None),
        },
    }
}

fn given<'a>(matches: &ArgMatches<'a>, name: &str) -> Option<&'a str>
    ensures { option_map (λ text. text.now) result ≡ first_of name.now (rows_of (found_of matches.now)) }
{
    matches.get_str(name)
}

fn value_at<'a>(matches: &ArgMatches<'a>, name: &str) -> &'a str
    ensures { result.now ≡ value_at (rows_of (found_of matches.now)) name.now }
{
    match given(matches, name) {
        Some(value) => value,
        None => "",
    }
}

fn are_texts(matches: &ArgMatches<'_>) -> bool
    ensures { result ≡ are_texts (rows_of (found_of matches.now)) }
{
    is_text(value_at(matches, "program"))
        && is_text(value_at(matches, "name"))
        && is_text(value_at(matches, "gitdir"))
        && is_text(value_at(matches, "work"))
        && is_text_or_none(given(matches, "keep"))
        && is_text_or_none(given(matches, "journal"))
}

fn is_text_or_none(value: Option<&str>) -> bool
    ensures { result ≡ option_map_or is_text (option_map (λ text. text.now) value.entry) true }
{
    match value {
        Some(value) => is_text(value),
        None => true,
    }
}

fn copy_at(alloc: Global, matches: &ArgMatches<'_>, name: &str) -> Result<Text, NoMemory>
    ensures { IfOk result (λ text. text ≡ value_at (rows_of (found_of matches.now)) name.now) }
{
    Text::copy(alloc, value_at(matches, name))
}

fn copy_given(alloc: Global, matches: &ArgMatches<'_>, name: &str) -> Result<Option<Text>, NoMemory>
    ensures { IfOk result (λ text. text ≡ first_of name.now (rows_of (found_of matches.now))) }
{
    match given(matches, name) {
        Some(value) => Ok(Some(Text::copy(alloc, value)?)),
        None => Ok(None),
    }
}

fn run_from(alloc: Global, matches: &ArgMatches<'_>) -> Result<Option<RunWords>, NoMemory>
    ensures { IfOk result (λ run. run ≡ run_from (rows_of (found_of matches.now))) }
{
    if !are_texts(matches) {
        return Ok(None);
    }
    let Some(uuid) = uuid_in(alloc, value_at(matches, "uuid"))? else {
        return Ok(None);
    };
    let Some(jobs) = number_in(value_at(matches, "jobs"), 1, 64) else {
        return Ok(None);
    };
    let Some(chunk) = number_in(value_at(matches, "chunk"), 0, MOST_CHUNK) else {
        return Ok(None);
    };
    let Some(starts) = number_in(value_at(matches, "starts"), 1, 16) else {
        return Ok(None);
    };
    let Some(again) = number_in(value_at(matches, "again"), 0, 8) else {
        return Ok(None);
    };
    let run = run_words(
        alloc,
        matches,
        uuid,
        jobs as u32,
        chunk,
        starts as u32,
        again as u32,
    )?;
    Ok(Some(run))
}

// The words of a run whose UUID and numbers are known.
fn run_words(
    alloc: Global,
    matches: &ArgMatches<'_>,
    uuid: Text,
    jobs: u32,
    chunk: u64,
    starts: u32,
    again: u32,
) -> Result<RunWords, NoMemory>
    ensures { IfOk result (λ run. Some run ≡ run_with (rows_of (found_of matches.now)) (Some uuid) (Some jobs) (Some chunk) (Some starts) (Some again)) }
{
    Ok(RunWords {
        program: copy_at(alloc, matches, "program")?,
        uuid,
        jobs,
        chunk,
        name: copy_at(alloc, matches, "name")?,
        gitdir: copy_at(alloc, matches, "gitdir")?,
        keep: copy_given(alloc, matches, "keep")?,
        journal: copy_given(alloc, matches, "journal")?,
        work: copy_at(alloc, matches, "work")?,
        starts,
        again,
    })
}
