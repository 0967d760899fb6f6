// The names of a task's files.
ghost use Rattle.std.specs.Prelude.{◌≡◌, ◌++◌, IfOk, codes, decimal, false};
ghost use Rattle.task_model.specs.Names.{chunk_file, fetch_file, part_of, request_file, turn_text};
ghost use Rattle.annex_model.specs.Lines.{has_newline};

use crate::setup::Setup;
use crate::turn::TaskTurn;
use ann_key::{NoMemory, Text};
use std::alloc::Global;

/// What request n of the task's turn fetches into.
pub fn fetch_name(alloc: Global, setup: &Setup, turn: TaskTurn, n: u64) -> Result<Text, NoMemory>
    requires { has_newline setup.now.work ≡ false }
    ensures name { IfOk result (λ name. name ≡ fetch_file setup.now turn n) }
    ensures line { IfOk result (λ name. has_newline name ≡ false) }
{
    request_name(alloc, setup, turn, n, ".fetch")
}

/// What request n of the task's turn stores a chunk from.
pub fn chunk_name(alloc: Global, setup: &Setup, turn: TaskTurn, n: u64) -> Result<Text, NoMemory>
    requires { has_newline setup.now.work ≡ false }
    ensures name { IfOk result (λ name. name ≡ chunk_file setup.now turn n) }
    ensures line { IfOk result (λ name. has_newline name ≡ false) }
{
    request_name(alloc, setup, turn, n, ".chunk")
}

// The file of request n of the task's turn, with this ending.
fn request_name(
    alloc: Global,
    setup: &Setup,
    turn: TaskTurn,
    n: u64,
    ending: &str,
) -> Result<Text, NoMemory>
    ensures { IfOk result (λ name. name ≡ request_file setup.now turn n ending.now) }
{
    let text = turn_text(alloc, turn.turn)?;
    request_text(alloc, setup, turn.task, n, text.view(), ending)
}

// The same with what it says of the turn.
fn request_text(
    alloc: Global,
    setup: &Setup,
    number: u32,
    n: u64,
    said: &str,
    ending: &str,
) -> Result<Text, NoMemory>
    ensures { IfOk result (λ name. name ≡ setup.now.work ++ codes "/" ++ decimal setup.now.stamp ++ codes "-" ++ decimal number ++ codes "-" ++ decimal n ++ said.now ++ ending.now) }
{
    let work = setup.work.view();
    let stamp = setup.stamp;
    let name = format!(in alloc; "{work}/{stamp}-{number}-{n}{said}{ending}")?;
    Ok(Text::from_string(name))
}

// What the names of a turn's files say of it: nothing of the first.
fn turn_text(alloc: Global, turn: u32) -> Result<Text, NoMemory>
    ensures { IfOk result (λ text. text ≡ turn_text turn) }
{
    if turn <= 1 {
        return Ok(Text::from_string(String::new(alloc)));
    }
    let text = format!(in alloc; "-{turn}")?;
    Ok(Text::from_string(text))
}

/// What a get has fetched so far of a file.
pub fn part_name(alloc: Global, file: &str) -> Result<Text, NoMemory>
    ensures { IfOk result (λ name. name ≡ part_of file.now) }
{
    let name = format!(in alloc; "{file}.part")?;
    Ok(Text::from_string(name))
}
