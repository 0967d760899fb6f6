// The options of `run`, as a command of clap.
ghost use Rattle.std.specs.Prelude.{◌≡◌, IfOk, MatchResult, false};
ghost use Rattle.clap.specs.Words.{app_of, rule_of, with_rule};
ghost use Rattle.cli_words.specs.Grammar.{needed, optional, run_grammar, with_value};

use clap::{Arg, Command};
use std::alloc::{AllocError, Global};

// An option with a value, which may be given.
fn optional<'a>(alloc: Global, name: &'a str) -> Arg<'a>
    ensures rule { rule_of result ≡ optional name.entry.now }
    ensures local { result.global ≡ false }
{
    Arg::new(alloc, name).long(name)
}

fn needed<'a>(alloc: Global, name: &'a str) -> Arg<'a>
    ensures rule { rule_of result ≡ needed name.entry.now }
    ensures local { result.global ≡ false }
{
    optional(alloc, name).required(true)
}

fn with_value<'a>(alloc: Global, name: &'a str, value: &'a str) -> Arg<'a>
    ensures rule { rule_of result ≡ with_value name.entry.now value.entry.now }
    ensures local { result.global ≡ false }
{
    optional(alloc, name).default_value(value)
}

// The command with one more option, where there was memory for those before it.
fn with<'a>(
    command: Result<Command<'a>, AllocError>,
    option: Arg<'a>,
) -> Result<Command<'a>, AllocError>
    requires { option.global ≡ false }
    ensures { IfOk result (λ c. MatchResult command.entry (λ d. app_of c ≡ with_rule (app_of d) (rule_of option.entry)) (λ e. ⊥)) }
{
    command?.arg(option)
}

/// The command whose options `run` takes. It takes no other words.
pub(super) fn run_grammar<'a>(alloc: Global) -> Result<Command<'a>, AllocError>
    ensures { IfOk result (λ c. app_of c ≡ run_grammar) }
{
    let command = Ok(Command::new(alloc, "run"));
    let command = with(command, needed(alloc, "program"));
    let command = with(command, needed(alloc, "uuid"));
    let command = with(command, with_value(alloc, "jobs", "4"));
    let command = with(command, with_value(alloc, "chunk", "0"));
    let command = with(command, with_value(alloc, "name", "remote"));
    let command = with(command, with_value(alloc, "gitdir", ".git"));
    let command = with(command, optional(alloc, "keep"));
    let command = with(command, optional(alloc, "journal"));
    let command = with(command, with_value(alloc, "work", "."));
    let command = with(command, with_value(alloc, "starts", "3"));
    with(command, with_value(alloc, "again", "0"))
}
