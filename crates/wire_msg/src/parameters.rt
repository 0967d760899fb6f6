// The parameters of a message, by their classes, and what they spell.
ghost use Rattle.std.specs.Prelude.{◌≡◌, ◌++◌, ◌∷◌, IfOk, decimal};
ghost use Rattle.annex_model.specs.Messages.{fields_text, rest_in, direction_word, scope_word};
ghost use Rattle.wire_msg.specs.Shown.{params_shown};

use ann_key::{Bytes, KeyRef, NoMemory};
use std::alloc::Global;

/// What follows the command word: true for `STORE` and for `GLOBAL`.
#[derive(Clone, Copy)]
pub(super) enum Parameters<'a> {
    Bare,
    Number(u64),
    Key(KeyRef<'a>),
    Rest(&'a [u8]),
    Scope(bool),
    WordRest(&'a [u8], &'a [u8]),
    WordsRest(&'a [u8], &'a [u8], &'a [u8]),
    KeyRest(KeyRef<'a>, &'a [u8]),
    Transfer(bool, KeyRef<'a>),
    TransferRest(bool, KeyRef<'a>, &'a [u8]),
}

/// The rest that they end with, which is empty where they have none.
pub(super) fn rest_of<'a>(parameters: Parameters<'a>) -> &'a [u8]
    ensures { result.now ≡ rest_in (params_shown parameters.entry) }
{
    match parameters {
        Parameters::Rest(rest)
        | Parameters::WordRest(_, rest)
        | Parameters::WordsRest(_, _, rest)
        | Parameters::KeyRest(_, rest)
        | Parameters::TransferRest(_, _, rest) => rest,
        Parameters::Bare
        | Parameters::Number(_)
        | Parameters::Key(_)
        | Parameters::Scope(_)
        | Parameters::Transfer(_, _) => &[],
    }
}

/// The word, and each parameter after a space.
pub(super) fn line(
    alloc: Global,
    word: &[u8],
    parameters: Parameters<'_>,
) -> Result<Bytes, NoMemory>
    ensures { IfOk result (λ b. b ≡ word.now ++ fields_text (params_shown parameters.entry)) }
{
    let line = Vec::from_slice(alloc, word)?;
    let line = with_parameters(alloc, line, parameters)?;
    Ok(Bytes::from_vec(line))
}

fn with_parameters(
    alloc: Global,
    line: Vec<u8>,
    parameters: Parameters<'_>,
) -> Result<Vec<u8>, NoMemory>
    ensures { IfOk result (λ v. v.items ≡ line.items ++ fields_text (params_shown parameters.entry)) }
{
    match parameters {
        Parameters::Bare => Ok(line),
        Parameters::Number(number) => with_number(alloc, line, number),
        Parameters::Key(key) => with_field(line, key.text()),
        Parameters::Rest(rest) => with_field(line, rest),
        Parameters::Scope(global) => with_field(line, scope_word(global)),
        Parameters::WordRest(word, rest) => with_two(line, word, rest),
        Parameters::WordsRest(first, second, rest) => with_three(line, first, second, rest),
        Parameters::KeyRest(key, rest) => with_two(line, key.text(), rest),
        Parameters::Transfer(store, key) => with_two(line, direction_word(store), key.text()),
        Parameters::TransferRest(store, key, rest) => with_three(
            line,
            direction_word(store),
            key.text(),
            rest,
        ),
    }
}

fn direction_word(store: bool) -> &'static [u8]
    ensures { result.now ≡ direction_word store }
{
    if store { b"STORE" } else { b"RETRIEVE" }
}

fn scope_word(global: bool) -> &'static [u8]
    ensures { result.now ≡ scope_word global }
{
    if global { b"GLOBAL" } else { b"LOCAL" }
}

fn with_field(mut line: Vec<u8>, field: &[u8]) -> Result<Vec<u8>, NoMemory>
    ensures { IfOk result (λ v. v.items ≡ line.items ++ 32 ∷ field.now) }
{
    line.push(b' ')?;
    line.extend_from_slice(field)?;
    Ok(line)
}

fn with_number(alloc: Global, line: Vec<u8>, number: u64) -> Result<Vec<u8>, NoMemory>
    ensures { IfOk result (λ v. v.items ≡ line.items ++ 32 ∷ decimal number) }
{
    let digits = format!(in alloc; "{number}")?;
    with_field(line, digits.as_bytes())
}

fn with_two(line: Vec<u8>, first: &[u8], second: &[u8]) -> Result<Vec<u8>, NoMemory>
    ensures { IfOk result (λ v. v.items ≡ line.items ++ (32 ∷ first.now ++ 32 ∷ second.now)) }
{
    let line = with_field(line, first)?;
    with_field(line, second)
}

fn with_three(line: Vec<u8>, first: &[u8], second: &[u8], third: &[u8]) -> Result<Vec<u8>, NoMemory>
    ensures { IfOk result (λ v. v.items ≡ line.items ++ (32 ∷ first.now ++ (32 ∷ second.now ++ 32 ∷ third.now))) }
{
    let line = with_two(line, first, second)?;
    with_field(line, third)
}
