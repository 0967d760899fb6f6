// What the settings ask for.
ghost use Rattle.std.specs.Prelude.{◌≡◌, true, false, Some, None, if◌then◌else◌, take, map, IfOk, MatchOption};
ghost use Rattle.std.specs.List.{list_any};
ghost use Rattle.registers.specs.Registers.{nothing_set, is_line, is_word};
ghost use Rattle.mirror_children.specs.Plan.Plans.{ReadsAs, ReadsPairs};
ghost use Rattle.mirror_children.specs.Plan.Settings.{IsParted, is_equals, is_pair, spells_pair, words, are_plan, plan_of, plan_at, spells_plan};

use ann_key::{Bytes, NoMemory, Text};
use registers::Registers;
use std::alloc::Global;
use std::str;

/// How many settings there are.
const MOST: usize = 8;

/// What one setting asks for: a program, and what is set of the remote that it serves.
#[derive(Drop)]
pub struct Plan {
    /// The number of the setting, from 1.
    pub number: u32,
    pub program: Text,
    pub registers: Registers,
}

/// What all settings ask for.
#[derive(Drop)]
pub enum Plans {
    /// The setting of this number is the first bad one.
    Bad(u32),
    /// One plan for each setting that isn't empty, in order.
    Asked(Vec<Plan>),
}

fn is_word(bytes: &[u8]) -> bool
    ensures { result ≡ is_word bytes.now }
{
    bytes.iter().all(|b| !(*b == b'\n' || *b == b' '))
}

fn is_line(bytes: &[u8]) -> bool
    ensures { result ≡ is_line bytes.now }
{
    bytes.iter().all(|b| *b != b'\n')
}

fn is_pair(name: &str, value: &str) -> bool
    ensures { result ≡ is_pair name.now value.now }
{
    !name.is_empty() && is_word(name.as_bytes()) && is_line(value.as_bytes())
}

// What stands before the first `=` of the word, and all after it.
fn parts(word: &str) -> Option<(&str, &str)>
    ensures { MatchOption result (list_any is_equals word.entry.now ≡ false) (λ p. IsParted (list_any is_equals) word.entry.now p.0.now p.1.now) }
{
    match word.split_once('=') {
        Some((name, value)) => Some((name, value)),
        None => None,
    }
}

// The name and the value of the word, if it spells them.
fn pair_in(word: &str) -> Option<(&str, &str)>
    ensures { MatchOption result (spells_pair word.entry.now ≡ false) (λ p. IsParted spells_pair word.entry.now p.0.now p.1.now) }
{
    let (name, value) = parts(word)?;
    if is_pair(name, value) {
        Some((name, value))
    } else {
        None
    }
}

// The words of a value.
fn words(alloc: Global, value: &str) -> Result<Vec<&str>, NoMemory>
    ensures { IfOk result (λ v. map (λ w. w.now) v.items ≡ words value.entry.now) }
{
    match value.split(' ').collect(alloc) {
        Ok(words) => Ok(words),
        Err(_) => Err(NoMemory),
    }
}

// The registers with the config values that the words spell, if each of them spells one.
fn registers_of(alloc: Global, words: &[&str]) -> Result<Option<Registers>, NoMemory>
    ensures { IfOk result (ReadsPairs (map (λ w. w.now) words.now)) }
{
    let mut registers = Registers::new(alloc);
    for word in words {
        let Some((name, value)) = pair_in(word) else {
            return Ok(None);
        };
        registers.set_config(name.as_bytes(), value.as_bytes())?;
    }
    Ok(Some(registers))
}

// The plan of these words, if they spell one.
fn plan_of(alloc: Global, number: u32, words: &[&str]) -> Result<Option<Plan>, NoMemory>
    ensures { IfOk result (λ p. p ≡ (if are_plan (map (λ w. w.now) words.now) then Some (plan_of number (map (λ w. w.now) words.now)) else None)) }
{
    let Some(program) = words.first() else {
        return Ok(None);
    };
    if program.is_empty() {
        return Ok(None);
    }
    let Some(registers) = registers_of(alloc, &words[1..])? else {
        return Ok(None);
    };
    Ok(Some(Plan {
        number,
        program: Text::copy(alloc, program)?,
        registers,
    }))
}

// The plan that the value of the setting of this number spells, if it spells one.
fn plan_in(alloc: Global, number: u32, value: &[u8]) -> Result<Option<Plan>, NoMemory>
    ensures { IfOk result (λ p. p ≡ (if spells_plan value.now then Some (plan_at number value.now) else None)) }
{
    let Ok(text) = str::from_utf8(value) else {
        return Ok(None);
    };
    let words = words(alloc, text)?;
    plan_of(alloc, number, &words)
}

// The values of the settings that there are.
fn first_values(values: &[Bytes]) -> &[Bytes]
    ensures { result.now ≡ take 8 values.entry.now }
{
    if values.len() > MOST {
        &values[..MOST]
    } else {
        values
    }
}

/// What the values of the settings ask for.
pub fn read_plans(alloc: Global, values: &[Bytes]) -> Result<Plans, NoMemory>
    ensures { IfOk result (ReadsAs values.now) }
{
    let values = first_values(values);
    let mut plans = Vec::new(alloc);
    for (at, value) in values.iter().enumerate() {
        let number = at as u32 + 1;
        let value = value.view();
        if !value.is_empty() {
            let Some(plan) = plan_in(alloc, number, value)? else {
                return Ok(Plans::Bad(number));
            };
            plans.push(plan)?;
        }
    }
    Ok(Plans::Asked(plans))
}
