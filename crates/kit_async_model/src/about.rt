// What a kit says of its remotes.
ghost use Rattle.std.specs.Prelude.{◌≡◌, ◌++◌, IfOk, OnOk, map, option_copied, option_map, slice_get};
ghost use Rattle.wire_msg.specs.Shown.{host_shown};
ghost use Rattle.kit_serve.specs.declared.kit.describe.Pair.{Pair};
ghost use Rattle.kit_async_model.specs.declared.about.Fact.TheVariants.{Fixed};
ghost use Rattle.kit_async_model.specs.Abouts.{about_of, pair_lines, fact_lines, all_facts, ended, told_of, or_unsupported};

use crate::due::one_line;
use ann_key::{Bytes, NoMemory};
use kit_serve::kit::{Describe, Lines, Pair, aside};
use std::alloc::Global;
use std::marker::Model;
use wire_msg::{HostMsg, RemoteMsg, write_remote};

/// A fact about the remotes, for `git annex info`.
#[derive(Drop)]
pub enum Fact {
    /// It is known beforehand.
    Fixed { name: Bytes, text: Bytes },
    /// It is the value of the setting of that number, from 0, that the host told to the last PREPARE that succeeded.
    Setting { name: Bytes, number: u32 },
}

/// Several facts, in the order in which they are told.
#[derive(Drop)]
pub struct Facts {
    items: Vec<Fact>,
}

impl Model for Facts {
    ghost use Rattle.std.specs.Prelude.{List};
    ghost use Rattle.kit_async_model.specs.declared.about.Fact.{Fact};

    ghost Value = { List Fact };

    ghost view = { λ f. f.items.items };
}

impl Facts {
    /// Those of the vector. It takes no memory.
    pub fn new(list: Vec<Fact>) -> Facts
        ensures { result ≡ list.items }
    {
        Facts { items: list }
    }

    /// The facts, lent. It takes no memory.
    pub fn view(&self) -> &[Fact]
        ensures { result.now ≡ self.now }
    {
        self.items.as_slice()
    }
}

/// What is said of the remotes: the lines that answer LISTCONFIGS, GETCOST and GETAVAILABILITY, without tags, and the facts that answer
/// GETINFO. Where there are none the request isn't supported. Nor is WHEREIS, whose answer depends on the key.
#[derive(Drop)]
pub struct About {
    pub configs: Lines,
    pub cost: Lines,
    pub availability: Lines,
    pub facts: Facts,
}

// The pairs as facts, and these after them.
fn facts_of(alloc: Global, pairs: Vec<Pair>, more: Vec<Fact>) -> Result<Vec<Fact>, NoMemory>
    ensures { IfOk result (λ facts. facts.items ≡ map (λ (p : Pair). Fixed p.name p.text) pairs.items ++ more.items) }
{
    let mut facts = Vec::new(alloc);
    for pair in pairs {
        facts.push(Fact::Fixed {
            name: pair.name,
            text: pair.text,
        })?;
    }
    let mut more = more;
    facts.append(&mut more)?;
    Ok(facts)
}

// The name and the text of a fact; nothing where there is no text.
fn push_pair(
    alloc: Global,
    lines: &mut Vec<Bytes>,
    name: &[u8],
    text: Option<&[u8]>,
) -> Result<(), NoMemory>
    ensures { OnOk result (lines.new.items ≡ lines.old.items ++ pair_lines name.now (option_copied text.entry)) }
{
    if let Some(text) = text {
        lines.push(write_remote(alloc, &RemoteMsg::Infofield(name))?)?;
        lines.push(write_remote(alloc, &RemoteMsg::Infovalue(text))?)?;
    }
    Ok(())
}

// The value of the setting of that number, if it was told.
fn value(told: &[Bytes], number: u32) -> Option<&[u8]>
    ensures { option_copied result ≡ slice_get told.now number }
{
    match told.get(number as usize) {
        Some(value) => Some(value.view()),
        None => None,
    }
}

fn push_fact(
    alloc: Global,
    lines: &mut Vec<Bytes>,
    told: &[Bytes],
    fact: &Fact,
) -> Result<(), NoMemory>
    ensures { OnOk result (lines.new.items ≡ lines.old.items ++ fact_lines told.now fact.now) }
{
    match fact {
        Fact::Fixed { name, text } => push_pair(alloc, lines, name.view(), Some(text.view())),
        Fact::Setting { name, number } => {
            push_pair(alloc, lines, name.view(), value(told, *number))
        }
    }
}

// The lines of the facts, with the end of the list where there are some.
fn info(alloc: Global, told: &[Bytes], facts: &[Fact]) -> Result<Vec<Bytes>, NoMemory>
    ensures { IfOk result (λ lines. lines.items ≡ ended (all_facts told.now facts.now)) }
{
    let mut lines = all_facts(alloc, told, facts)?;
    if !lines.is_empty() {
        lines.push(write_remote(alloc, &RemoteMsg::Infoend)?)?;
    }
    Ok(lines)
}

fn all_facts(alloc: Global, told: &[Bytes], facts: &[Fact]) -> Result<Vec<Bytes>, NoMemory>
    ensures { IfOk result (λ lines. lines.items ≡ all_facts told.now facts.now) }
{
    let mut lines = Vec::new(alloc);
    for fact in facts {
        push_fact(alloc, &mut lines, told, fact)?;
    }
    Ok(lines)
}

fn copies(alloc: Global, lines: &[Bytes]) -> Result<Vec<Bytes>, NoMemory>
    ensures { IfOk result (λ copies. copies.items ≡ lines.now) }
{
    let mut copies = Vec::new(alloc);
    for line in lines {
        copies.push(Bytes::copy(alloc, line.view())?)?;
    }
    Ok(copies)
}

// The same lines; where there are none, the line that the request isn't supported.
fn or_unsupported(alloc: Global, lines: &[Bytes]) -> Result<Lines, NoMemory>
    ensures { IfOk result (λ copy. copy ≡ or_unsupported lines.now) }
{
    match lines {
        [] => one_line(alloc, &RemoteMsg::UnsupportedRequest),
        _ => Ok(Lines::new(copies(alloc, lines)?)),
    }
}

impl About {
    /// What the remote says of itself, with these facts after its own.
    pub fn of<R: Describe>(alloc: Global, remote: &R, facts: Vec<Fact>) -> Result<About, NoMemory>
        ensures { IfOk result (λ about. about ≡ about_of (R.description remote.now) facts.items) }
    {
        let own = remote.info(alloc)?;
        Ok(About {
            configs: aside(alloc, remote, Some(HostMsg::Listconfigs))?,
            cost: aside(alloc, remote, Some(HostMsg::Getcost))?,
            availability: aside(alloc, remote, Some(HostMsg::Getavailability))?,
            facts: Facts::new(facts_of(alloc, own, facts)?),
        })
    }

    /// The lines that answer the request, if it is one about the remotes, by the values of the settings that the host told.
    pub(crate) fn answer(
        &self,
        alloc: Global,
        told: &[Bytes],
        request: Option<HostMsg<'_>>,
    ) -> Result<Option<Lines>, NoMemory>
        ensures { IfOk result (λ lines. lines ≡ option_map or_unsupported (told_of self.now told.now (option_map host_shown request.entry))) }
    {
        let lines = match request {
            Some(HostMsg::Getinfo) => {
                let lines = info(alloc, told, self.facts.view())?;
                return Ok(Some(or_unsupported(alloc, lines.as_slice())?));
            }
            Some(HostMsg::Listconfigs) => &self.configs,
            Some(HostMsg::Getcost) => &self.cost,
            Some(HostMsg::Getavailability) => &self.availability,
            Some(_) | None => return Ok(None),
        };
        Ok(Some(or_unsupported(alloc, lines.view())?))
    }
}
