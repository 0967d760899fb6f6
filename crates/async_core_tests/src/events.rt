// Events, each from its word and what stands after it.
use crate::cut;
use ann_key::{Bytes, NoMemory};
use kit_async_model::Event;
use kit_serve::kit::{Pair, Pairs, Said};
use std::alloc::Global;

/// The event that the text spells.
pub(crate) fn event(alloc: Global, text: &str) -> Result<Option<Event>, NoMemory> {
    let (word, rest) = cut(text);
    match word {
        "hear" => Ok(Some(Event::Hear(Bytes::copy(alloc, rest.as_bytes())?))),
        "called" => Ok(said(alloc, rest)?.map(Event::Called)),
        _ => Ok(plain(word)),
    }
}

// One setting is set: its name, and its text after a blank.
fn set(alloc: Global, rest: &str) -> Result<Said, NoMemory> {
    let (name, text) = cut(rest);
    let name = Bytes::copy(alloc, name.as_bytes())?;
    let text = Bytes::copy(alloc, text.as_bytes())?;
    let mut pairs = Vec::new(alloc);
    pairs.push(Pair { name, text })?;
    Ok(Said::Set(Pairs::new(pairs)))
}

// What a remote said: `yes`, `no`, `failure` and the reason, or `set` and the setting.
fn said(alloc: Global, text: &str) -> Result<Option<Said>, NoMemory> {
    let (word, rest) = cut(text);
    match word {
        "yes" => Ok(Some(Said::Yes)),
        "no" => Ok(Some(Said::No)),
        "failure" => Ok(Some(Said::Failure(Bytes::copy(alloc, rest.as_bytes())?))),
        "set" => Ok(Some(set(alloc, rest)?)),
        _ => Ok(None),
    }
}

fn plain(word: &str) -> Option<Event> {
    match word {
        "take" => Some(Event::Take),
        "next" => Some(Event::Next),
        "wrote" => Some(Event::Wrote),
        "close" => Some(Event::Close),
        "break" => Some(Event::Break),
        _ => None,
    }
}
