// What remotes answer to each request, and what can't follow.
use crate::{requests, words};
use ann_key::NoMemory;
use host_talk::request::{Request, Talk};
use std::alloc::Global;
use std::mem;
use wire_msg::read_remote;

/// A talk that goes on from row to row.
#[derive(Drop)]
pub(crate) struct Talking {
    talk: Option<Talk>,
}

impl Talking {
    pub(crate) fn new() -> Talking {
        Talking { talk: None }
    }

    /// Begins a talk about the request.
    pub(crate) fn begin(
        &mut self,
        alloc: Global,
        out: &mut String,
        text: &str,
    ) -> Result<(), NoMemory> {
        let talk = talk_about(alloc, text)?;
        let has_none = talk.is_none();
        drop(mem::replace(&mut self.talk, talk));
        if has_none {
            words::tell(out, "no request")?;
        }
        Ok(())
    }

    /// Adds what the line is to it.
    pub(crate) fn hear(&mut self, out: &mut String, line: &str) -> Result<(), NoMemory> {
        match &mut self.talk {
            Some(talk) => hear(out, talk, line),
            None => Ok(words::tell(out, "no talk")?),
        }
    }
}

// A talk about a copy of the request that the text spells.
fn talk_about(alloc: Global, text: &str) -> Result<Option<Talk>, NoMemory> {
    match requests::request(alloc, text)? {
        Some(request) => Ok(Some(Talk::ask(copied(alloc, request)?))),
        None => Ok(None),
    }
}

// A copy of the request that a talk about it has.
fn copied(alloc: Global, request: Request) -> Result<Request, NoMemory> {
    let talk = Talk::ask(request);
    let copied = talk.request().copy(alloc);
    drop(talk);
    copied
}

fn hear(out: &mut String, talk: &mut Talk, line: &str) -> Result<(), NoMemory> {
    match read_remote(line.as_bytes()) {
        Some(message) => Ok(write!(out, " => {:?}", talk.hear(&message))?),
        None => Ok(words::tell(out, "no message")?),
    }
}

/// Adds what the line, after a bar, is to a new talk about the request.
pub(crate) fn heard(alloc: Global, out: &mut String, text: &str) -> Result<(), NoMemory> {
    let Some((request, line)) = text.split_once(" | ") else {
        return Ok(words::tell(out, "no line")?);
    };
    match talk_about(alloc, request)? {
        Some(mut talk) => {
            let heard = hear(out, &mut talk, line);
            drop(talk);
            heard
        }
        None => Ok(words::tell(out, "no request")?),
    }
}
