// A child of the world: its kit, and the pipes between it and the host.
ghost use Rattle.std.specs.Prelude.{◌≡◌, ◌≤◌, ◌++◌, true, false, length, IsTrue, MatchOption, IfOk, OnOk, option_map};
ghost use Rattle.annex_model.specs.Lines.{has_newline, text};
ghost use Rattle.annex_model.specs.Messages.{IsAskable};
ghost use Rattle.wire_line.specs.HeldBytes.{first_line, after_line};
ghost use Rattle.wire_msg.specs.Shown.{host_shown};
ghost use Rattle.kit_serve.specs.Kit.Calls.{is_line_said};
ghost use Rattle.kit_serve.specs.Kit.Kits.{has_line_fields};
ghost use Rattle.kit_serve.specs.Kit.Stages.{Follows};
ghost use Rattle.pair_kit.specs.Cues.{settings};
ghost use Rattle.pair_kit.specs.Pairs.{heard, new_pair, moved_to_kit, moved_to_host, written_to};
ghost use Rattle.pair_kit.specs.Shelves.{content};
ghost use Rattle.pair_kit.specs.Works.{is_waiting, has_whole, word_for, put_found, bytes_found, Serves, request_with, last_said, StepsBy};
ghost use Rattle.pair_kit.specs.Outcomes.{Worked};

use crate::cue::Cue;
use crate::pipe::Pipe;
use crate::shelf::Shelf;
use crate::taken::Taken;
use crate::work::Work;
use ann_key::{Bytes, NoMemory};
use kit_serve::kit::{Asked, Call, Kit, Lines, Said};
use std::alloc::Global;
use std::marker::Model;
use wire_msg::{HostMsg, read_host};

/// The longest line that a kit takes, in bytes.
const LONGEST_LINE: usize = 131_072;

/// A kit, the line of the request that it answers, the lines that it took, and the bytes in its pipes and at either side.
#[derive(Drop)]
pub struct Pair {
    alloc: Global,
    kit: Kit<Cue>,
    request: Bytes,
    taken: Vec<Taken>,
    to_kit: Pipe,
    at_kit: Pipe,
    to_host: Pipe,
    at_host: Pipe,
}

impl Model for Pair {
    ghost use Rattle.pair_kit.specs.Pairs.{PairValue};

    ghost Value = { PairValue };

    ghost view = { λ p. record { kit = p.kit; request = p.request; taken = p.taken.items; to_kit = p.to_kit; at_kit = p.at_kit; to_host = p.to_host; at_host = p.at_host } };
}

// What the remote is to say to the message: by the keys and the files.
fn word_for(
    alloc: Global,
    keys: &Shelf,
    files: &Shelf,
    message: &HostMsg<'_>,
) -> Result<Said, NoMemory>
    ensures word { IfOk result (λ said. said ≡ word_for keys.now files.now (host_shown message.now)) }
    ensures line { IfOk result (λ said. IsTrue (is_line_said said)) }
{
    match message {
        HostMsg::Transfer(true, _, file) => {
            if files.find(file).is_some() {
                Ok(Said::Yes)
            } else {
                Said::failure(alloc, b"no such file")
            }
        }
        HostMsg::Transfer(false, key, _) => {
            if keys.find(key.text()).is_some() {
                Ok(Said::Yes)
            } else {
                Said::failure(alloc, b"no such key")
            }
        }
        HostMsg::Checkpresent(key) => {
            if keys.find(key.text()).is_some() {
                Ok(Said::Yes)
            } else {
                Ok(Said::No)
            }
        }
        _ => Ok(Said::Yes),
    }
}

// One step of a kit whose remote says that word: the call that it made, and what it says.
fn step_kit(
    alloc: Global,
    kit: &mut Kit<Cue>,
    message: &HostMsg<'_>,
    word: Said,
) -> Result<(Option<Call>, Lines), NoMemory>
    requires askable { IsAskable (host_shown message.now) }
    requires lines { IsTrue (has_line_fields (host_shown message.now)) }
    requires word { IsTrue (is_line_said word) }
    ensures { IfOk result (λ s. StepsBy word kit.old kit.new (host_shown message.now) s.0 s.1) }
{
    *kit.remote_mut() = Cue::new(alloc, word);
    let step = kit.step(message)?;
    let call = kit.remote_mut().take_call();
    Ok((call, step.say))
}

// The line that is said to a request, where nothing more is.
fn last_said(alloc: Global, is_free: bool, say: &Lines) -> Result<Option<Bytes>, NoMemory>
    ensures { IfOk result (λ line. line ≡ last_said is_free say.now) }
{
    if !is_free {
        return Ok(None);
    }
    match say.view().first() {
        Some(line) => Ok(Some(Bytes::copy(alloc, line.view())?)),
        None => Ok(None),
    }
}

// The lines, each with its byte 10, go into the pipe.
fn push_lines(pipe: &mut Pipe, lines: &Lines) -> Result<(), NoMemory>
    ensures { OnOk result (pipe.new ≡ pipe.old ++ text lines.now) }
{
    for line in lines.view() {
        pipe.push_line(line.view())?;
    }
    Ok(())
}

// A copy of what stands under a name goes under another name, and is handed back; nothing where there is none.
fn put_copy(
    alloc: Global,
    from: &Shelf,
    from_name: &[u8],
    to: &mut Shelf,
    to_name: &[u8],
) -> Result<Bytes, NoMemory>
    ensures { IfOk result (λ bytes. (bytes ≡ bytes_found (content from_name.now from.now)) × (to.new ≡ put_found to_name.now (content from_name.now from.now) to.old)) }
{
    let Some(bytes) = from.copy_of(alloc, from_name)? else {
        return Ok(Bytes::from_vec(Vec::new(alloc)));
    };
    let copy = Bytes::copy(alloc, bytes.view())?;
    to.put(Bytes::copy(alloc, to_name)?, copy)?;
    Ok(bytes)
}

// What the remote was asked for is done to the keys and the files. It hands back what was put under a name.
fn serve(
    alloc: Global,
    keys: &mut Shelf,
    files: &mut Shelf,
    call: &Option<Call>,
) -> Result<Bytes, NoMemory>
    ensures { IfOk result (Serves keys.old files.old (option_map (λ c. c.asked) call.now) keys.new files.new) }
{
    let Some(call) = call else {
        return Ok(Bytes::from_vec(Vec::new(alloc)));
    };
    match &call.asked {
        Asked::Store(key, file) => {
            put_copy(
                alloc,
                files,
                file.view().as_bytes(),
                keys,
                key.view().text(),
            )
        }
        Asked::Retrieve(key, file) => {
            put_copy(
                alloc,
                keys,
                key.view().text(),
                files,
                file.view().as_bytes(),
            )
        }
        Asked::Remove(key) => {
            keys.remove(key.view().text());
            Ok(Bytes::from_vec(Vec::new(alloc)))
        }
        Asked::Prepare(_) | Asked::Initialize(_) | Asked::Check(_) => Ok(Bytes::from_vec(Vec::new(
            alloc,
        ))),
    }
}

// The line of the request that is answered: a VALUE belongs to the one before it.
fn request_with(
    alloc: Global,
    request: &Bytes,
    message: &HostMsg<'_>,
    line: &[u8],
) -> Result<Bytes, NoMemory>
    ensures { IfOk result (λ r. r ≡ request_with request.now (host_shown message.now) line.now) }
{
    match message {
        HostMsg::Value(_) => Bytes::copy(alloc, request.view()),
        _ => Bytes::copy(alloc, line),
    }
}

// Whether there is nothing to take at a kit's side.
fn is_waiting(side: &Pipe) -> bool
    ensures { result ≡ is_waiting side.now }
{
    side.line().is_none() && side.len() <= LONGEST_LINE
}

// The first line at a kit's side, where it is whole and no longer than it may be.
fn whole_line(alloc: Global, side: &Pipe) -> Result<Option<Bytes>, NoMemory>
    ensures { IfOk result (λ line. MatchOption line (has_whole side.now ≡ false) (λ l. (has_whole side.now ≡ true) × (l ≡ first_line side.now))) }
{
    match side.line() {
        Some(line) if line.len() <= LONGEST_LINE => Ok(Some(Bytes::copy(alloc, line)?)),
        _ => Ok(None),
    }
}

impl Pair {
    /// A child that was just started, whose version is on its way.
    pub fn new(alloc: Global) -> Result<Pair, NoMemory>
        ensures { IfOk result (λ pair. pair ≡ new_pair) }
    {
        let mut to_host = Pipe::new(alloc);
        to_host.push_line(b"VERSION 1")?;
        Ok(Pair {
            alloc,
            kit: Kit::new(alloc, Cue::new(alloc, Said::Yes)),
            request: Bytes::from_vec(Vec::new(alloc)),
            taken: Vec::new(alloc),
            to_kit: Pipe::new(alloc),
            at_kit: Pipe::new(alloc),
            to_host,
            at_host: Pipe::new(alloc),
        })
    }

    /// A line for the kit, without its byte 10, goes into its pipe.
    pub fn write(&mut self, line: &[u8]) -> Result<(), NoMemory>
        ensures { OnOk result (self.new ≡ written_to line.now self.old) }
    {
        self.to_kit.push_line(line)
    }

    /// How many bytes are on their way to the kit, and to the host.
    pub fn on_the_way(&self) -> (usize, usize)
        ensures { (result.0 ≡ length self.now.to_kit) × (result.1 ≡ length self.now.to_host) }
    {
        (self.to_kit.len(), self.to_host.len())
    }

    /// So many bytes reach the kit's side.
    pub fn move_to_kit(&mut self, n: usize) -> Result<(), NoMemory>
        requires { n ≤ length self.old.to_kit }
        ensures { OnOk result (self.new ≡ moved_to_kit n self.old) }
    {
        self.to_kit.give(&mut self.at_kit, n)
    }

    /// So many bytes reach the host's side.
    pub fn move_to_host(&mut self, n: usize) -> Result<(), NoMemory>
        requires { n ≤ length self.old.to_host }
        ensures { OnOk result (self.new ≡ moved_to_host n self.old) }
    {
        self.to_host.give(&mut self.at_host, n)
    }

    /// The first line that waits at the host's side, if there is a whole one.
    pub fn line(&self) -> Option<&[u8]>
        ensures { MatchOption result (has_newline self.now.at_host ≡ false) (λ line. (has_newline self.now.at_host ≡ true) × (line.now ≡ first_line self.now.at_host)) }
    {
        self.at_host.line()
    }

    /// How many bytes wait at the host's side.
    pub fn waiting(&self) -> usize
        ensures { result ≡ length self.now.at_host }
    {
        self.at_host.len()
    }

    /// The first line that waits at the host's side was heard.
    pub fn drop_line(&mut self)
        ensures { has_newline self.old.at_host ≡ true → self.new ≡ record self.old { at_host = after_line self.old.at_host } }
    {
        self.at_host.drop_line();
    }

    /// The line of the request that the kit answers.
    pub fn request(&self) -> &[u8]
        ensures { result.now ≡ self.now.request }
    {
        self.request.view()
    }

    /// The kit takes the first line that waits at its side, and its remote does what it is asked for to the keys and the files.
    pub fn work(&mut self, keys: &mut Shelf, files: &mut Shelf) -> Result<Work, NoMemory>
        requires { Follows settings self.old.kit (heard self.old.taken) }
        ensures { IfOk result (Worked keys.old files.old self.old keys.new files.new self.new) }
    {
        if is_waiting(&self.at_kit) {
            return Ok(Work::Nothing);
        }
        let Some(line) = whole_line(self.alloc, &self.at_kit)? else {
            return Ok(Work::Over);
        };
        let Some(message) = read_host(line.view()) else {
            return Ok(Work::Over);
        };
        let request = request_with(self.alloc, &self.request, &message, line.view())?;
        let word = word_for(self.alloc, keys, files, &message)?;
        let (call, say) = step_kit(self.alloc, &mut self.kit, &message, word)?;
        let bytes = serve(self.alloc, keys, files, &call)?;
        let answer = last_said(self.alloc, self.kit.is_free(), &say)?;
        self.request = request;
        push_lines(&mut self.to_host, &say)?;
        self.at_kit.drop_line();
        self.taken.push(Taken { line, call })?;
        Ok(Work::Line { answer, bytes })
    }
}
