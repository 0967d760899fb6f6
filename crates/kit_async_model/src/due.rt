// What is due in a job.
ghost use Rattle.std.specs.Prelude.{◌≡◌, ◌∷◌, [], IfOk, IsTrue, Some, None, is_some, true, bytes_eq, codes};
ghost use Rattle.std.specs.Str.{is_utf8};
ghost use Rattle.annex_model.specs.Messages.{Extensions, IsAskable, IsSayable, remote_line};
ghost use Rattle.annex_model.specs.Tags.{names_async};
ghost use Rattle.wire_msg.specs.Shown.{host_shown, remote_shown};
ghost use Rattle.kit_serve.specs.Kit.Calls.{is_line_said};
ghost use Rattle.kit_serve.specs.Kit.Kits.{work_due};
ghost use Rattle.kit_async_model.specs.Abouts.{lines_by};
ghost use Rattle.kit_async_model.specs.Jobs.{due_in, work_asked, if_prepared, lines_in, finals_in, job_line, is_for_any, key_in, request_of, spoken};
ghost use Rattle.kit_async_model.specs.Views.{DueOf, file_of};

use crate::job::Job;
use crate::setup::Setup;
use ann_key::{Bytes, Key, NoMemory, Text};
use kit_serve::kit::{Asked, Lines, Said, failed, final_lines};
use std::alloc::Global;
use std::str;
use wire_msg::{HostMsg, RemoteMsg, tag, write_remote};

/// What a request makes due: nothing, a line, or a call of a remote.
#[derive(Clone, Copy)]
pub(crate) enum Due<'a> {
    Silence,
    Line(RemoteMsg<'a>),
    Call,
}

fn is_async(word: &[u8]) -> bool
    ensures { result ≡ bytes_eq word.now (codes "ASYNC") }
{
    word == b"ASYNC".as_slice()
}

/// Whether ASYNC stands among the names of extensions.
pub fn has_async(names: &[u8]) -> bool
    ensures { result ≡ names_async (Some (Extensions names.now)) }
{
    names.split(|b| *b == 32).any(|word| is_async(word))
}

// The extensions that the kit speaks with a host that names these.
fn spoken(names: &[u8]) -> &'static [u8]
    ensures { result.now ≡ spoken names.now }
{
    if has_async(names) { b"ASYNC" } else { b"" }
}

fn is_text(bytes: &[u8]) -> bool
    ensures { result ≡ is_utf8 bytes.now }
{
    match str::from_utf8(bytes) {
        Ok(_) => true,
        Err(_) => false,
    }
}

// A request for a key is due to a remote, unless the kit isn't prepared or the file's name is no text.
fn for_key<'a>(request: HostMsg<'a>, prepared: bool, file: &[u8]) -> Due<'a>
    requires askable { IsAskable (host_shown request) }
    requires file { file_of (host_shown request) ≡ file.now }
    requires key { is_some (key_in (Some (host_shown request))) ≡ true }
    ensures { DueOf result (work_due None [] prepared (host_shown request.entry)) }
{
    if !prepared {
        Due::Line(failed(request, b"not prepared"))
    } else if !is_text(file) {
        Due::Line(failed(request, b"not text"))
    } else {
        Due::Call
    }
}

// The line of the message.
pub(crate) fn one_line(alloc: Global, message: &RemoteMsg<'_>) -> Result<Lines, NoMemory>
    requires { IsSayable (remote_shown message.now) }
    ensures { IfOk result (λ lines. lines ≡ remote_line (remote_shown message.now) ∷ []) }
{
    let mut lines = Vec::new(alloc);
    lines.push(write_remote(alloc, message)?)?;
    Ok(Lines::new(lines))
}

impl Job {
    /// What is due in it.
    pub(crate) fn due<'a>(&'a self, setup: &'a Setup) -> Due<'a>
        ensures { DueOf result (due_in setup.entry.now self.entry.now) }
    {
        match self.request() {
            None => Due::Line(RemoteMsg::UnsupportedRequest),
            Some(HostMsg::Extensions(names)) => Due::Line(RemoteMsg::Extensions(spoken(names))),
            Some(HostMsg::Prepare | HostMsg::Initremote | HostMsg::Value(_)) =>
                match self.next_name(setup) {
                    Some(name) => Due::Line(RemoteMsg::Getconfig(name)),
                    None => Due::Call,
                },
            Some(HostMsg::Transfer(store, key, file)) => for_key(
                HostMsg::Transfer(store, key, file),
                self.prepared,
                file,
            ),
            Some(HostMsg::Checkpresent(key)) => for_key(
                HostMsg::Checkpresent(key),
                self.prepared,
                b"",
            ),
            Some(HostMsg::Remove(key)) => for_key(HostMsg::Remove(key), self.prepared, b""),
            Some(HostMsg::Export(_) | HostMsg::Creds(_, _) | HostMsg::Error(_)) => Due::Silence,
            Some(_) => Due::Line(RemoteMsg::UnsupportedRequest),
        }
    }

    /// Whether any one remote may take it up.
    pub(crate) fn is_for_any(&self, setup: &Setup) -> bool
        ensures { result ≡ is_for_any setup.now self.now }
    {
        !self.is_making_ready() && matches!(self.due(setup), Due::Call)
    }

    // The line that is due in it without a call, if one is.
    fn due_lines(&self, alloc: Global, setup: &Setup) -> Result<Lines, NoMemory>
        ensures { IfOk result (λ lines. lines ≡ lines_by (due_in setup.now self.now)) }
    {
        match self.due(setup) {
            Due::Line(message) => one_line(alloc, &message),
            Due::Silence | Due::Call => Ok(Lines::new(Vec::new(alloc))),
        }
    }

    // The values that may be told of, once the kit is prepared.
    fn if_prepared<'a>(&self, told: &'a [Bytes]) -> &'a [Bytes]
        ensures { result.now ≡ if_prepared self.now.prepared told.entry.now }
    {
        if self.prepared { told } else { &[] }
    }

    /// The lines that are to be said next in it without a call, where the host told these values to the last PREPARE that succeeded;
    /// without their tags.
    pub fn lines(&self, alloc: Global, setup: &Setup, told: &[Bytes]) -> Result<Lines, NoMemory>
        ensures { IfOk result (λ lines. lines ≡ lines_in setup.now told.now self.now) }
    {
        let Some(about) = &setup.about else {
            return self.due_lines(alloc, setup);
        };
        match about.answer(alloc, self.if_prepared(told), self.request())? {
            Some(lines) => Ok(lines),
            None => self.due_lines(alloc, setup),
        }
    }

    /// The lines for what its remote said, which settles it; without their tags.
    pub fn final_lines(&self, alloc: Global, said: &Said) -> Result<Lines, NoMemory>
        requires { IsTrue (is_line_said said.now) }
        ensures { IfOk result (λ lines. lines ≡ finals_in self.now said.now) }
    {
        match self.request() {
            Some(request) => final_lines(alloc, request, said),
            None => one_line(alloc, &RemoteMsg::UnsupportedRequest),
        }
    }

    /// What its remote is called for, if it is.
    pub fn asked(&self, alloc: Global, setup: &Setup) -> Result<Option<Asked>, NoMemory>
        ensures { IfOk result (λ asked. asked ≡ work_asked setup.now self.now) }
    {
        let Due::Call = self.due(setup) else {
            return Ok(None);
        };
        match self.request() {
            Some(HostMsg::Prepare | HostMsg::Value(_)) => {
                Ok(Some(Asked::Prepare(self.values.copy(alloc)?)))
            }
            Some(HostMsg::Initremote) => Ok(Some(Asked::Initialize(self.values.copy(alloc)?))),
            Some(HostMsg::Transfer(store, key, file)) => {
                let Ok(file) = str::from_utf8(file) else {
                    return Ok(None);
                };
                let key = Key::copy(alloc, key)?;
                let file = Text::copy(alloc, file)?;
                Ok(Some(if store {
                    Asked::Store(key, file)
                } else {
                    Asked::Retrieve(key, file)
                }))
            }
            Some(HostMsg::Checkpresent(key)) => Ok(Some(Asked::Check(Key::copy(alloc, key)?))),
            Some(HostMsg::Remove(key)) => Ok(Some(Asked::Remove(Key::copy(alloc, key)?))),
            _ => Ok(None),
        }
    }
}

/// The line for that job: it has the job's tag, or none where that is 0.
pub fn job_line(alloc: Global, number: u64, text: Bytes) -> Result<Bytes, NoMemory>
    ensures { IfOk result (λ line. line ≡ job_line number text) }
{
    if number == 0 {
        Ok(text)
    } else {
        tag(alloc, number, text.view())
    }
}
