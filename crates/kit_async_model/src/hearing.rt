// What a line of the host is to the kit.
ghost use Rattle.std.specs.Prelude.{◌≡◌, Some, option_map, option_copied};
ghost use Rattle.wire_msg.specs.Shown.{host_shown};
ghost use Rattle.kit_async_model.specs.Hearings.{parted, text_in, is_export, message_heard, text_heard, strange_heard, awaits_in, is_open, has_some, part_heard, hearing_of};

use crate::job::Job;
use crate::jobs::job_of;
use crate::setup::Setup;
use wire_msg::{HostMsg, read_host, untag};

/// What a line is, by the jobs that are open.
#[derive(Clone, Copy)]
pub enum Hearing {
    /// Nothing can be said to it, and it ends the kit.
    Foul,
    /// It can't stand here. The kit says so and is over.
    Unexpected,
    /// It asks for nothing.
    Aside,
    /// A request with that number.
    Asks(u64),
    /// A value for that job.
    Replies(u64),
}

// The number and the message of the line, where it has what it must.
pub(crate) fn part(tagged: bool, line: &[u8]) -> Option<(u64, &[u8])>
    ensures { option_map (λ t. (t.0, t.1.now)) result ≡ parted tagged line.now }
{
    if !tagged {
        return Some((0, line));
    }
    match untag(line) {
        Some((0, _)) => None,
        Some((number, text)) => Some((number, text)),
        None => None,
    }
}

/// The message without its tag.
pub fn text_in(tagged: bool, line: &[u8]) -> &[u8]
    ensures { result.now ≡ text_in tagged line.now }
{
    match part(tagged, line) {
        Some((_, text)) => text,
        None => b"",
    }
}

// EXPORT alone, or with a name.
fn is_export(text: &[u8]) -> bool
    ensures { result ≡ is_export text.now }
{
    match text {
        [b'E', b'X', b'P', b'O', b'R', b'T'] => true,
        [b'E', b'X', b'P', b'O', b'R', b'T', b, ..] => *b == b' ',
        _ => false,
    }
}

// A message for a job that awaits a value or doesn't, that is open or isn't, where some job is open or none is.
fn message_heard(
    awaiting: bool,
    opened: bool,
    busy: bool,
    number: u64,
    message: HostMsg<'_>,
) -> Hearing
    ensures { result ≡ message_heard awaiting opened busy number (host_shown message.entry) }
{
    match message {
        HostMsg::Error(_) => Hearing::Foul,
        HostMsg::Value(_) if awaiting => Hearing::Replies(number),
        _ if awaiting => Hearing::Unexpected,
        HostMsg::Value(_) | HostMsg::Creds(_, _) => Hearing::Unexpected,
        HostMsg::Prepare | HostMsg::Initremote if opened || busy => Hearing::Unexpected,
        _ if opened => Hearing::Unexpected,
        _ => Hearing::Asks(number),
    }
}

// A line that spells no message, for a job that awaits a value or doesn't, that is open or isn't.
fn strange_heard(awaiting: bool, opened: bool, number: u64) -> Hearing
    ensures { result ≡ strange_heard awaiting opened number }
{
    if awaiting {
        Hearing::Foul
    } else if opened {
        Hearing::Unexpected
    } else {
        Hearing::Asks(number)
    }
}

fn text_heard(awaiting: bool, opened: bool, busy: bool, number: u64, text: &[u8]) -> Hearing
    ensures { result ≡ text_heard awaiting opened busy number text.now }
{
    if is_export(text) {
        return if awaiting {
            Hearing::Unexpected
        } else {
            Hearing::Aside
        };
    }
    match read_host(text) {
        Some(message) => message_heard(awaiting, opened, busy, number, message),
        None => strange_heard(awaiting, opened, number),
    }
}

fn awaits_in(setup: &Setup, job: Option<&Job>) -> bool
    ensures { result ≡ awaits_in setup.now (option_copied job.entry) }
{
    match job {
        Some(job) => job.is_awaiting(setup),
        None => false,
    }
}

fn is_open(job: Option<&Job>) -> bool
    ensures { result ≡ is_open (option_copied job.entry) }
{
    job.is_some()
}

fn has_some(jobs: &[Job]) -> bool
    ensures { result ≡ has_some jobs.now }
{
    match jobs {
        [] => false,
        _ => true,
    }
}

// A message of that number.
fn part_heard(setup: &Setup, jobs: &[Job], number: u64, text: &[u8]) -> Hearing
    ensures { result ≡ part_heard setup.now jobs.now (Some (number, text.now)) }
{
    let job = job_of(jobs, number);
    text_heard(
        awaits_in(setup, job),
        is_open(job),
        has_some(jobs),
        number,
        text,
    )
}

/// What the line is, by the open jobs and whether lines are tagged.
pub fn hearing_of(setup: &Setup, jobs: &[Job], tagged: bool, line: &[u8]) -> Hearing
    ensures { result ≡ hearing_of setup.now jobs.now tagged line.now }
{
    match part(tagged, line) {
        Some((number, text)) => part_heard(setup, jobs, number, text),
        None => Hearing::Foul,
    }
}
