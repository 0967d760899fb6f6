// What a message is to an open job: the talk about its request, brought to where the job stands.
ghost use Rattle.std.specs.Prelude.{ℕ, ◌≡◌, ◌≤◌, ◌∷◌, [], List, Option, Some, IfOk, IfSome, MatchOption, true, false};
ghost use Rattle.annex_model.specs.Messages.{RemoteMessage, remote_reading};
ghost use Rattle.annex_model.specs.Talks.{said, awaits, shape_of, spells_aside};
ghost use Rattle.annex_model.specs.Hearings.{request_in, hearing};
ghost use Rattle.wire_msg.specs.Shown.{remote_shown, host_shown};
ghost use Rattle.host_talk.specs.Request.Requests.{message_of, is_request};
ghost use Rattle.host_talk.specs.Request.Talked.{is_over};
ghost use Rattle.host_talk.specs.Request.Hearings.{heard, heard_as, Follows};
ghost use Rattle.journal_model.specs.Journal.{is_open};
ghost use Rattle.journal_model.specs.Parts.{part};
ghost use Rattle.journal_model.specs.Legality.{Legal};
ghost use Rattle.journal_scan.specs.Spans.{IsSpan};
ghost use Rattle.host_core.specs.Moves.{EndsIn, said_before, said_there, takes_lines};

use ann_key::NoMemory;
use host_talk::request::{Heard, Request, Talk, is_aside};
use journal_look::{Journal, Span, open_span, request_text, said_within};
use journal_model::Opening;
use std::alloc::Global;
use wire_msg::{HostMsg, RemoteMsg, read_host, read_remote};

/// The request that asks the message.
fn request_of(alloc: Global, message: &HostMsg<'_>) -> Result<Request, NoMemory>
    requires { is_request (host_shown message.now) ≡ true }
    ensures { IfOk result (λ r. message_of r ≡ host_shown message.now) }
{
    match Request::read(alloc, message)? {
        Some(request) => Ok(request),
        None => unreachable!(),
    }
}

/// Whether the answer to the message takes several lines.
fn takes_lines(message: &HostMsg<'_>) -> bool
    ensures { result ≡ takes_lines (shape_of (host_shown message.now)) }
{
    matches!(message, HostMsg::Listconfigs | HostMsg::Getinfo)
}

/// Whether the line spells an aside.
fn is_aside_line(text: &[u8]) -> bool
    ensures { result ≡ spells_aside (remote_reading text.now) }
{
    match read_remote(text) {
        Some(message) => is_aside(&message),
        None => false,
    }
}

/// A place up to which the remote said nothing in the job, which may have that span.
fn first_place(journal: &Journal, span: Option<Span>, child: u32, job: u64) -> u64
    requires { IfSome span (λ s. IsSpan journal.now.entries child job s) }
    ensures { (n : ℕ) → n ≤ result → said_before journal.now.entries child job n ≡ [] }
{
    match span {
        Some(span) => span.asked as u64,
        None => 0,
    }
}

/// The line at that place, where the remote said it in the job, which may have that span, and it spells no aside.
fn line_said(journal: &Journal, span: Option<Span>, child: u32, job: u64, at: u64) -> Option<&[u8]>
    requires { IfSome span (λ s. IsSpan journal.now.entries child job s) }
    ensures { MatchOption result (said_there journal.now.entries child job at ≡ []) (λ text. said_there journal.now.entries child job at ≡ remote_reading text.now ∷ []) }
{
    match said_within(journal, span, child, job, at) {
        Some(text) if !is_aside_line(text) => Some(text),
        _ => None,
    }
}

/// The last line that the remote said in the open job, asides left out. It looks back from the journal's end, to the request at most,
/// and an aside asks for no such look. So what was passed once is not passed again.
fn last_said(journal: &Journal, child: u32, job: u64) -> Option<&[u8]>
    ensures { MatchOption result (said (part journal.now.entries child job) ≡ []) (λ text. EndsIn (remote_reading text.now) (said (part journal.now.entries child job))) }
{
    let span = open_span(journal, child, job);
    let from = first_place(journal, span, child, job);
    let mut rest = journal.len();
    while rest > from {
        rest -= 1;
        if let Some(text) = line_said(journal, span, child, job, rest) {
            return Some(text);
        }
    }
    None
}

/// The talk about the request, which has heard what the remote said in the job. The last line tells how far the answer has come.
fn replayed(journal: &Journal, child: u32, job: u64, request: Request) -> Talk
    requires { awaits (message_of request) (said (part journal.now.entries child job)) ≡ true }
    ensures request { result.request ≡ request }
    ensures open { is_over result ≡ false }
    ensures follows { Follows result (said (part journal.now.entries child job)) }
{
    let Some(text) = last_said(journal, child, job) else {
        return Talk::ask(request);
    };
    match read_remote(text) {
        Some(message) => Talk::after(request, &message),
        None => unreachable!(),
    }
}

/// The talk about the open job. An answer of one line was not begun.
fn talk_of(
    alloc: Global,
    opening: &Opening,
    journal: &Journal,
    child: u32,
    job: u64,
) -> Result<Talk, NoMemory>
    requires legal { Legal opening.now journal.now.entries }
    requires open { is_open journal.now.entries child job ≡ true }
    ensures request { IfOk result (λ t. request_in (part journal.now.entries child job) ≡ Some (message_of t.request)) }
    ensures open { IfOk result (λ t. is_over t ≡ false) }
    ensures follows { IfOk result (λ t. Follows t (said (part journal.now.entries child job))) }
{
    let Some(text) = request_text(journal, child, job) else {
        unreachable!()
    };
    let Some(asked) = read_host(text) else {
        unreachable!()
    };
    let request = request_of(alloc, &asked)?;
    if takes_lines(&asked) {
        Ok(replayed(journal, child, job, request))
    } else {
        Ok(Talk::ask(request))
    }
}

/// What the message is to the talk.
fn heard(talk: Talk, message: &RemoteMsg<'_>) -> Heard
    requires { is_over talk ≡ false }
    ensures { (ms : List (Option RemoteMessage)) → Follows talk ms → result ≡ heard (message_of talk.request) ms (remote_shown message.now) }
{
    let mut talk = talk;
    let heard = talk.hear(message);
    drop(talk);
    heard
}

/// What the message is to the open job.
pub(super) fn hear(
    alloc: Global,
    opening: &Opening,
    journal: &Journal,
    child: u32,
    job: u64,
    message: &RemoteMsg<'_>,
) -> Result<Heard, NoMemory>
    requires legal { Legal opening.now journal.now.entries }
    requires open { is_open journal.now.entries child job ≡ true }
    ensures { IfOk result (λ h. h ≡ heard_as (hearing (part journal.now.entries child job) (remote_shown message.now))) }
{
    if is_aside(message) {
        return Ok(Heard::Aside);
    }
    let talk = talk_of(alloc, opening, journal, child, job)?;
    Ok(heard(talk, message))
}
