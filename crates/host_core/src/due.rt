// What a line that was got makes due.
ghost use Rattle.std.specs.Prelude.{◌≡◌, length, true, false, Some, IfOk};
ghost use Rattle.annex_model.specs.Messages.{remote_reading};
ghost use Rattle.annex_model.specs.Talks.{is_talk};
ghost use Rattle.wire_msg.specs.Shown.{remote_shown};
ghost use Rattle.host_talk.specs.Request.Hearings.{heard_as};
ghost use Rattle.journal_model.specs.Journal.{is_open, addressed};
ghost use Rattle.journal_model.specs.Parts.{part};
ghost use Rattle.journal_model.specs.Due.{due_by_got, after_line, after_message, after_late, was_open, is_passed, foul, verdict_at};
ghost use Rattle.annex_model.specs.Hearings.{Hearing, hearing};
ghost use Rattle.journal_model.specs.Legality.{Legal};
ghost use Rattle.host_core.specs.Settings.{IsServed, is_aside_heard, serves_message, serves_line, serves, is_reply};
ghost use Rattle.host_core.specs.Moves.{IsDueHeard, dues, first_due, error_due, due_from};

use crate::serving::Past;
use crate::talks::hear;
use crate::{lines, serving};
use ann_key::{Bytes, NoMemory};
use host_talk::request::Heard;
use journal_look::{Journal, addressed, has_spoken, is_asked, is_open, is_tagged, is_version_one};
use journal_model::{Final, Verdict, Why};
use std::alloc::Global;
use wire_msg::{RemoteMsg, read_remote};

/// What is due after an entry, in few words.
#[derive(Drop)]
pub enum Due {
    Nothing,
    /// These replies in this job, as they stand on the wire.
    Replies {
        child: u32,
        job: u64,
        lines: Vec<Bytes>,
    },
    /// This request, which a name leads.
    Request {
        child: u32,
        job: u64,
        task: u32,
        line: Bytes,
    },
    /// The verdict of this job.
    Settle {
        child: u32,
        job: u64,
        verdict: Verdict,
    },
    /// The child's end, and the verdicts of its open jobs.
    EndOf {
        child: u32,
        why: Why,
    },
    /// The verdicts of the open jobs of a child that ended.
    EndedJobs {
        child: u32,
        why: Why,
    },
    /// The verdicts of the open jobs whose requests were not written whole.
    UnsentJobs {
        child: u32,
    },
}

fn foul(journal: &Journal, child: u32) -> Due
    ensures due { dues journal.now.entries result ≡ foul journal.now.entries child }
    ensures ends { is_reply result ≡ false }
{
    let at = journal.len();
    Due::EndOf {
        child,
        why: Why::Foul { at },
    }
}

fn verdict_at(last: Final, at: u64) -> Verdict
    ensures { result ≡ verdict_at last at }
{
    match last {
        Final::Done => Verdict::Done { at },
        Final::Failed => Verdict::Failed { at },
        Final::Absent => Verdict::Absent { at },
        Final::Unknown => Verdict::Unknown { at },
        Final::Unsupported => Verdict::Unsupported { at },
    }
}

/// Whether the message asks for nothing and sets nothing.
fn is_talk(message: &RemoteMsg<'_>) -> bool
    ensures { result ≡ is_talk (remote_shown message.now) }
{
    matches!(
        message,
        RemoteMsg::Progress(_) | RemoteMsg::Debug(_) | RemoteMsg::Info(_)
    )
}

/// Whether the job was open earlier. No tag names job 0.
fn was_open(journal: &Journal, child: u32, job: Option<u64>) -> bool
    ensures { result ≡ was_open journal.now.entries child job }
{
    match job {
        Some(job) => job != 0 && is_asked(journal, child, job),
        None => false,
    }
}

/// Whether the message, which is for no open job, is passed over.
fn is_passed(journal: &Journal, child: u32, job: Option<u64>, message: &RemoteMsg<'_>) -> bool
    ensures { result ≡ is_passed journal.now.entries child job (remote_shown message.now) }
{
    is_talk(message) && (!is_tagged(journal, child) || was_open(journal, child, job))
}

/// What is due after a message that is for no open job.
fn after_late(journal: &Journal, child: u32, job: Option<u64>, message: &RemoteMsg<'_>) -> Due
    ensures due { dues journal.now.entries result ≡ after_late journal.now.entries child job (remote_shown message.now) }
    ensures late { is_reply result ≡ false }
{
    if is_passed(journal, child, job, message) {
        Due::Nothing
    } else {
        foul(journal, child)
    }
}

/// What is due after a message that is so to an open job. An aside is answered.
fn after_hearing(
    alloc: Global,
    past: Past<'_>,
    child: u32,
    job: u64,
    message: &RemoteMsg<'_>,
    heard: Heard,
) -> Result<Due, NoMemory>
    requires { IsServed past.opening.now past.journal.now.entries past.registers.now }
    ensures due { IfOk result (IsDueHeard past.entry.opening.now past.entry.journal.now.entries child job (remote_shown message.now) heard) }
    ensures reply { IfOk result (λ due. (h : Hearing) → heard ≡ heard_as h → is_reply due ≡ is_aside_heard h) }
{
    match heard {
        Heard::Settled(last) => Ok(Due::Settle {
            child,
            job,
            verdict: verdict_at(last, past.journal.len()),
        }),
        Heard::Part => Ok(Due::Nothing),
        Heard::Aside => serving::replies(alloc, past, child, job, message),
        Heard::Foul => Ok(foul(past.journal, child)),
    }
}

fn after_message(
    alloc: Global,
    past: Past<'_>,
    child: u32,
    job: u64,
    message: &RemoteMsg<'_>,
) -> Result<Due, NoMemory>
    requires legal { Legal past.opening.now past.journal.now.entries }
    requires served { IsServed past.opening.now past.journal.now.entries past.registers.now }
    ensures due { IfOk result (λ due. dues past.entry.journal.now.entries due ≡ after_message past.entry.opening.now past.entry.journal.now.entries child (Some job) (remote_shown message.now)) }
    ensures reply { IfOk result (λ due. is_reply due ≡ serves_message past.entry.journal.now.entries child (Some job) (remote_shown message.now)) }
{
    if !is_open(past.journal, child, job) {
        return Ok(after_late(past.journal, child, Some(job), message));
    }
    let heard = hear(alloc, past.opening, past.journal, child, job, message)?;
    after_hearing(alloc, past, child, job, message, heard)
}

fn after_line(
    alloc: Global,
    past: Past<'_>,
    child: u32,
    job: Option<u64>,
    text: &[u8],
) -> Result<Due, NoMemory>
    requires legal { Legal past.opening.now past.journal.now.entries }
    requires served { IsServed past.opening.now past.journal.now.entries past.registers.now }
    ensures due { IfOk result (λ due. dues past.entry.journal.now.entries due ≡ after_line past.entry.opening.now past.entry.journal.now.entries child job (remote_reading text.now)) }
    ensures reply { IfOk result (λ due. is_reply due ≡ serves_line past.entry.journal.now.entries child job (remote_reading text.now)) }
{
    let Some(message) = read_remote(text) else {
        return Ok(foul(past.journal, child));
    };
    let Some(job) = job else {
        return Ok(after_late(past.journal, child, None, &message));
    };
    after_message(alloc, past, child, job, &message)
}

fn first_line(journal: &Journal, child: u32, line: &[u8]) -> Due
    ensures due { dues journal.now.entries result ≡ first_due journal.now.entries child line.now }
    ensures first { is_reply result ≡ false }
{
    if is_version_one(line) {
        return Due::Nothing;
    }
    let at = journal.len();
    Due::EndOf {
        child,
        why: Why::Version { at },
    }
}

fn error_line(journal: &Journal, child: u32) -> Due
    ensures due { dues journal.now.entries result ≡ error_due journal.now.entries child }
    ensures ends { is_reply result ≡ false }
{
    let at = journal.len();
    Due::EndOf {
        child,
        why: Why::Error { at },
    }
}

/// What the line makes due, which is for that job and has that text.
fn due_from(
    alloc: Global,
    past: Past<'_>,
    child: u32,
    line: &[u8],
    job: Option<u64>,
    text: &[u8],
) -> Result<Due, NoMemory>
    requires legal { Legal past.opening.now past.journal.now.entries }
    requires served { IsServed past.opening.now past.journal.now.entries past.registers.now }
    ensures due { IfOk result (λ due. dues past.entry.journal.now.entries due ≡ due_from past.entry.opening.now past.entry.journal.now.entries child line.now (job, text.now)) }
    ensures reply { IfOk result (λ due. is_reply due ≡ serves past.entry.journal.now.entries child (job, text.now)) }
{
    if lines::is_error(text) {
        return Ok(error_line(past.journal, child));
    }
    if !has_spoken(past.journal, child) {
        return Ok(first_line(past.journal, child, line));
    }
    after_line(alloc, past, child, job, text)
}

/// What the line makes due.
pub(super) fn due_by_got(
    alloc: Global,
    past: Past<'_>,
    child: u32,
    line: &[u8],
) -> Result<Due, NoMemory>
    requires legal { Legal past.opening.now past.journal.now.entries }
    requires served { IsServed past.opening.now past.journal.now.entries past.registers.now }
    ensures due { IfOk result (λ due. dues past.entry.journal.now.entries due ≡ due_by_got past.entry.opening.now past.entry.journal.now.entries child line.now) }
    ensures reply { IfOk result (λ due. is_reply due ≡ serves past.entry.journal.now.entries child (addressed past.entry.journal.now.entries child line.now)) }
{
    let (job, text) = addressed(past.journal, child, line);
    due_from(alloc, past, child, line, job, text)
}
