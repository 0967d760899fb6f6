// The events of roles, through any door, by what they do to the journal.
ghost use Rattle.std.specs.Prelude.{◌≡◌, true, false, IsOk, IfOk, OnErr};
ghost use Rattle.annex_model.specs.Lines.{has_newline};
ghost use Rattle.journal_model.specs.Journal.{is_started, is_ended, why_of, verdict_of};
ghost use Rattle.journal_model.specs.Legality.{may_stop};
ghost use Rattle.journal_model.specs.declared.verdict.Why.TheVariants.{Closed};
ghost use Rattle.child_link.specs.Alone.{Closes};
ghost use Rattle.host_core.specs.Steps.{is_asked, takes_no_memory};
ghost use Rattle.host_talk.specs.Request.Requests.{message_of, name_of};
ghost use Rattle.child_link.specs.Doors.{Between, During, Stepped, Made, Passed, Ends, Sends, Mutes, Takes, IsSameDoor};
ghost use Rattle.child_link.specs.Replies.{gone_why, is_done, settled_as, fetched_of, asked_of, listening_of};
ghost use Rattle.child_link.specs.Events.{IsListening, IsFetched, IsAsked, can_end};

use crate::door::Door;
use ann_key::{Bytes, NoMemory};
use host_core::{Event, Reply};
use host_talk::request::Request;
use journal_model::{Verdict, Why};

/// Makes one event.
fn step<D: Door>(door: &mut D, event: Event) -> Result<Reply, NoMemory>
    ensures stepped { Between Stepped (D.view door.old) (D.view door.new) event result }
    ensures free { takes_no_memory event ≡ true → IsOk result }
    ensures door { IsSameDoor (D.view door.old) (D.view door.new) }
{
    door.step(event)
}

// An event that takes no memory.
fn make<D: Door>(door: &mut D, event: Event) -> Reply
    requires { takes_no_memory event ≡ true }
    ensures made { Between Made (D.view door.old) (D.view door.new) event result }
    ensures door { IsSameDoor (D.view door.old) (D.view door.new) }
{
    match step(door, event) {
        Ok(reply) => reply,
        Err(NoMemory) => unreachable!(),
    }
}

/// What there is to do about a child's output.
#[derive(Clone, Copy, PartialEq, Eq)]
pub enum Listening {
    Read,
    Rest,
    Over,
}

fn listening_of(reply: Reply) -> Listening
    ensures { result ≡ listening_of reply }
{
    match reply {
        Reply::Read => Listening::Read,
        Reply::Wait => Listening::Rest,
        _ => Listening::Over,
    }
}

/// What there is to do about a child's input.
#[derive(Drop)]
pub enum Fetched {
    Line(Bytes),
    Rest,
    Over,
}

fn fetched_of(reply: Reply) -> Fetched
    ensures { result ≡ fetched_of reply }
{
    match reply {
        Reply::Line(line) => Fetched::Line(line),
        Reply::Wait => Fetched::Rest,
        _ => Fetched::Over,
    }
}

fn gone_why(reply: Reply) -> Option<Why>
    ensures { result ≡ gone_why reply }
{
    match reply {
        Reply::Gone { why } => why,
        _ => None,
    }
}

fn is_done(reply: Reply) -> bool
    ensures { result ≡ is_done reply }
{
    match reply {
        Reply::Done => true,
        _ => false,
    }
}

fn settled_as(reply: Reply) -> Option<Verdict>
    ensures { result ≡ settled_as reply }
{
    match reply {
        Reply::Verdict(verdict) => Some(verdict),
        _ => None,
    }
}

/// What became of a request.
#[derive(Clone, Copy)]
pub enum Asked {
    /// It is this job.
    Job(u64),
    /// The child had ended or was mute.
    Lost(Option<Why>),
    /// It might not be asked, and wasn't.
    Odd,
}

fn asked_of(reply: Reply) -> Asked
    ensures { result ≡ asked_of reply }
{
    match reply {
        Reply::Job(job) => Asked::Job(job),
        Reply::Gone { why } => Asked::Lost(why),
        _ => Asked::Odd,
    }
}

/// What there is to do about the child's output.
pub fn listen<D: Door>(door: &mut D, child: u32) -> Listening
    requires started { is_started (D.view door.old).seen child ≡ true }
    ensures listening { IsListening (D.view door.old).opening (D.view door.old).number (D.view door.new).seen child result }
    ensures passed { During Passed (D.view door.old) (D.view door.new) }
    ensures door { IsSameDoor (D.view door.old) (D.view door.new) }
{
    listening_of(make(door, Event::Listen { child }))
}

/// Why the child ended, if it did.
pub fn why_ended<D: Door>(door: &mut D, child: u32) -> Option<Why>
    requires started { is_started (D.view door.old).seen child ≡ true }
    ensures why { result ≡ why_of (D.view door.new).seen child }
    ensures passed { During Passed (D.view door.old) (D.view door.new) }
    ensures door { IsSameDoor (D.view door.old) (D.view door.new) }
{
    gone_why(make(door, Event::Look { child }))
}

/// How the job was settled, if it was.
pub fn verdict<D: Door>(door: &mut D, child: u32, job: u64) -> Option<Verdict>
    requires asked { is_asked (D.view door.old).seen child job ≡ true }
    ensures verdict { result ≡ verdict_of (D.view door.new).seen child job }
    ensures passed { During Passed (D.view door.old) (D.view door.new) }
    ensures door { IsSameDoor (D.view door.old) (D.view door.new) }
{
    settled_as(make(door, Event::Lookup { child, job }))
}

/// What there is to do about the child's input: the next line is with its byte 10.
pub fn fetch<D: Door>(door: &mut D, child: u32) -> Result<Fetched, NoMemory>
    requires started { is_started (D.view door.old).seen child ≡ true }
    ensures line { IfOk result (IsFetched (D.view door.old).opening (D.view door.old).number (D.view door.new).seen child) }
    ensures passed { During Passed (D.view door.old) (D.view door.new) }
    ensures door { IsSameDoor (D.view door.old) (D.view door.new) }
{
    let reply = step(door, Event::Fetch { child })?;
    Ok(fetched_of(reply))
}

/// Feeds a line. False where it wasn't taken, and the child has ended.
pub fn got<D: Door>(door: &mut D, child: u32, line: Bytes) -> Result<bool, NoMemory>
    requires started { is_started (D.view door.old).seen child ≡ true }
    requires line { has_newline line ≡ false }
    ensures ok { IfOk result (Between Takes (D.view door.old) (D.view door.new) child line) }
    ensures err { OnErr result (During Passed (D.view door.old) (D.view door.new)) }
    ensures door { IsSameDoor (D.view door.old) (D.view door.new) }
{
    let reply = step(door, Event::Got { child, line })?;
    Ok(is_done(reply))
}

/// Ends the child, where it hadn't ended, for a reason that the link found.
pub fn stop<D: Door>(door: &mut D, child: u32, why: Why)
    requires started { is_started (D.view door.old).seen child ≡ true }
    requires why { can_end why ≡ true }
    ensures ends { Between Ends (D.view door.old) (D.view door.new) child why }
    ensures over { is_ended (D.view door.new).seen child ≡ true }
    ensures door { IsSameDoor (D.view door.old) (D.view door.new) }
{
    let _done = make(door, Event::Stop { child, why });
}

/// Ends the child as closed, where nobody else steps the core, and the child has no open job and no busy task.
pub fn close<D: Door>(door: &mut D, child: u32)
    requires alone { (D.view door.old).alone ≡ true }
    requires started { is_started (D.view door.old).seen child ≡ true }
    requires idle { may_stop (D.view door.old).seen child Closed ≡ true }
    ensures closes { Closes (D.view door.old).number child (D.view door.old).seen (D.view door.new).seen }
    ensures door { IsSameDoor (D.view door.old) (D.view door.new) }
{
    let _done = make(
        door,
        Event::Stop {
            child,
            why: Why::Closed,
        },
    );
}

/// The next line was written.
pub fn sent<D: Door>(door: &mut D, child: u32)
    ensures sends { Between Sends (D.view door.old) (D.view door.new) child }
    ensures door { IsSameDoor (D.view door.old) (D.view door.new) }
{
    let _done = make(door, Event::Sent { child });
}

/// The next line couldn't be written.
pub fn mute<D: Door>(door: &mut D, child: u32)
    requires started { is_started (D.view door.old).seen child ≡ true }
    ensures mutes { Between Mutes (D.view door.old) (D.view door.new) child }
    ensures door { IsSameDoor (D.view door.old) (D.view door.new) }
{
    let _done = make(door, Event::Mute { child });
}

/// Asks a request, with its name before it where it has one, if it may be asked.
pub fn ask<D: Door>(
    door: &mut D,
    child: u32,
    task: u32,
    request: Request,
) -> Result<Asked, NoMemory>
    ensures asked { IfOk result (Between IsAsked (D.view door.old) (D.view door.new) child task (name_of request) (message_of request)) }
    ensures err { OnErr result (During Passed (D.view door.old) (D.view door.new)) }
    ensures door { IsSameDoor (D.view door.old) (D.view door.new) }
{
    let reply = step(
        door,
        Event::Ask {
            child,
            task,
            request,
        },
    )?;
    Ok(asked_of(reply))
}
