// What each event appends, and what is answered, found before anything is changed.
ghost use Rattle.std.specs.Prelude.{◌≡◌, ◌≤◌, length, IfOk, true, false, Some, None, IsOk, ℕ, Bool, List, if◌then◌else◌};
ghost use Rattle.annex_model.specs.Lines.{has_newline};
ghost use Rattle.annex_model.specs.Messages.{host_line, is_askable};
ghost use Rattle.journal_model.specs.Limits.{most_tasks};
ghost use Rattle.journal_model.specs.Journal.{is_ended, is_full, is_started, on_wire};
ghost use Rattle.journal_model.specs.Legality.{Legal, least_free};
ghost use Rattle.journal_model.specs.Due.{made_by};
ghost use Rattle.host_talk.specs.Request.Requests.{message_of, name_of};
ghost use Rattle.wire_msg.specs.Shown.{host_shown};
ghost use Rattle.host_core.specs.Steps.{step_of, claim, asking, next_job, next_on_wire, gone, may_request, is_named_well, closing, told, unless_shut, shut_by, shut_for, listening, resting, next_line};
ghost use Rattle.host_core.specs.Steps.{is_free, is_gone, is_awaited, is_idle, may_end, may_answer, may_add_note};
ghost use Rattle.host_core.specs.Books.{IsNoted};
ghost use Rattle.host_core.specs.Moves.{IsStep, group_made};
ghost use Rattle.host_core.specs.Runs.{AreRuns};
ghost use Rattle.host_core.specs.Settings.{IsServed, IsDueReply};
ghost use Rattle.journal_model.specs.declared.verdict.Why.TheVariants.{Full};
ghost use Rattle.journal_model.specs.declared.entry.Entry.{Entry};
ghost use Rattle.journal_model.specs.declared.entry.What.TheVariants.{End};
ghost use Rattle.host_core.specs.declared.event.Reply.{Reply};
ghost use Rattle.host_core.specs.declared.event.Reply.TheVariants.{Gone, Job};
ghost use Rattle.host_core.specs.declared.due.Due.TheVariants.{Nothing, EndedJobs};

use crate::due::{Due, due_by_got};
use crate::event::{Event, Reply};
use crate::runs::{self, Run};
use crate::serving::Past;
use crate::{lines, requests};
use ann_key::{Bytes, NoMemory, has_byte};
use host_talk::request::Request;
use journal_look::{
    Journal, are_all_claimed, has_busy_task, has_no_open_job, has_open_job, has_spoken,
    is_all_sent, is_asked, is_claimed_by, is_ended, is_full, is_live, is_mute, is_prepared,
    is_started, may_note, next_job, on_wire, starts_so_far, task_of, verdict_of, why_of,
};
use journal_model::{Answer, Opening, What, Why};
use std::alloc::Global;
use wire_msg::{HostMsg, write_host};

/// The answer to an event, the entry that it appends first, if it appends one, and what is due after that.
#[derive(Drop)]
pub struct Move {
    pub reply: Reply,
    pub what: Option<What>,
    pub due: Due,
}

fn only(reply: Reply) -> Move
    ensures reply { result.reply ≡ reply }
    ensures what { result.what ≡ None }
{
    Move {
        reply,
        what: None,
        due: Due::Nothing,
    }
}

fn append(what: What, reply: Reply) -> Move
    ensures { result ≡ record { reply = reply; what = Some what; due = Nothing } }
{
    Move {
        reply,
        what: Some(what),
        due: Due::Nothing,
    }
}

fn is_gone(journal: &Journal, child: u32) -> bool
    ensures { result ≡ is_gone journal.now.entries child }
{
    is_ended(journal, child) || is_mute(journal, child)
}

fn gone(journal: &Journal, child: u32) -> Reply
    ensures { result ≡ gone journal.now.entries child }
{
    Reply::Gone {
        why: why_of(journal, child),
    }
}

/// The least free task, claimed for the child.
fn least(
    opening: &Opening,
    journal: &Journal,
    runs: &[Run],
    by: u32,
    child: u32,
    free: Option<u32>,
) -> Move
    requires few { length opening.now.tasks ≤ most_tasks }
    requires free { free ≡ least_free opening.now journal.now.entries }
    requires runs { AreRuns opening.now journal.now.entries runs.now }
    ensures step { IsStep journal.now.entries by (claim opening.now journal.now.entries by child (least_free opening.now journal.now.entries)) result }
    ensures reply { IsDueReply journal.now.entries result.what result.due }
{
    match free {
        Some(task) => {
            let turn = runs::turn_of_task(runs, task);
            append(What::Claim { task, child }, Reply::Task { task, turn })
        }
        None => {
            if are_all_claimed(opening, journal) {
                only(Reply::NoTask)
            } else {
                only(Reply::Wait)
            }
        }
    }
}

fn claim(
    opening: &Opening,
    journal: &Journal,
    runs: &[Run],
    by: u32,
    child: u32,
    free: Option<u32>,
) -> Move
    requires few { length opening.now.tasks ≤ most_tasks }
    requires free { free ≡ least_free opening.now journal.now.entries }
    requires runs { AreRuns opening.now journal.now.entries runs.now }
    ensures step { IsStep journal.now.entries by (step_of opening.now journal.now.entries by (Event.Claim child)) result }
    ensures reply { IsDueReply journal.now.entries result.what result.due }
{
    if child == 0 && by == 0 {
        return least(opening, journal, runs, by, child, free);
    }
    if !is_started(journal, child) || !is_prepared(journal, child) {
        return only(Reply::Odd);
    }
    if is_gone(journal, child) {
        return only(gone(journal, child));
    }
    least(opening, journal, runs, by, child, free)
}

fn start(opening: &Opening, journal: &Journal, by: u32, slot: u32, offer: bool) -> Move
    ensures step { IsStep journal.now.entries by (step_of opening.now journal.now.entries by (Event.Start slot offer)) result }
    ensures reply { IsDueReply journal.now.entries result.what result.due }
{
    let started = starts_so_far(journal);
    if by != 0 || started >= 4_294_967_295 {
        return only(Reply::Odd);
    }
    let child = started as u32 + 1;
    append(What::Start { child, slot, offer }, Reply::Child(child))
}

fn no_start(opening: &Opening, journal: &Journal, by: u32, slot: u32) -> Move
    ensures step { IsStep journal.now.entries by (step_of opening.now journal.now.entries by (Event.NoStart slot)) result }
    ensures reply { IsDueReply journal.now.entries result.what result.due }
{
    if by == 0 {
        append(What::NoStart { slot }, Reply::Done)
    } else {
        only(Reply::Odd)
    }
}

/// The line that says the message in this job.
fn line_of(
    alloc: Global,
    journal: &Journal,
    child: u32,
    job: u64,
    message: &HostMsg<'_>,
) -> Result<Bytes, NoMemory>
    requires { is_askable (host_shown message.now) ≡ true }
    ensures { IfOk result (λ b. b ≡ on_wire journal.now.entries child job (host_line (host_shown message.now))) }
{
    let line = write_host(alloc, message)?;
    on_wire(alloc, journal, child, job, line)
}

/// Asks the child's next job with that line. If the request has a name, the line that says the name comes first.
fn asked(
    alloc: Global,
    journal: &Journal,
    child: u32,
    task: u32,
    request: &Request,
    line: Bytes,
) -> Result<Move, NoMemory>
    requires { line ≡ next_on_wire journal.now.entries child (message_of request.now) }
    ensures group { IfOk result (λ m. (by : ℕ) → group_made journal.now.entries by m.what m.due ≡ made_by by (asking journal.now.entries task child (name_of request.now) (message_of request.now))) }
    ensures reply { IfOk result (λ m. m.reply ≡ Job (next_job journal.now.entries child)) }
    ensures quiet { IfOk result (λ m. IsDueReply journal.now.entries m.what m.due) }
{
    let job = next_job(journal, child);
    match request.name() {
        None => Ok(append(
            What::Ask {
                child,
                job,
                task,
                line,
            },
            Reply::Job(job),
        )),
        Some(name) => {
            let said = HostMsg::Export(name.view().as_bytes());
            let lead = line_of(alloc, journal, child, job, &said)?;
            Ok(Move {
                reply: Reply::Job(job),
                what: Some(What::Lead {
                    child,
                    job,
                    line: lead,
                }),
                due: Due::Request {
                    child,
                    job,
                    task,
                    line,
                },
            })
        }
    }
}

/// A request that may be asked, of a child that is there.
fn ask_next(
    alloc: Global,
    opening: &Opening,
    journal: &Journal,
    by: u32,
    child: u32,
    task: u32,
    request: &Request,
) -> Result<Move, NoMemory>
    requires may { may_request journal.now.entries by task child (message_of request.now) ≡ true }
    requires well { is_named_well (name_of request.now) ≡ true }
    requires here { is_gone journal.now.entries child ≡ false }
    ensures step { IfOk result (IsStep journal.now.entries by (step_of opening.now journal.now.entries by (Event.Ask child task request.now))) }
    ensures reply { IfOk result (λ m. IsDueReply journal.now.entries m.what m.due) }
    ensures free { is_free (step_of opening.now journal.now.entries by (Event.Ask child task request.now)) ≡ true → IsOk result }
{
    let message = request.message();
    let line = line_of(alloc, journal, child, next_job(journal, child), &message)?;
    asked(alloc, journal, child, task, request, line)
}

fn ask(
    alloc: Global,
    opening: &Opening,
    journal: &Journal,
    by: u32,
    child: u32,
    task: u32,
    request: &Request,
) -> Result<Move, NoMemory>
    ensures step { IfOk result (IsStep journal.now.entries by (step_of opening.now journal.now.entries by (Event.Ask child task request.now))) }
    ensures reply { IfOk result (λ m. IsDueReply journal.now.entries m.what m.due) }
    ensures free { is_free (step_of opening.now journal.now.entries by (Event.Ask child task request.now)) ≡ true → IsOk result }
{
    if !requests::may_request(journal, by, task, child, request)
        || !requests::is_named_well(request)
    {
        return Ok(only(Reply::Odd));
    }
    if is_gone(journal, child) {
        return Ok(append(What::Lost { child, task }, gone(journal, child)));
    }
    ask_next(alloc, opening, journal, by, child, task, request)
}

/// The same, for a request that it owns.
fn ask_own(
    alloc: Global,
    opening: &Opening,
    journal: &Journal,
    by: u32,
    child: u32,
    task: u32,
    request: Request,
) -> Result<Move, NoMemory>
    ensures step { IfOk result (IsStep journal.now.entries by (step_of opening.now journal.now.entries by (Event.Ask child task request))) }
    ensures reply { IfOk result (λ m. IsDueReply journal.now.entries m.what m.due) }
    ensures free { is_free (step_of opening.now journal.now.entries by (Event.Ask child task request)) ≡ true → IsOk result }
{
    let step = ask(alloc, opening, journal, by, child, task, &request);
    drop(request);
    step
}

fn lookup(opening: &Opening, journal: &Journal, by: u32, child: u32, job: u64) -> Move
    ensures step { IsStep journal.now.entries by (step_of opening.now journal.now.entries by (Event.Lookup child job)) result }
    ensures reply { IsDueReply journal.now.entries result.what result.due }
{
    if !is_asked(journal, child, job) {
        return only(Reply::Odd);
    }
    match verdict_of(journal, child, job) {
        Some(verdict) => only(Reply::Verdict(verdict)),
        None => only(Reply::Wait),
    }
}

fn look(opening: &Opening, journal: &Journal, by: u32, child: u32) -> Move
    ensures step { IsStep journal.now.entries by (step_of opening.now journal.now.entries by (Event.Look child)) result }
    ensures reply { IsDueReply journal.now.entries result.what result.due }
{
    if !is_started(journal, child) {
        return only(Reply::Odd);
    }
    if is_gone(journal, child) {
        only(gone(journal, child))
    } else {
        only(Reply::Done)
    }
}

fn is_awaited(journal: &Journal, child: u32) -> bool
    ensures { result ≡ is_awaited journal.now.entries child }
{
    !has_no_open_job(journal, child) || !has_spoken(journal, child)
}

fn is_idle(opening: &Opening, journal: &Journal, child: u32) -> bool
    requires { length opening.now.tasks ≤ most_tasks }
    ensures { result ≡ is_idle opening.now journal.now.entries child }
{
    are_all_claimed(opening, journal) && !has_busy_task(journal, child)
}

fn listening(opening: &Opening, journal: &Journal, child: u32) -> Reply
    requires { length opening.now.tasks ≤ most_tasks }
    ensures { result ≡ listening opening.now journal.now.entries child }
{
    if is_awaited(journal, child) {
        Reply::Read
    } else if is_mute(journal, child) || is_idle(opening, journal, child) {
        Reply::Over
    } else {
        Reply::Wait
    }
}

fn resting(opening: &Opening, journal: &Journal, child: u32) -> Reply
    requires { length opening.now.tasks ≤ most_tasks }
    ensures { result ≡ resting opening.now journal.now.entries child }
{
    if !is_awaited(journal, child) && is_idle(opening, journal, child) {
        Reply::Over
    } else {
        Reply::Wait
    }
}

fn listen(opening: &Opening, journal: &Journal, by: u32, child: u32) -> Move
    requires { length opening.now.tasks ≤ most_tasks }
    ensures step { IsStep journal.now.entries by (step_of opening.now journal.now.entries by (Event.Listen child)) result }
    ensures reply { IsDueReply journal.now.entries result.what result.due }
{
    if !is_started(journal, child) {
        return only(Reply::Odd);
    }
    if is_ended(journal, child) {
        return only(Reply::Over);
    }
    only(listening(opening, journal, child))
}

fn fetch(
    alloc: Global,
    opening: &Opening,
    journal: &Journal,
    by: u32,
    child: u32,
) -> Result<Move, NoMemory>
    requires { length opening.now.tasks ≤ most_tasks }
    ensures step { IfOk result (IsStep journal.now.entries by (step_of opening.now journal.now.entries by (Event.Fetch child))) }
    ensures reply { IfOk result (λ m. IsDueReply journal.now.entries m.what m.due) }
    ensures free { is_free (step_of opening.now journal.now.entries by (Event.Fetch child)) ≡ true → IsOk result }
{
    if !is_started(journal, child) {
        return Ok(only(Reply::Odd));
    }
    if is_gone(journal, child) {
        return Ok(only(Reply::Over));
    }
    let rest = resting(opening, journal, child);
    let reply = lines::next_line(alloc, journal, child, rest)?;
    Ok(only(reply))
}

/// The child's end at a full journal, in place of its line.
fn end_full(child: u32) -> Move
    ensures { result ≡ record { reply = Gone (Some Full); what = Some (End child Full); due = EndedJobs child Full } }
{
    Move {
        reply: Reply::Gone {
            why: Some(Why::Full),
        },
        what: Some(What::End {
            child,
            why: Why::Full,
        }),
        due: Due::EndedJobs {
            child,
            why: Why::Full,
        },
    }
}

/// A line that a journal with room takes.
fn take_line(
    alloc: Global,
    past: Past<'_>,
    by: u32,
    child: u32,
    line: Bytes,
) -> Result<Move, NoMemory>
    requires legal { Legal past.opening.now past.journal.now.entries }
    requires served { IsServed past.opening.now past.journal.now.entries past.registers.now }
    requires started { is_started past.journal.now.entries child ≡ true }
    requires fits { has_newline line ≡ false }
    requires live { is_ended past.journal.now.entries child ≡ false }
    requires roomy { is_full past.journal.now.entries ≡ false }
    ensures step { IfOk result (IsStep past.entry.journal.now.entries by (step_of past.entry.opening.now past.entry.journal.now.entries by (Event.Got child line))) }
    ensures reply { IfOk result (λ m. IsDueReply past.entry.journal.now.entries m.what m.due) }
    ensures free { is_free (step_of past.entry.opening.now past.entry.journal.now.entries by (Event.Got child line)) ≡ true → IsOk result }
{
    let due = due_by_got(alloc, past, child, line.view())?;
    Ok(Move {
        reply: Reply::Done,
        what: Some(What::Got { child, line }),
        due,
    })
}

/// A line of a child that was started.
fn got_line(
    alloc: Global,
    past: Past<'_>,
    by: u32,
    child: u32,
    line: Bytes,
) -> Result<Move, NoMemory>
    requires legal { Legal past.opening.now past.journal.now.entries }
    requires served { IsServed past.opening.now past.journal.now.entries past.registers.now }
    requires started { is_started past.journal.now.entries child ≡ true }
    requires fits { has_newline line ≡ false }
    ensures step { IfOk result (IsStep past.entry.journal.now.entries by (step_of past.entry.opening.now past.entry.journal.now.entries by (Event.Got child line))) }
    ensures reply { IfOk result (λ m. IsDueReply past.entry.journal.now.entries m.what m.due) }
    ensures free { is_free (step_of past.entry.opening.now past.entry.journal.now.entries by (Event.Got child line)) ≡ true → IsOk result }
{
    let journal = past.journal;
    if is_ended(journal, child) {
        return Ok(only(gone(journal, child)));
    }
    if is_full(journal) {
        return Ok(end_full(child));
    }
    take_line(alloc, past, by, child, line)
}

fn got(alloc: Global, past: Past<'_>, by: u32, child: u32, line: Bytes) -> Result<Move, NoMemory>
    requires legal { Legal past.opening.now past.journal.now.entries }
    requires served { IsServed past.opening.now past.journal.now.entries past.registers.now }
    ensures step { IfOk result (IsStep past.entry.journal.now.entries by (step_of past.entry.opening.now past.entry.journal.now.entries by (Event.Got child line))) }
    ensures reply { IfOk result (λ m. IsDueReply past.entry.journal.now.entries m.what m.due) }
    ensures free { is_free (step_of past.entry.opening.now past.entry.journal.now.entries by (Event.Got child line)) ≡ true → IsOk result }
{
    if !is_started(past.journal, child) || has_byte(line.view(), b'\n') {
        return Ok(only(Reply::Odd));
    }
    got_line(alloc, past, by, child, line)
}

/// Whether an event may end the child so. Nothing but a line ends one at a full journal.
fn may_end(journal: &Journal, child: u32, why: Why) -> bool
    ensures { result ≡ may_end journal.now.entries child why }
{
    match why {
        Why::Eof | Why::ReadFault | Why::LongLine | Why::Memory => true,
        Why::Closed => has_no_open_job(journal, child) && !has_busy_task(journal, child),
        Why::Full | Why::Foul { .. } | Why::Error { .. } | Why::Version { .. } => false,
    }
}

fn stop(opening: &Opening, journal: &Journal, by: u32, child: u32, why: Why) -> Move
    ensures step { IsStep journal.now.entries by (step_of opening.now journal.now.entries by (Event.Stop child why)) result }
    ensures reply { IsDueReply journal.now.entries result.what result.due }
{
    if !is_started(journal, child) || !may_end(journal, child, why) {
        return only(Reply::Odd);
    }
    if is_ended(journal, child) {
        return only(gone(journal, child));
    }
    Move {
        reply: Reply::Done,
        what: Some(What::End { child, why }),
        due: Due::EndedJobs { child, why },
    }
}

fn sent(opening: &Opening, journal: &Journal, by: u32, child: u32) -> Move
    ensures step { IsStep journal.now.entries by (step_of opening.now journal.now.entries by (Event.Sent child)) result }
    ensures reply { IsDueReply journal.now.entries result.what result.due }
{
    if is_all_sent(journal, child) {
        only(Reply::Odd)
    } else {
        append(What::Sent { child }, Reply::Done)
    }
}

fn mute(opening: &Opening, journal: &Journal, by: u32, child: u32) -> Move
    ensures step { IsStep journal.now.entries by (step_of opening.now journal.now.entries by (Event.Mute child)) result }
    ensures reply { IsDueReply journal.now.entries result.what result.due }
{
    if !is_started(journal, child) || is_mute(journal, child) {
        return only(Reply::Odd);
    }
    let due = if is_live(journal, child) {
        Due::UnsentJobs { child }
    } else {
        Due::Nothing
    };
    Move {
        reply: Reply::Done,
        what: Some(What::Mute { child }),
        due,
    }
}

fn may_answer(journal: &Journal, by: u32, task: u32) -> bool
    ensures { result ≡ may_answer journal.now.entries by task }
{
    is_claimed_by(journal, by, task) && !has_open_job(journal, task)
}

/// Again if the task is run again, else its answer.
fn closing(opening: &Opening, runs: &[Run], task: u32, answer: Answer) -> What
    ensures { (past : List Entry) → AreRuns opening.now past runs.now → result ≡ closing opening.now past task answer }
{
    if runs::is_run_again(opening, runs, task, answer) {
        What::Again { task, answer }
    } else {
        What::Answer { task, answer }
    }
}

fn answer_task(
    opening: &Opening,
    journal: &Journal,
    runs: &[Run],
    by: u32,
    task: u32,
    answer: Answer,
) -> Move
    requires { AreRuns opening.now journal.now.entries runs.now }
    ensures step { IsStep journal.now.entries by (step_of opening.now journal.now.entries by (Event.Answer task answer)) result }
    ensures reply { IsDueReply journal.now.entries result.what result.due }
{
    if may_answer(journal, by, task) {
        append(closing(opening, runs, task, answer), Reply::Done)
    } else {
        only(Reply::Odd)
    }
}

fn may_add_note(opening: &Opening, journal: &Journal, by: u32, task: u32, chunk: u64) -> bool
    ensures { result ≡ may_add_note opening.now journal.now.entries by task chunk }
{
    is_claimed_by(journal, by, task)
        && may_note(opening, task)
        && !has_open_job(journal, task)
        && chunk > 0
}

fn note(opening: &Opening, journal: &Journal, by: u32, task: u32, chunk: u64, count: u64) -> Move
    ensures step { IsStep journal.now.entries by (step_of opening.now journal.now.entries by (Event.Note task chunk count)) result }
    ensures reply { IsDueReply journal.now.entries result.what result.due }
{
    if may_add_note(opening, journal, by, task, chunk) {
        append(What::Note { task, chunk, count }, Reply::Done)
    } else {
        only(Reply::Odd)
    }
}

/// The layouts in which the remote is known to have the task's key.
fn layouts(past: Past<'_>, by: u32, task: u32) -> Result<Move, NoMemory>
    requires { IsNoted past.opening.now past.journal.now.entries past.notes.now }
    ensures step { IfOk result (IsStep past.entry.journal.now.entries by (step_of past.entry.opening.now past.entry.journal.now.entries by (Event.Layouts task))) }
    ensures reply { IfOk result (λ m. IsDueReply past.entry.journal.now.entries m.what m.due) }
    ensures free { is_free (step_of past.entry.opening.now past.entry.journal.now.entries by (Event.Layouts task)) ≡ true → IsOk result }
{
    if !is_claimed_by(past.journal, by, task) {
        return Ok(only(Reply::Odd));
    }
    let Some(task) = task_of(past.opening, task) else {
        return Ok(only(Reply::Odd));
    };
    let uuid = past.opening.identity.uuid.view();
    let layouts = past.notes.current(task.key.view(), uuid)?;
    Ok(only(Reply::Layouts(layouts)))
}

fn shut(opening: &Opening, journal: &Journal, by: u32, on: bool) -> Move
    ensures step { IsStep journal.now.entries by (step_of opening.now journal.now.entries by (Event.Shut on)) result }
    ensures reply { IsDueReply journal.now.entries result.what result.due }
{
    if by <= 1 {
        only(Reply::Done)
    } else {
        only(Reply::Odd)
    }
}

/// Whether the core is shut after the event.
pub(super) fn shut_by(by: u32, event: &Event, shut: bool) -> bool
    ensures { result ≡ shut_by by event.now shut }
{
    match event {
        Event::Shut { on } => { if by <= 1 { *on } else { shut } }
        _ => shut,
    }
}

/// Whether a core that is shut or not has nothing more to do about the event's child.
pub(super) fn shut_for(journal: &Journal, event: &Event, shut: bool) -> bool
    ensures { result ≡ shut_for journal.now.entries shut event.now }
{
    match event {
        Event::Fetch { child } => shut && !is_awaited(journal, *child),
        _ => shut,
    }
}

/// Whether the event asks what there is to do about a child.
pub(super) fn is_waiting(event: &Event) -> bool
    ensures { (past : List Entry) (shut : Bool) (reply : Reply) → told past shut event.now reply ≡ (if result then unless_shut (shut_for past shut event.now) reply else reply) }
{
    matches!(event, Event::Listen { .. } | Event::Fetch { .. })
}

/// The reply to an event, by whether it waits and whether the core is shut.
pub(super) fn told(waits: bool, shut: bool, reply: Reply) -> Reply
    ensures { result ≡ (if waits then unless_shut shut reply else reply) }
{
    match reply {
        Reply::Wait if waits && shut => Reply::Over,
        _ => reply,
    }
}

/// What the event appends, and what is answered.
pub(super) fn move_of(
    alloc: Global,
    past: Past<'_>,
    by: u32,
    event: Event,
) -> Result<Move, NoMemory>
    requires few { length past.opening.now.tasks ≤ most_tasks }
    requires legal { Legal past.opening.now past.journal.now.entries }
    requires served { IsServed past.opening.now past.journal.now.entries past.registers.now }
    requires noted { IsNoted past.opening.now past.journal.now.entries past.notes.now }
    requires runs { AreRuns past.opening.now past.journal.now.entries past.runs.now }
    requires free { (child : ℕ) → event ≡ Event.Claim child → past.free ≡ least_free past.opening.now past.journal.now.entries }
    ensures step { IfOk result (IsStep past.entry.journal.now.entries by (step_of past.entry.opening.now past.entry.journal.now.entries by event)) }
    ensures reply { IfOk result (λ m. IsDueReply past.entry.journal.now.entries m.what m.due) }
    ensures free { is_free (step_of past.entry.opening.now past.entry.journal.now.entries by event) ≡ true → IsOk result }
{
    let opening = past.opening;
    let journal = past.journal;
    let runs = past.runs;
    match event {
        Event::Claim { child } => Ok(claim(opening, journal, runs, by, child, past.free)),
        Event::Start { slot, offer } => Ok(start(opening, journal, by, slot, offer)),
        Event::NoStart { slot } => Ok(no_start(opening, journal, by, slot)),
        Event::Ask {
            child,
            task,
            request,
        } => ask_own(alloc, opening, journal, by, child, task, request),
        Event::Lookup { child, job } => Ok(lookup(opening, journal, by, child, job)),
        Event::Look { child } => Ok(look(opening, journal, by, child)),
        Event::Listen { child } => Ok(listen(opening, journal, by, child)),
        Event::Fetch { child } => fetch(alloc, opening, journal, by, child),
        Event::Got { child, line } => got(alloc, past, by, child, line),
        Event::Stop { child, why } => Ok(stop(opening, journal, by, child, why)),
        Event::Sent { child } => Ok(sent(opening, journal, by, child)),
        Event::Mute { child } => Ok(mute(opening, journal, by, child)),
        Event::Answer { task, answer } => Ok(answer_task(opening, journal, runs, by, task, answer)),
        Event::Note { task, chunk, count } => Ok(note(opening, journal, by, task, chunk, count)),
        Event::Layouts { task } => layouts(past, by, task),
        Event::Shut { on } => Ok(shut(opening, journal, by, on)),
    }
}
