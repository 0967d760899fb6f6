// The worker of a child: what it does next follows from the journal alone.
ghost use Rattle.std.specs.Prelude.{◌≡◌, ◌≤◌, ◌<◌, length, IfOk, Some};
ghost use Rattle.journal_model.specs.Legality.{task_of};
ghost use Rattle.journal_model.specs.Limits.{most_tasks};
ghost use Rattle.journal_scan.specs.Shown.{what_shown};
ghost use Rattle.rehearse_command.specs.World.Workers.{answer_by, answer_for, asking_for, behind_job, behind_turn, claim_of, greeting_of, last_turn, next_of, request_for, start_of, success_of, turn_in};

use ann_key::{Key, NoMemory, Text};
use host_core::{Answer, Core, Event, Journal, Opening, Verdict, WhatRef};
use host_talk::request::Request;
use journal_look::{
    has_no_open_job, has_spoken, is_claimed_by, is_ended, is_started, least_free, starts_so_far,
    task_of, verdict_of,
};
use std::alloc::Global;
use task_text::{Task, Work};

/// What the worker of a child did last.
#[derive(Clone, Copy)]
pub(crate) enum Turn {
    /// It claimed this task.
    Claimed { task: u32 },
    /// It asked this job, for that task.
    Asked { job: u64, task: u32 },
}

// What the entry says that the child's worker did.
fn turn_in(what: WhatRef<'_>, c: u32) -> Option<Turn>
    ensures { result ≡ turn_in c (what_shown what.entry) }
{
    match what {
        WhatRef::Claim { task, child } => {
            if child == c {
                Some(Turn::Claimed { task })
            } else {
                None
            }
        }
        WhatRef::Ask {
            child,
            job,
            task,
            ..
        } => {
            if child == c {
                Some(Turn::Asked { job, task })
            } else {
                None
            }
        }
        _ => None,
    }
}

// What the child's worker did last, looked for from the journal's end.
fn last_turn(journal: &Journal, child: u32) -> Option<Turn>
    ensures { result ≡ last_turn journal.now.entries child }
{
    let len = journal.len();
    'entries: for back in 0..len {
        let Some(entry) = journal.entry(len - 1 - back) else {
            unreachable!();
        };
        if let Some(turn) = turn_in(entry.what, child) {
            return Some(turn);
        }
    }
    None
}

// What is asked for the task.
fn request_for(alloc: Global, task: &Task) -> Result<Option<Request>, NoMemory>
    ensures { IfOk result (λ request. request ≡ request_for task.now.work task.now.key task.now.file) }
{
    match task.work {
        Work::Store => Ok(Some(Request::Transfer {
            store: true,
            key: Key::copy(alloc, task.key.view())?,
            file: Text::copy(alloc, task.file.view())?,
        })),
        Work::Get => Ok(Some(Request::Transfer {
            store: false,
            key: Key::copy(alloc, task.key.view())?,
            file: Text::copy(alloc, task.file.view())?,
        })),
        Work::Check => Ok(Some(Request::CheckPresent {
            key: Key::copy(alloc, task.key.view())?,
        })),
        Work::Drop => Ok(Some(Request::Remove {
            key: Key::copy(alloc, task.key.view())?,
        })),
        Work::XStore | Work::XGet | Work::XCheck | Work::XDrop | Work::XRename => Ok(None),
    }
}

// The task's answer where its request is done.
fn success_of(work: Work) -> Answer
    ensures { result ≡ success_of work }
{
    match work {
        Work::Store | Work::XStore => Answer::Stored,
        Work::Get | Work::XGet => Answer::Got,
        Work::Check | Work::XCheck => Answer::Present,
        Work::Drop | Work::XDrop => Answer::Dropped,
        Work::XRename => Answer::Renamed,
    }
}

// Its answer by how its request was settled.
fn answer_by(success: Answer, verdict: Verdict) -> Answer
    ensures { result ≡ answer_by success verdict }
{
    match verdict {
        Verdict::Done { .. } => success,
        Verdict::Failed { at } => Answer::Failed { at },
        Verdict::Absent { .. } => Answer::Absent,
        Verdict::Unknown { at } => Answer::Unknown { at },
        Verdict::Unsupported { .. } => Answer::Unsupported,
        Verdict::Ended { why } => Answer::Ended { why },
        Verdict::Unsent => Answer::Unsent,
    }
}

// The child is started, where it is the next.
fn start_of(journal: &Journal, child: u32) -> Option<Event>
    requires { 0 < child }
    ensures { result ≡ start_of journal.now.entries child }
{
    let slot = child - 1;
    if starts_so_far(journal) == slot as usize {
        Some(Event::Start { slot, offer: false })
    } else {
        None
    }
}

fn greeting_of(journal: &Journal, child: u32) -> Option<Event>
    ensures { result ≡ greeting_of journal.now.entries child }
{
    if has_spoken(journal, child) {
        Some(Event::Ask {
            child,
            task: 0,
            request: Request::Extensions { offer: false },
        })
    } else {
        None
    }
}

fn claim_of(opening: &Opening, journal: &Journal, child: u32) -> Option<Event>
    requires { length opening.now.tasks ≤ most_tasks }
    ensures { result ≡ claim_of opening.now journal.now.entries child }
{
    if least_free(opening, journal).is_some() {
        Some(Event::Claim { child })
    } else {
        None
    }
}

// The request of the task that was claimed.
fn asking_for(
    alloc: Global,
    opening: &Opening,
    child: u32,
    task: u32,
) -> Result<Option<Event>, NoMemory>
    ensures { IfOk result (λ event. event ≡ asking_for child task (task_of opening.now task)) }
{
    let Some(work) = task_of(opening, task) else {
        return Ok(None);
    };
    match request_for(alloc, work)? {
        Some(request) => Ok(Some(Event::Ask {
            child,
            task,
            request,
        })),
        None => Ok(None),
    }
}

// The answer of the task whose request was settled so.
fn answer_for(opening: &Opening, task: u32, verdict: Option<Verdict>) -> Option<Event>
    ensures { result ≡ answer_for task (task_of opening.now task) verdict }
{
    let Some(work) = task_of(opening, task) else {
        return None;
    };
    let Some(verdict) = verdict else {
        return None;
    };
    Some(Event::Answer {
        task,
        answer: answer_by(success_of(work.work), verdict),
    })
}

// What comes after a job that is settled.
fn behind_job(
    opening: &Opening,
    journal: &Journal,
    child: u32,
    job: u64,
    task: u32,
) -> Option<Event>
    requires { length opening.now.tasks ≤ most_tasks }
    ensures { result ≡ behind_job opening.now journal.now.entries child job task }
{
    if job == 0 {
        return Some(Event::Ask {
            child,
            task: 0,
            request: Request::Prepare,
        });
    }
    if is_claimed_by(journal, 0, task) {
        answer_for(opening, task, verdict_of(journal, child, job))
    } else {
        claim_of(opening, journal, child)
    }
}

fn behind_turn(
    alloc: Global,
    opening: &Opening,
    journal: &Journal,
    child: u32,
    turn: Option<Turn>,
) -> Result<Option<Event>, NoMemory>
    requires { length opening.now.tasks ≤ most_tasks }
    ensures { IfOk result (λ event. event ≡ behind_turn opening.now journal.now.entries child turn) }
{
    match turn {
        None => Ok(greeting_of(journal, child)),
        Some(Turn::Claimed { task }) => asking_for(alloc, opening, child, task),
        Some(Turn::Asked { job, task }) => Ok(behind_job(opening, journal, child, job, task)),
    }
}

/// What the child's worker does next, where it can do anything.
#[tactic(auto, unfolding(crate::specs::World::Workers::next_of))]
pub(crate) fn next_of(alloc: Global, core: &Core, child: u32) -> Result<Option<Event>, NoMemory>
    requires child { 0 < child }
    requires few { length core.now.opening.tasks ≤ most_tasks }
    ensures { IfOk result (λ event. event ≡ next_of core.now.opening core.now.journal child) }
{
    let journal = core.journal();
    if !is_started(journal, child) {
        return Ok(start_of(journal, child));
    }
    if is_ended(journal, child) || !has_no_open_job(journal, child) {
        return Ok(None);
    }
    let turn = last_turn(journal, child);
    behind_turn(alloc, core.opening(), journal, child, turn)
}
