// The event that appends an entry, where one does.
ghost use Rattle.std.specs.Prelude.{ℕ, ◌≡◌, List, IfOk, IfSome, IsNone, Some, false, option_map};
ghost use Rattle.journal_model.specs.Legality.{asks_job};
ghost use Rattle.journal_model.specs.declared.entry.What.TheVariants.{Ask, Got, End, Lost};
ghost use Rattle.journal_scan.specs.Shown.{what_shown, entry_shown};
ghost use Rattle.journal_audit.specs.Replays.{PairsName, Says, SaysName, Suits, is_name};

use crate::requests;
use ann_key::{Bytes, NoMemory, Text};
use host_core::{Core, Event};
use host_talk::request::Request;
use journal_look::{EntryRef, WhatRef, asking_task};
use journal_model::Why;
use std::alloc::Global;
use wire_msg::read_host;

fn ask_event(
    alloc: Global,
    core: &Core,
    child: u32,
    task: u32,
    line: &[u8],
) -> Result<Option<Event>, NoMemory>
    ensures { IfOk result (λ event. (by job : ℕ) → Suits core.now.opening core.now.journal by (Ask child job task line.now) event) }
{
    let Some(message) = read_host(requests::text_of(core, child, line)) else {
        return Ok(None);
    };
    let asked = Request::read(alloc, &message)?;
    match asked {
        Some(request) => Ok(Some(Event::Ask {
            child,
            task,
            request,
        })),
        None => Ok(None),
    }
}

fn lost_event(alloc: Global, core: &Core, child: u32, task: u32) -> Result<Option<Event>, NoMemory>
    ensures { IfOk result (λ event. (by : ℕ) → Suits core.now.opening core.now.journal by (Lost child task) event) }
{
    let request = requests::some_request(alloc, core.journal(), child)?;
    Ok(Some(Event::Ask {
        child,
        task,
        request,
    }))
}

fn got_event(alloc: Global, core: &Core, child: u32, line: &[u8]) -> Result<Option<Event>, NoMemory>
    ensures { IfOk result (λ event. (by : ℕ) → Suits core.now.opening core.now.journal by (Got child line.now) event) }
{
    let line = Bytes::copy(alloc, line)?;
    Ok(Some(Event::Got { child, line }))
}

// A full journal ends a child in place of any line that it says.
fn end_event(alloc: Global, core: &Core, child: u32, why: Why) -> Result<Option<Event>, NoMemory>
    ensures { IfOk result (λ event. (by : ℕ) → Suits core.now.opening core.now.journal by (End child why) event) }
{
    match why {
        Why::Full => {
            let line = Bytes::copy(alloc, b"")?;
            Ok(Some(Event::Got { child, line }))
        }
        _ => Ok(Some(Event::Stop { child, why })),
    }
}

/// The child, the job, the task and the line of an entry that asks.
fn asked_of(what: WhatRef<'_>) -> Option<(u32, u64, u32, &[u8])>
    ensures some { IfSome result (λ a. what_shown what.entry ≡ Ask a.0 a.1 a.2 a.3.now) }
    ensures none { IsNone result → (child job : ℕ) → asks_job child job (what_shown what.entry) ≡ false }
{
    match what {
        WhatRef::Ask {
            child,
            job,
            task,
            line,
        } => Some((child, job, task, line)),
        _ => None,
    }
}

/// The event that appends the name with this entry, where that is a request that may stand after it; and else any, or none.
fn pair_of(
    alloc: Global,
    core: &Core,
    child: u32,
    name: &Text,
    next: EntryRef<'_>,
) -> Result<Option<Event>, NoMemory>
    ensures { IfOk result (PairsName core.now child name.now (Some (entry_shown next.entry))) }
{
    let Some((asked, _, task, line)) = asked_of(next.what) else {
        return Ok(None);
    };
    if asked != child {
        return Ok(None);
    }
    match requests::asked_after(alloc, core, child, name, line)? {
        Some(request) => Ok(Some(Event::Ask {
            child,
            task,
            request,
        })),
        None => Ok(None),
    }
}

/// The event that appends the name with the request that comes next, where that may stand after it; and else any, or none.
#[tactic(auto, using(crate::proofs::Suiting::pairs_nothing))]
pub(super) fn pair_event(
    alloc: Global,
    core: &Core,
    child: u32,
    name: &Text,
    next: Option<EntryRef<'_>>,
) -> Result<Option<Event>, NoMemory>
    ensures { IfOk result (PairsName core.now child name.now (option_map entry_shown next.entry)) }
{
    match next {
        Some(next) => pair_of(alloc, core, child, name, next),
        None => Ok(None),
    }
}

/// The event that appends the name with some request, if it may stand; and else any, or none.
pub(super) fn name_event(
    alloc: Global,
    core: &Core,
    by: u32,
    child: u32,
    name: &Text,
) -> Result<Option<Event>, NoMemory>
    ensures { IfOk result (λ event. (job : ℕ) → (line : List ℕ) → Says core.now.journal child line name.now → SaysName core.now.opening core.now.journal by child job line event) }
{
    let Some(task) = asking_task(core.journal(), by, child) else {
        return Ok(None);
    };
    let name = Text::copy(alloc, name.view())?;
    let key = requests::some_key(alloc)?;
    let request = Request::CheckExport { key, name };
    Ok(Some(Event::Ask {
        child,
        task,
        request,
    }))
}

/// The event that appends the entry, if it may stand and says no name; and else any, or none.
pub(super) fn event_of(
    alloc: Global,
    core: &Core,
    what: WhatRef<'_>,
) -> Result<Option<Event>, NoMemory>
    ensures { IfOk result (λ event. (by : ℕ) → is_name (what_shown what.entry) ≡ false → Suits core.now.opening core.now.journal by (what_shown what.entry) event) }
{
    match what {
        WhatRef::Claim { child, .. } => Ok(Some(Event::Claim { child: child })),
        WhatRef::Start { slot, offer, .. } => Ok(Some(Event::Start {
            slot: slot,
            offer: offer,
        })),
        WhatRef::NoStart { slot } => Ok(Some(Event::NoStart { slot: slot })),
        WhatRef::Ask {
            child,
            task,
            line,
            ..
        } => ask_event(alloc, core, child, task, line),
        WhatRef::Sent { child } => Ok(Some(Event::Sent { child: child })),
        WhatRef::Mute { child } => Ok(Some(Event::Mute { child: child })),
        WhatRef::Got { child, line } => got_event(alloc, core, child, line),
        WhatRef::End { child, why } => end_event(alloc, core, child, why),
        WhatRef::Lost { child, task } => lost_event(alloc, core, child, task),
        WhatRef::Answer { task, answer } => Ok(Some(Event::Answer {
            task: task,
            answer: answer,
        })),
        WhatRef::Again { task, answer } => Ok(Some(Event::Answer {
            task: task,
            answer: answer,
        })),
        WhatRef::Note { task, chunk, count } => Ok(Some(Event::Note {
            task: task,
            chunk: chunk,
            count: count,
        })),
        WhatRef::Lead { .. } | WhatRef::Put { .. } | WhatRef::Verdict { .. } => Ok(None),
    }
}
