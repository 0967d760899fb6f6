// Makes the journal again, by a core of its own.
ghost use Rattle.std.specs.Prelude.{ℕ, ◌≡◌, ◌↔◌, ◌<◌, ◌≤◌, ◌^◌, ◌++◌, List, [], Option, Some, None, Ok, true, false, length, slice_get, option_map, IfOk, IfSome, IsNone, OnOk, IsTrue};
ghost use Rattle.journal_model.specs.Beginnings.{MayBegin};
ghost use Rattle.journal_model.specs.declared.entry.Entry.{Entry};
ghost use Rattle.journal_model.specs.declared.entry.What.TheVariants.{Lead};
ghost use Rattle.journal_scan.specs.Shown.{entry_shown, what_shown};
ghost use Rattle.journal_audit.specs.Audits.{IsAudit, IsMisplaced, ReplaysTo};
ghost use Rattle.journal_audit.specs.Replays.{IsReplayed, NameWasTold, NameWasUntold, StandsAt, WasTold, group_by, is_name};

use crate::found::{Audit, Misplaced};
use crate::{equal, events, kind, requests};
use ann_key::{NoMemory, Text};
use host_core::{Core, Event};
use journal_look::{EntryRef, Journal, WhatRef};
use journal_model::Opening;
use std::alloc::Global;

/// Makes the event, if there is one.
fn step(core: &mut Core, by: u32, event: Option<Event>) -> Result<(), NoMemory>
    ensures made { OnOk result (core.new.journal ≡ core.old.journal ++ group_by core.old.opening core.old.journal by event) }
    ensures opening { core.new.opening ≡ core.old.opening }
{
    match event {
        Some(event) => {
            let _reply = core.step(by, event)?;
            Ok(())
        }
        None => Ok(()),
    }
}

/// Tells the core the name with the request that comes next. False where that may not stand after it, and nothing was made.
fn tell_pair(
    alloc: Global,
    core: &mut Core,
    by: u32,
    child: u32,
    name: &Text,
    next: Option<EntryRef<'_>>,
) -> Result<bool, NoMemory>
    requires { length core.old.journal < 2 ^ 64 }
    ensures told { IfOk result (λ told. told ≡ true → NameWasTold core.old core.new by child name.now (option_map entry_shown next.entry)) }
    ensures untold { IfOk result (λ told. told ≡ false → NameWasUntold core.old core.new by child name.now (option_map entry_shown next.entry)) }
    ensures opening { core.new.opening ≡ core.old.opening }
{
    let before = core.journal().len();
    let event = events::pair_event(alloc, core, child, name, next)?;
    step(core, by, event)?;
    if core.journal().len() == before {
        Ok(false)
    } else {
        Ok(true)
    }
}

/// Tells the core the name of a request of the child: with the request that comes next; or, where that may not stand after it, with
/// one that may.
fn tell_name(
    alloc: Global,
    core: &mut Core,
    by: u32,
    child: u32,
    line: &[u8],
    next: Option<EntryRef<'_>>,
) -> Result<(), NoMemory>
    requires { length core.old.journal < 2 ^ 64 }
    ensures told { OnOk result ((job : ℕ) → WasTold core.old core.new (record { by = by; what = Lead child job line.now }) (option_map entry_shown next.entry)) }
    ensures opening { core.new.opening ≡ core.old.opening }
{
    let Some(name) = requests::name_text(alloc, core, child, line)? else {
        return Ok(());
    };
    if tell_pair(alloc, core, by, child, &name, next)? {
        return Ok(());
    }
    let event = events::name_event(alloc, core, by, child, &name)?;
    step(core, by, event)
}

/// Tells the core the event that appends the entry, which says no name, where one does.
fn tell_plain(alloc: Global, core: &mut Core, by: u32, what: WhatRef<'_>) -> Result<(), NoMemory>
    requires { length core.old.journal < 2 ^ 64 }
    ensures told { OnOk result (is_name (what_shown what.entry) ≡ false → (next : Option Entry) → WasTold core.old core.new (record { by = by; what = what_shown what.entry }) next) }
    ensures opening { core.new.opening ≡ core.old.opening }
{
    let event = events::event_of(alloc, core, what)?;
    step(core, by, event)
}

/// The child, the job and the line of an entry that says a name.
fn lead_of(what: WhatRef<'_>) -> Option<(u32, u64, &[u8])>
    ensures some { IfSome result (λ l. what_shown what.entry ≡ Lead l.0 l.1 l.2.now) }
    ensures none { IsNone result → is_name (what_shown what.entry) ≡ false }
{
    match what {
        WhatRef::Lead { child, job, line } => Some((child, job, line)),
        _ => None,
    }
}

/// Tells the core the event that appends the entry, where one does.
fn tell(
    alloc: Global,
    core: &mut Core,
    entry: EntryRef<'_>,
    next: Option<EntryRef<'_>>,
) -> Result<(), NoMemory>
    requires { length core.old.journal < 2 ^ 64 }
    ensures told { OnOk result (WasTold core.old core.new (entry_shown entry.entry) (option_map entry_shown next.entry)) }
    ensures opening { core.new.opening ≡ core.old.opening }
{
    match lead_of(entry.what) {
        Some((child, _, line)) => tell_name(alloc, core, entry.by, child, line, next),
        None => tell_plain(alloc, core, entry.by, entry.what),
    }
}

/// Whether the entry stands at this place.
fn is_at(journal: &Journal, at: u64, entry: EntryRef<'_>) -> bool
    ensures { IsTrue result ↔ (slice_get journal.now.entries at ≡ Some (entry_shown entry.entry)) }
{
    match journal.entry(at) {
        Some(there) => equal::is_entry(there, entry),
        None => false,
    }
}

/// Whether the entry may stand at this place, after entries that the core has made again, with what is due after them. The entry is then
/// made again too. The next entry says which request a name leads.
fn may_stand(
    alloc: Global,
    core: &mut Core,
    at: u64,
    entry: EntryRef<'_>,
    next: Option<EntryRef<'_>>,
) -> Result<bool, NoMemory>
    ensures next { IfOk result (StandsAt core.old core.new at (entry_shown entry.entry) (option_map entry_shown next.entry)) }
    ensures opening { core.new.opening ≡ core.old.opening }
{
    if core.journal().len() == at {
        tell(alloc, core, entry, next)?;
    }
    Ok(is_at(core.journal(), at, entry))
}

/// What is found of a journal that the core has made again whole, with what is due at its end.
#[tactic(auto, using(crate::proofs::Auditing::legal_end, crate::proofs::Auditing::due_end))]
fn found_at_end(opening: &Opening, core: &Core, journal: &Journal) -> Audit
    requires { IsReplayed opening.now journal.now.entries None core.now.journal }
    ensures { IsAudit opening.now journal.now.entries result }
{
    if core.journal().len() == journal.len() {
        Audit::Legal
    } else {
        Audit::Wrong {
            entry: journal.len(),
            kind: 0,
        }
    }
}

/// Makes the journal again, entry by entry, by a core that has made nothing. The first entry that may not stand, if there is one.
fn first_wrong(
    alloc: Global,
    opening: &Opening,
    core: &mut Core,
    journal: &Journal,
) -> Result<Option<Misplaced>, NoMemory>
    requires opening { core.old.opening ≡ opening.now }
    requires fresh { core.old.journal ≡ [] }
    ensures wrong { IfOk result (λ found. IfSome found (IsMisplaced opening.now journal.now.entries)) }
    ensures whole { result ≡ Ok None → IsReplayed opening.now journal.now.entries None core.new.journal }
    ensures opening { OnOk result (core.new.opening ≡ opening.now) }
{
    for at in 0..journal.len() {
        let Some(entry) = journal.entry(at) else {
            unreachable!()
        };
        if !may_stand(alloc, core, at, entry, journal.entry(at + 1))? {
            return Ok(Some(Misplaced {
                entry: at,
                kind: kind::kind_of(entry.what),
            }));
        }
    }
    Ok(None)
}

/// A core that has made nothing.
fn fresh_core(alloc: Global, opening: &Opening) -> Result<Core, NoMemory>
    requires begins { MayBegin opening.now }
    ensures { IfOk result (λ core. (core.opening ≡ opening.now) × (core.journal ≡ [])) }
{
    let opening = opening.copy(alloc)?;
    Core::new(alloc, opening)
}

/// What comes of making a journal again.
#[derive(Drop)]
pub enum Replayed {
    /// The core that has made it, and what is due after its last entry.
    Whole(Core),
    Wrong(Misplaced),
}

/// Makes the journal of a run that began so again: a core is told each entry, and has to append the same. It takes memory for a copy
/// of the opening and of the journal.
pub fn make_again(alloc: Global, opening: &Opening, journal: &Journal) -> Result<Replayed, NoMemory>
    requires begins { MayBegin opening.now }
    ensures replayed { IfOk result (ReplaysTo opening.now journal.now.entries) }
{
    let mut core = fresh_core(alloc, opening)?;
    match first_wrong(alloc, opening, &mut core, journal)? {
        Some(wrong) => Ok(Replayed::Wrong(wrong)),
        None => Ok(Replayed::Whole(core)),
    }
}

/// What is found of the journal of a run that began so, once it is made again.
pub fn audit(alloc: Global, opening: &Opening, journal: &Journal) -> Result<Audit, NoMemory>
    requires begins { MayBegin opening.now }
    ensures audit { IfOk result (IsAudit opening.now journal.now.entries) }
{
    match make_again(alloc, opening, journal)? {
        Replayed::Whole(core) => Ok(found_at_end(opening, &core, journal)),
        Replayed::Wrong(Misplaced { entry, kind }) => Ok(Audit::Wrong { entry, kind }),
    }
}
