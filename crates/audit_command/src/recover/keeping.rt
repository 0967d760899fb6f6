// What is kept of a run whose text was cut off.
ghost use Rattle.std.specs.Prelude.{◌≡◌, Ok, Some, true, false, IfOk, OnErr};
ghost use Rattle.ann_outside.specs.TextFile.Names.{NamesOnly};
ghost use Rattle.audit_command.specs.Recoveries.{Holds, IsKeptBy, IsKeptFile, IsRestored, IsRestoredOver, KeptStays};

use crate::recover::made::KeptEnd;
use ann_key::{NoMemory, Text};
use ann_outside::Desk;
use host_core::Core;
use kept_file::desk::{KeptRead, KeptWritten, read_kept, write_kept};
use kept_file::text::write_keep;
use registers::Registers;
use std::alloc::Global;
use task_text::chunk_log::NoteBook;

// Whether a kept file that hands this on says what was kept when the run began, or already what is kept after its journal.
fn holds(
    alloc: Global,
    registers: &Registers,
    notes: &NoteBook,
    core: &Core,
) -> Result<bool, NoMemory>
    ensures holds { result ≡ Ok true → Holds registers.now notes.now core.now.opening core.now.journal }
    ensures differs { result ≡ Ok false → Holds registers.now notes.now core.now.opening core.now.journal → ⊥ }
{
    let kept = write_keep(alloc, registers, registers, notes)?;
    let opening = core.opening();
    let before = write_keep(
        alloc,
        &opening.registers,
        &opening.registers,
        &opening.notes,
    )?;
    if kept.view() == before.view() {
        return Ok(true);
    }
    let after = write_keep(alloc, &opening.registers, core.registers(), core.notes())?;
    Ok(kept.view() == after.view())
}

// The same where the kept file hands this on.
fn restore_over<D: Desk>(
    alloc: Global,
    desk: &mut D,
    name: &str,
    registers: &Registers,
    notes: &NoteBook,
    core: &Core,
) -> Result<KeptEnd, NoMemory>
    ensures restored { IfOk result (IsRestoredOver name.now (D.told desk.old).files (D.told desk.new) registers.now notes.now core.now) }
    ensures stays { OnErr result (KeptStays (Some name.now) (D.told desk.old).files (D.told desk.new)) }
    ensures calls { NamesOnly (IsKeptFile (Some name.now)) (D.told desk.old).log (D.told desk.new).log }
{
    if !holds(alloc, registers, notes, core)? {
        return Ok(KeptEnd::Changed);
    }
    let config = &core.opening().registers;
    let written = write_kept(alloc, desk, name, config, core.registers(), core.notes())?;
    Ok(KeptEnd::Written(written))
}

// Puts what is kept after the core's journal in the place of the kept file, where that says what the run began with, or already so.
fn restore<D: Desk>(
    alloc: Global,
    desk: &mut D,
    name: &str,
    core: &Core,
) -> Result<KeptEnd, NoMemory>
    ensures restored { IfOk result (IsRestored name.now (D.told desk.old).files (D.told desk.new) core.now.opening core.now.journal) }
    ensures stays { OnErr result (KeptStays (Some name.now) (D.told desk.old).files (D.told desk.new)) }
    ensures calls { NamesOnly (IsKeptFile (Some name.now)) (D.told desk.old).log (D.told desk.new).log }
{
    match read_kept(alloc, desk, name)? {
        KeptRead::Kept { registers, notes } => {
            restore_over(alloc, desk, name, &registers, &notes, core)
        }
        KeptRead::BadLine(_) => Ok(KeptEnd::Changed),
        KeptRead::TooLarge => Ok(KeptEnd::Changed),
        KeptRead::Fault => Ok(KeptEnd::Fault),
    }
}

/// Does so with the kept file, where one is named.
pub(crate) fn keep<D: Desk>(
    alloc: Global,
    desk: &mut D,
    name: &Option<Text>,
    core: &Core,
) -> Result<KeptEnd, NoMemory>
    ensures kept { IfOk result (IsKeptBy name.now (D.told desk.old).files (D.told desk.new) core.now.opening core.now.journal) }
    ensures stays { OnErr result (KeptStays name.now (D.told desk.old).files (D.told desk.new)) }
    ensures calls { NamesOnly (IsKeptFile name.now) (D.told desk.old).log (D.told desk.new).log }
{
    match name {
        Some(name) => restore(alloc, desk, name.view(), core),
        None => Ok(KeptEnd::Written(KeptWritten::Done)),
    }
}
