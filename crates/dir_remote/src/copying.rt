// Copies of files, in steps.
ghost use Rattle.std.specs.Prelude.{◌≡◌, ◌≢◌, ◌+◌, ◌<◌, ◌≤◌, ◌^◌, false, length, IfOk, IsTrue, Err};
ghost use Rattle.ann_outside.specs.Calls.{logged};
ghost use Rattle.ann_outside.specs.DeskCauses.{HasCauses, LeavesOther};
ghost use Rattle.ann_outside.specs.Files.{WhereTold, OthersStay, CreateDoes, CreateNewDoes};
ghost use Rattle.ann_outside.specs.declared.file_desk.Call.TheVariants.{Create};
ghost use Rattle.dir_remote.specs.Copies.{PieceDoes, CopyDoes, HasCopyCauses, Spares};
ghost use Rattle.dir_remote.specs.Traces.{Traced, Each, IsClearing, PieceTraces, CopyTraces};

use ann_outside::{Desk, DeskError};
use std::alloc::Global;

const STEP: usize = 65_536;

// Puts bytes of the one file, from a place on, after those of the other, and answers how many. None are the file's end.
fn copy_piece<D: Desk>(
    desk: &mut D,
    from: &str,
    to: &str,
    at: u64,
    buffer: &mut [u8],
) -> Result<u64, DeskError>
    requires { 0 < length buffer.old }
    ensures place { IfOk result (λ n. at + n < 2 ^ 64) }
    ensures causes { HasCauses (D.told desk.old).counts (D.told desk.new).counts result }
    ensures apart { LeavesOther (D.told desk.old).counts (D.told desk.new).counts result }
    ensures traced { Traced (PieceTraces from.now to.now at result) (D.told desk.old).log (D.told desk.new).log }
    ensures others { WhereTold (D.told desk.old).files (D.told desk.new).files (OthersStay (λ other. other ≡ to.now)) }
    ensures piece { WhereTold (D.told desk.old).files (D.told desk.new).files (PieceDoes from.now to.now at result) }
{
    let count = desk.read_at(from, at, buffer)?;
    if count == 0 {
        return Ok(0);
    }
    desk.append(to, &buffer[..count])?;
    Ok(count as u64)
}

// Makes the file, anew or only where there is none of its name.
fn make<D: Desk>(desk: &mut D, name: &str, alone: bool) -> Result<(), DeskError>
    ensures causes { HasCauses (D.told desk.old).counts (D.told desk.new).counts result }
    ensures apart { LeavesOther (D.told desk.old).counts (D.told desk.new).counts result }
    ensures files { WhereTold (D.told desk.old).files (D.told desk.new).files (CreateDoes name.now result) }
    ensures alone { IsTrue alone → WhereTold (D.told desk.old).files (D.told desk.new).files (CreateNewDoes name.now result) }
    ensures log { (D.told desk.new).log ≡ logged (D.told desk.old).log (Create name.now result) }
{
    if alone {
        desk.create_new(name)
    } else {
        desk.create(name)
    }
}

// Clears the file away, where it is one's own, after a step that failed.
pub fn give_up<D: Desk>(
    desk: &mut D,
    name: &str,
    clears: bool,
    error: DeskError,
) -> Result<(), DeskError>
    ensures same { result ≡ Err error }
    ensures later { (D.told desk.old).counts.faults ≤ (D.told desk.new).counts.faults }
    ensures missing { (D.told desk.old).counts.missing ≤ (D.told desk.new).counts.missing }
    ensures calm { clears ≡ false → (D.told desk.new).counts ≡ (D.told desk.old).counts }
    ensures others { WhereTold (D.told desk.old).files (D.told desk.new).files (OthersStay (λ other. other ≡ name.now)) }
    ensures traced { Traced (Each (IsClearing clears name.now)) (D.told desk.old).log (D.told desk.new).log }
{
    if clears {
        let _ = desk.remove(name);
    }
    Err(error)
}

// Makes the one file with the content of the other: anew, or only where there is none of its name. In that case a copy that
// fails clears away what it made.
pub fn copy<D: Desk>(
    alloc: Global,
    desk: &mut D,
    from: &str,
    to: &str,
    alone: bool,
) -> Result<(), DeskError>
    ensures causes { HasCopyCauses alone (D.told desk.old).counts (D.told desk.new).counts result }
    ensures others { WhereTold (D.told desk.old).files (D.told desk.new).files (OthersStay (λ other. other ≡ to.now)) }
    ensures copied { WhereTold (D.told desk.old).files (D.told desk.new).files (λ old new. from.now ≢ to.now → CopyDoes from.now to.now result old new) }
    ensures spared { IsTrue alone → WhereTold (D.told desk.old).files (D.told desk.new).files (Spares to.now result) }
    ensures traced { Traced (CopyTraces alone from.now to.now result) (D.told desk.old).log (D.told desk.new).log }
{
    let Ok(mut buffer) = vec![in alloc; 0; STEP] else {
        return Err(DeskError::NoMemory);
    };
    make(desk, to, alone)?;
    let mut at = 0;
    loop {
        match copy_piece(desk, from, to, at, buffer.as_mut_slice()) {
            Ok(0) => return Ok(()),
            Ok(count) => at += count,
            Err(error) => return give_up(desk, to, alone, error),
        }
    }
}
