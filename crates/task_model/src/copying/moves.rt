ghost use Rattle.std.specs.Prelude.{◌≡◌, ◌≢◌, ℕ, ◌+◌, ◌-◌, ◌^◌, ◌<◌, ◌≤◌, List, ◌++◌, length, Ok, Err, IfOk, take};
ghost use Rattle.ann_digest.specs.Checkers.{taken_of};
ghost use Rattle.ann_outside.specs.DeskCauses.{HasCauses};
ghost use Rattle.ann_outside.specs.Files.{WhereTold};
ghost use Rattle.task_model.specs.Copying.Copies.{Copies, CopyCauses, CarryDoes, StepDoes, refusal_of};
ghost use Rattle.task_model.specs.Copying.FilesAfter.{PieceGrows, LeavesFront};

use crate::copying::copied::Copied;
use ann_digest::Checker;
use ann_key::NoMemory;
use ann_outside::{Desk, DeskError};
use std::alloc::Global;

pub const STEP: usize = 65536;

// Reads bytes of a file from a place on, and appends them to another. There are none at the file's end.
pub fn carry_piece<D: Desk>(
    desk: &mut D,
    from: &str,
    to: &str,
    at: u64,
    buffer: &mut [u8],
) -> Result<usize, DeskError>
    requires { 0 < length buffer.old }
    ensures carried { CarryDoes (D.told desk.old).log (D.told desk.new).log from.now to.now at buffer.new result }
    ensures most { IfOk result (λ n. n ≤ length buffer.new) }
    ensures filled { WhereTold (D.told desk.old).files (D.told desk.new).files (PieceGrows from.now to.now at (length buffer.old) result) }
    ensures causes { HasCauses (D.told desk.old).counts (D.told desk.new).counts result }
{
    let n = desk.read_at(from, at, buffer)?;
    if n == 0 {
        return Ok(0);
    }
    desk.append(to, &buffer[..n])?;
    Ok(n)
}

// Moves a piece, and checks it.
fn move_piece<D: Desk>(
    desk: &mut D,
    from: &str,
    part: &str,
    at: u64,
    buffer: &mut [u8],
    checker: &mut Checker<'_>,
) -> Result<u64, DeskError>
    requires some { 0 < length buffer.old }
    requires room { taken_of checker.old + length buffer.old < 2 ^ 64 }
    ensures moved { StepDoes (D.told desk.old).log (D.told desk.new).log from.now part.now at checker.old checker.new result }
    ensures most { IfOk result (λ n. n ≤ length buffer.old) }
    ensures filled { WhereTold (D.told desk.old).files (D.told desk.new).files (PieceGrows from.now part.now at (length buffer.old) result) }
    ensures causes { HasCauses (D.told desk.old).counts (D.told desk.new).counts result }
{
    let n = carry_piece(desk, from, part, at, buffer)?;
    if n == 0 {
        return Ok(0);
    }
    checker.update(&buffer[..n]);
    Ok(n as u64)
}

pub fn refused(error: DeskError) -> Result<Copied, NoMemory>
    ensures { result ≡ refusal_of error }
{
    match error {
        DeskError::Failed => Ok(Copied::Fault),
        DeskError::Missing => Ok(Copied::Missing),
        DeskError::NoMemory => Err(NoMemory),
    }
}

/// Appends the first n bytes of the file `from` to `part`, fewer where that file ends before, and checks the same bytes.
pub fn copy_in<D: Desk>(
    alloc: Global,
    desk: &mut D,
    from: &str,
    part: &str,
    n: u64,
    checker: &mut Checker<'_>,
) -> Result<Copied, NoMemory>
    requires names { from.now ≢ part.now }
    requires room { taken_of checker.old + n < 2 ^ 64 }
    ensures moved { Copies (D.told desk.old).log (D.told desk.new).log from.now part.now n checker.old checker.new result }
    ensures filled { WhereTold (D.told desk.old).files (D.told desk.new).files (LeavesFront from.now part.now 0 n result) }
    ensures causes { CopyCauses (D.told desk.old).counts (D.told desk.new).counts result }
{
    let Ok(mut buffer) = vec![in alloc; 0; STEP] else {
        return Err(NoMemory);
    };
    let mut at = 0;
    while at < n {
        let room = (n - at).min(STEP as u64) as usize;
        match move_piece(desk, from, part, at, &mut buffer[..room], checker) {
            Ok(0) => return Ok(Copied::Done(at)),
            Ok(moved) => at += moved,
            Err(error) => return refused(error),
        }
    }
    Ok(Copied::Done(at))
}
