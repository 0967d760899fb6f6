ghost use Rattle.std.specs.Prelude.{◌≡◌, ◌+◌, ◌-◌, ◌^◌, ◌<◌, ◌≤◌, [], ◌∷◌, Ok, length, IfOk, IfSome};
ghost use Rattle.ann_digest.specs.Checkers.{taken_of};
ghost use Rattle.ann_outside.specs.DeskCauses.{HasCauses};
ghost use Rattle.ann_outside.specs.Files.{CanCut};
ghost use Rattle.task_model.specs.Copying.Copies.{CopyCauses};
ghost use Rattle.task_model.specs.Copying.Resumes.{ReadDoes, ReadsOn, Resumes};

use crate::copying::copied::Copied;
use crate::copying::moves::{STEP, refused};
use ann_digest::Checker;
use ann_key::NoMemory;
use ann_outside::{Desk, DeskError};
use std::alloc::Global;

// Reads bytes of a file from a place on, and checks them. There are none at the file's end.
fn check_piece<D: Desk>(
    desk: &mut D,
    file: &str,
    at: u64,
    buffer: &mut [u8],
    checker: &mut Checker<'_>,
) -> Result<u64, DeskError>
    requires some { 0 < length buffer.old }
    requires room { taken_of checker.old + length buffer.old < 2 ^ 64 }
    ensures read { ReadDoes (D.told desk.old).log (D.told desk.new).log file.now at checker.old checker.new result }
    ensures most { IfOk result (λ n. n ≤ length buffer.old) }
    ensures causes { HasCauses (D.told desk.old).counts (D.told desk.new).counts result }
{
    let n = desk.read_at(file, at, buffer)?;
    if n == 0 {
        return Ok(0);
    }
    checker.update(&buffer[..n]);
    Ok(n as u64)
}

// Reads the first n bytes of a file, and checks them, by a buffer of one step.
fn check_first<D: Desk>(
    desk: &mut D,
    file: &str,
    n: u64,
    buffer: &mut [u8],
    checker: &mut Checker<'_>,
) -> Result<Copied, NoMemory>
    requires step { length buffer.old ≡ 65536 }
    requires room { taken_of checker.old + n < 2 ^ 64 }
    ensures read { ReadsOn [] (D.told desk.old).log (D.told desk.new).log file.now n checker.old checker.new result }
    ensures causes { CopyCauses (D.told desk.old).counts (D.told desk.new).counts result }
{
    let mut at = 0;
    while at < n {
        let room = (n - at).min(STEP as u64) as usize;
        match check_piece(desk, file, at, &mut buffer[..room], checker) {
            Ok(0) => return Ok(Copied::Done(at)),
            Ok(read) => at += read,
            Err(error) => return refused(error),
        }
    }
    Ok(Copied::Done(at))
}

/// Cuts the file `part` to `keep` bytes and checks all that it then holds. `Done` says how many bytes that are.
pub fn resume<D: Desk>(
    alloc: Global,
    desk: &mut D,
    part: &str,
    keep: u64,
    checker: &mut Checker<'_>,
) -> Result<Copied, NoMemory>
    requires held { IfSome (D.told desk.old).files (λ files. CanCut part.now keep files) }
    requires room { taken_of checker.old + keep < 2 ^ 64 }
    ensures resumed { Resumes (D.told desk.old).log (D.told desk.new).log part.now keep checker.old checker.new result }
    ensures causes { CopyCauses (D.told desk.old).counts (D.told desk.new).counts result }
{
    let Ok(mut buffer) = vec![in alloc; 0; STEP] else {
        return Err(NoMemory);
    };
    match desk.cut(part, keep) {
        Ok(()) => check_first(desk, part, keep, &mut buffer, checker),
        Err(error) => refused(error),
    }
}
