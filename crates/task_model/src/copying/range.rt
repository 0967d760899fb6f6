ghost use Rattle.std.specs.Prelude.{◌≡◌, ◌≢◌, ◌<◌, ◌+◌, ◌-◌, [], ◌∷◌, Ok, length};
ghost use Rattle.ann_outside.specs.Files.{WhereTold};
ghost use Rattle.task_model.specs.Copying.Copies.{CopyCauses};
ghost use Rattle.task_model.specs.Copying.CopiesOut.{CopiesOut, CopiesRange, CopiesNothing};
ghost use Rattle.task_model.specs.Copying.FilesAfter.{LeavesFront, LeavesMade};

use crate::copying::copied::Copied;
use crate::copying::moves::{STEP, carry_piece, refused};
use ann_key::NoMemory;
use ann_outside::Desk;
use std::alloc::Global;

// Appends the bytes of a file in the range to another, in steps as long as the buffer.
fn copy_range<D: Desk>(
    desk: &mut D,
    file: &str,
    from: u64,
    to: u64,
    name: &str,
    buffer: &mut [u8],
) -> Result<Copied, NoMemory>
    requires some { 0 < length buffer.old }
    requires apart { file.now ≢ name.now }
    ensures moved { CopiesRange [] (D.told desk.old).log (D.told desk.new).log file.now from to name.now result }
    ensures filled { WhereTold (D.told desk.old).files (D.told desk.new).files (LeavesFront file.now name.now from (to - from) result) }
    ensures causes { CopyCauses (D.told desk.old).counts (D.told desk.new).counts result }
{
    let mut at = from;
    while at < to {
        let room = (to - at).min(buffer.len() as u64) as usize;
        match carry_piece(desk, file, name, at, &mut buffer[..room]) {
            Ok(0) => return Ok(Copied::Done(at - from)),
            Ok(moved) => at += moved as u64,
            Err(error) => return refused(error),
        }
    }
    Ok(Copied::Done(at - from))
}

// Looks for the end of a file that was emptied for the copy. There are bytes in it only where somebody else writes to it
// meanwhile, and those are left alone: the copy is given up as where no memory is found.
fn copy_nothing<D: Desk>(
    desk: &mut D,
    file: &str,
    from: u64,
    to: u64,
    name: &str,
    buffer: &mut [u8],
) -> Result<Copied, NoMemory>
    requires some { 0 < length buffer.old }
    requires same { file.now ≡ name.now }
    ensures moved { CopiesRange [] (D.told desk.old).log (D.told desk.new).log file.now from to name.now result }
    ensures nothing { CopiesNothing result }
    ensures files { (D.told desk.new).files ≡ (D.told desk.old).files }
    ensures causes { CopyCauses (D.told desk.old).counts (D.told desk.new).counts result }
{
    if to <= from {
        return Ok(Copied::Done(0));
    }
    match desk.read_at(name, from, buffer) {
        Ok(0) => Ok(Copied::Done(0)),
        Ok(_) => Err(NoMemory),
        Err(error) => refused(error),
    }
}

// Appends the bytes in the range to the file that was made for them.
fn copy_made<D: Desk>(
    desk: &mut D,
    file: &str,
    from: u64,
    to: u64,
    name: &str,
    buffer: &mut [u8],
) -> Result<Copied, NoMemory>
    requires { 0 < length buffer.old }
    ensures moved { CopiesRange [] (D.told desk.old).log (D.told desk.new).log file.now from to name.now result }
    ensures filled { WhereTold (D.told desk.old).files (D.told desk.new).files (LeavesMade file.now name.now from to result) }
    ensures itself { file.now ≡ name.now → CopiesNothing result }
    ensures causes { CopyCauses (D.told desk.old).counts (D.told desk.new).counts result }
{
    if file == name {
        copy_nothing(desk, file, from, to, name, buffer)
    } else {
        copy_range(desk, file, from, to, name, buffer)
    }
}

/// Makes the file `name` of the bytes of `file` from the place `from` up to `to`, fewer where that file ends before. Where both names are
/// one, the file is emptied first, and nothing is copied.
pub fn copy_out<D: Desk>(
    alloc: Global,
    desk: &mut D,
    file: &str,
    from: u64,
    to: u64,
    name: &str,
) -> Result<Copied, NoMemory>
    ensures copied { CopiesOut (D.told desk.old).log (D.told desk.new).log (D.told desk.old).files (D.told desk.new).files file.now from to name.now result }
    ensures itself { file.now ≡ name.now → CopiesNothing result }
    ensures causes { CopyCauses (D.told desk.old).counts (D.told desk.new).counts result }
{
    let Ok(mut buffer) = vec![in alloc; 0; STEP] else {
        return Err(NoMemory);
    };
    match desk.create(name) {
        Ok(()) => copy_made(desk, file, from, to, name, &mut buffer),
        Err(error) => refused(error),
    }
}
