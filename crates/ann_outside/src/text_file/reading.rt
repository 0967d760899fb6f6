ghost use Rattle.std.specs.Prelude.{◌≡◌, ◌<◌, length, vec_len, IfOk, IfSome};
ghost use Rattle.ann_outside.specs.DeskCauses.{HasCauses};
ghost use Rattle.ann_outside.specs.TextFile.Reads.{IsReadBy, IsReadOf, IsStep, IsStepOf, HasReadCauses, refusal_of};

use crate::{Desk, DeskError};
use ann_key::{Bytes, NoMemory};
use std::alloc::Global;

const STEP: usize = 65536;

/// What came of reading a file.
#[derive(Drop)]
pub enum FileRead {
    /// Its bytes.
    Text(Bytes),
    /// It has more bytes than it may.
    TooLarge,
    /// There is no file of that name, and the desk counted it.
    Missing,
    /// A call of the desk failed, and was counted.
    Fault,
}

/// Reads the file to its end, or past the limit.
pub fn read_file<D: Desk>(
    alloc: Global,
    desk: &mut D,
    name: &str,
    limit: usize,
) -> Result<FileRead, NoMemory>
    ensures read { IsReadBy (D.told desk.old).log (D.told desk.new).log name.now limit result }
    ensures told { IfSome (D.told desk.old).files (λ files. IsReadOf name.now limit files result) }
    ensures files { (D.told desk.new).files ≡ (D.told desk.old).files }
    ensures causes { HasReadCauses (D.told desk.old).counts (D.told desk.new).counts result }
{
    let Ok(mut buffer) = step_buffer(alloc) else {
        return Err(NoMemory);
    };
    let mut bytes = Vec::new(alloc);
    while bytes.len() <= limit {
        match read_step(desk, name, &mut bytes, &mut buffer) {
            Ok(true) => {}
            Ok(false) => return Ok(FileRead::Text(Bytes::from_vec(bytes))),
            Err(error) => return refused(error),
        }
    }
    Ok(FileRead::TooLarge)
}

// Room for what one call reads.
fn step_buffer(alloc: Global) -> Result<Vec<u8>, NoMemory>
    ensures { IfOk result (λ buffer. vec_len buffer ≡ 65536) }
{
    Ok(vec![in alloc; 0; STEP]?)
}

fn refused(error: DeskError) -> Result<FileRead, NoMemory>
    ensures { result ≡ refusal_of error }
{
    match error {
        DeskError::Failed => Ok(FileRead::Fault),
        DeskError::Missing => Ok(FileRead::Missing),
        DeskError::NoMemory => Err(NoMemory),
    }
}

// Reads on after the bytes that were read so far, and says whether there was something to read.
fn read_step<D: Desk>(
    desk: &mut D,
    name: &str,
    bytes: &mut Vec<u8>,
    buffer: &mut [u8],
) -> Result<bool, DeskError>
    requires { 0 < length buffer.old }
    ensures step { IsStep (D.told desk.old).log (D.told desk.new).log name.now bytes.old.items bytes.new.items result }
    ensures told { IfSome (D.told desk.old).files (λ files. IsStepOf name.now bytes.old.items bytes.new.items files result) }
    ensures files { (D.told desk.new).files ≡ (D.told desk.old).files }
    ensures causes { HasCauses (D.told desk.old).counts (D.told desk.new).counts result }
{
    let n = desk.read_at(name, bytes.len() as u64, buffer)?;
    if n == 0 {
        return Ok(false);
    }
    match bytes.extend_from_slice(&buffer[..n]) {
        Ok(()) => Ok(true),
        Err(_) => Err(DeskError::NoMemory),
    }
}
