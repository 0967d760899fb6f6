ghost use Rattle.std.specs.Prelude.{◌≡◌, IfSome};
ghost use Rattle.kept_file.specs.Desk.KeptDesks.{IsReadAs, IsKeptAt, IsKeptOf, HasKeptCauses};

use crate::desk::MOST_BYTES;
use crate::text::{KeepError, read_keep};
use ann_key::NoMemory;
use ann_outside::Desk;
use ann_outside::text_file::{FileRead, read_file};
use registers::Registers;
use std::alloc::Global;
use task_text::chunk_log::NoteBook;

/// What a kept file hands on, or why it hands on nothing.
#[derive(Drop)]
pub enum KeptRead {
    /// What its lines say.
    Kept {
        registers: Registers,
        notes: NoteBook,
    },
    /// The number of the first line that may not stand there.
    BadLine(u64),
    /// It has more bytes than it may.
    TooLarge,
    /// A call of the desk failed, and was counted.
    Fault,
}

/// What the file hands on. One that isn't there hands on what an empty one does.
pub fn read_kept<D: Desk>(alloc: Global, desk: &mut D, name: &str) -> Result<KeptRead, NoMemory>
    ensures read { IsReadAs (D.told desk.old).log (D.told desk.new).log name.now result }
    ensures told { IfSome (D.told desk.old).files (λ files. IsKeptAt name.now files result) }
    ensures files { (D.told desk.new).files ≡ (D.told desk.old).files }
    ensures causes { HasKeptCauses (D.told desk.old).counts (D.told desk.new).counts result }
{
    match read_file(alloc, desk, name, MOST_BYTES)? {
        FileRead::Text(text) => kept_in(alloc, text.view()),
        FileRead::Missing => kept_in(alloc, &[]),
        FileRead::TooLarge => Ok(KeptRead::TooLarge),
        FileRead::Fault => Ok(KeptRead::Fault),
    }
}

fn kept_in(alloc: Global, text: &[u8]) -> Result<KeptRead, NoMemory>
    ensures { IsKeptOf text.now result }
{
    match read_keep(alloc, text) {
        Ok((registers, notes)) => Ok(KeptRead::Kept { registers, notes }),
        Err(KeepError::BadLine { line }) => Ok(KeptRead::BadLine(line)),
        Err(KeepError::NoMemory) => Err(NoMemory),
    }
}
