ghost use Rattle.std.specs.Prelude.{◌≡◌, ◌≤◌, length};
ghost use Rattle.ann_outside.specs.Files.{WhereTold};
ghost use Rattle.kept_file.specs.Text.KeptFiles.{kept_text};
ghost use Rattle.kept_file.specs.Desk.KeptDesks.{IsWrittenBy, IsWrittenIn, HasWriteCauses, written_as};

use crate::desk::MOST_BYTES;
use crate::text::write_keep;
use ann_key::NoMemory;
use ann_outside::text_file::replace_file;
use ann_outside::{Desk, DeskError};
use registers::Registers;
use std::alloc::Global;
use task_text::chunk_log::NoteBook;

/// What came of writing a kept file.
#[derive(Clone, Copy, Debug, PartialEq, Eq)]
pub enum KeptWritten {
    Done,
    /// It would have more bytes than it may. Nothing was written.
    TooLarge,
    /// A call of the desk failed or missed a file, and that was counted. The file is as before.
    Fault,
}

/// Puts a kept file in the place of the one of that name: the config values of the first registers, all else of the second, and
/// the notes.
pub fn write_kept<D: Desk>(
    alloc: Global,
    desk: &mut D,
    name: &str,
    config: &Registers,
    now: &Registers,
    notes: &NoteBook,
) -> Result<KeptWritten, NoMemory>
    ensures calls { IsWrittenBy (D.told desk.old).log (D.told desk.new).log name.now (kept_text config.now now.now notes.now) result }
    ensures files { WhereTold (D.told desk.old).files (D.told desk.new).files (IsWrittenIn name.now (kept_text config.now now.now notes.now) result) }
    ensures causes { HasWriteCauses (D.told desk.old).files (D.told desk.old).counts (D.told desk.new).counts result }
{
    let Ok(text) = write_keep(alloc, config, now, notes) else {
        return Err(NoMemory);
    };
    put(alloc, desk, name, text.view())
}

// Puts the text in the place of the file, unless it is too large.
fn put<D: Desk>(
    alloc: Global,
    desk: &mut D,
    name: &str,
    text: &[u8],
) -> Result<KeptWritten, NoMemory>
    ensures calls { IsWrittenBy (D.told desk.old).log (D.told desk.new).log name.now text.now result }
    ensures files { WhereTold (D.told desk.old).files (D.told desk.new).files (IsWrittenIn name.now text.now result) }
    ensures causes { HasWriteCauses (D.told desk.old).files (D.told desk.old).counts (D.told desk.new).counts result }
{
    if MOST_BYTES < text.len() {
        return Ok(KeptWritten::TooLarge);
    }
    written_as(replace_file(alloc, desk, name, text))
}

fn written_as(replaced: Result<(), DeskError>) -> Result<KeptWritten, NoMemory>
    ensures { result ≡ written_as replaced }
{
    match replaced {
        Ok(()) => Ok(KeptWritten::Done),
        Err(DeskError::Failed | DeskError::Missing) => Ok(KeptWritten::Fault),
        Err(DeskError::NoMemory) => Err(NoMemory),
    }
}
