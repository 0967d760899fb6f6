ghost use Rattle.ann_outside.specs.TextFile.Names.{NamesOnly};
ghost use Rattle.std.specs.Prelude.{◌≡◌, ◌≤◌, Ok, IfOk, IsTrue};
ghost use Rattle.std.specs.List.{list_all};
ghost use Rattle.ann_outside.specs.Causes.{Rose};
ghost use Rattle.cli_words.specs.Settings.{is_setting};
ghost use Rattle.info_and_init.specs.Init.Setups.{Begins, init_opening};

use ann_key::NoMemory;
use ann_outside::Desk;
use cli_words::InitWords;
use journal_model::Opening;
use kept_file::desk::{KeptRead, read_kept};
use registers::Registers;
use std::alloc::Global;
use task_text::Tasks;
use task_text::chunk_log::NoteBook;

/// What a setup begins with, or why it doesn't begin.
#[derive(Drop)]
pub enum Begun {
    /// What the kept file hands on, with the settings of the words over it.
    Ready(Opening),
    /// The number of the first line of the kept file that may not stand there.
    BadLine(u64),
    /// The kept file has more bytes than it may.
    TooLarge,
    /// The kept file couldn't be read.
    Fault,
}

// No task and no stamp, the identity and the settings of the words, and what was kept.
fn init_opening(
    alloc: Global,
    words: &InitWords,
    registers: Registers,
    notes: NoteBook,
) -> Result<Opening, NoMemory>
    requires { IsTrue (list_all is_setting words.now.settings) }
    ensures { IfOk result (λ o. o ≡ init_opening words.now registers notes) }
{
    Ok(Opening {
        tasks: Tasks::new(Vec::new(alloc)),
        registers: words.settings.set_in(registers)?,
        notes,
        identity: words.identity(alloc)?,
        stamp: 0,
        again: 0,
    })
}

/// Reads the kept file that the words name, and puts together what the setup begins with. A file that isn't there hands on nothing.
pub fn begin<D: Desk>(alloc: Global, words: &InitWords, desk: &mut D) -> Result<Begun, NoMemory>
    requires { IsTrue (list_all is_setting words.now.settings) }
    ensures begins { Begins words.now (D.told desk.old).files result }
    ensures files { (D.told desk.new).files ≡ (D.told desk.old).files }
    ensures fault { result ≡ Ok Begun.Fault → Rose (D.told desk.old).counts.faults (D.told desk.new).counts.faults }
    ensures later { (D.told desk.old).counts.faults ≤ (D.told desk.new).counts.faults }
    ensures calls { NamesOnly (λ other. other ≡ words.now.keep) (D.told desk.old).log (D.told desk.new).log }
{
    match read_kept(alloc, desk, words.keep.view())? {
        KeptRead::Kept { registers, notes } => {
            let opening = init_opening(alloc, words, registers, notes)?;
            Ok(Begun::Ready(opening))
        }
        KeptRead::BadLine(line) => Ok(Begun::BadLine(line)),
        KeptRead::TooLarge => Ok(Begun::TooLarge),
        KeptRead::Fault => Ok(Begun::Fault),
    }
}
