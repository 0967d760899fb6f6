// The opening and the journal of a whole text.
ghost use Rattle.std.specs.Prelude.{◌≡◌, ◌∷◌, IfOk, IsTrue};
ghost use Rattle.std.specs.List.{list_all};
ghost use Rattle.annex_model.specs.Lines.{text as text_of};
ghost use Rattle.registers.specs.Registers.{nothing_set};
ghost use Rattle.registers.specs.RegLines.{set_by_lines};
ghost use Rattle.kept_file.specs.Text.KeptFiles.{head, settings_in, notes_in, CountsAs};
ghost use Rattle.journal_reader.specs.RunTexts.{is_kept};

use crate::error::JournalError;
use crate::place::Place;
use crate::reader::Reader;
use ann_key::{Bytes, NoMemory};
use journal_look::Journal;
use journal_model::{Identity, Opening};
use kept_file::text::{KeepError, read_keep};
use registers::Registers;
use std::alloc::Global;
use task_text::Tasks;
use task_text::chunk_log::NoteBook;

impl Reader {
    ghost use Rattle.std.specs.Prelude.{OnOk, IfErr, IfSome, is_some};
    ghost use Rattle.task_text.specs.ChunkLog.NoteBooks.{in_order};
    ghost use Rattle.journal_reader.specs.Readings.{IsEndAs, IsRefusalAs, is_begun};
    ghost use Rattle.journal_reader.specs.Runs.{IsOpeningOf};

    /// The opening and the journal that the lines tell, where the last one was the end.
    pub fn finish(self) -> Result<(Opening, Journal), JournalError>
        ensures whole { OnOk result (self.place ≡ Place.Over) }
        ensures opening { IfOk result (λ run. IsOpeningOf run.0 self.told) }
        ensures order { IfOk result (λ run. IsTrue (in_order run.0.notes)) }
        ensures journal { IfOk result (λ run. run.1.entries ≡ self.told.entries) }
        ensures fault { IfErr result (λ error. IsEndAs self.place self.taken error) }
    {
        match self.place {
            Place::Over => {
                let run = self.into_run()?;
                Ok(run)
            }
            Place::Refused { line } => Err(JournalError::BadLine { line }),
            _ => Err(JournalError::Cut { line: self.taken }),
        }
    }

    /// The opening and the journal that the lines tell so far, where they go to the line `begin` or on.
    pub fn so_far(self) -> Result<Option<(Opening, Journal)>, JournalError>
        ensures begun { IfOk result (λ run. is_some run ≡ is_begun self.place) }
        ensures opening { IfOk result (λ run. IfSome run (λ r. IsOpeningOf r.0 self.told)) }
        ensures order { IfOk result (λ run. IfSome run (λ r. IsTrue (in_order r.0.notes))) }
        ensures journal { IfOk result (λ run. IfSome run (λ r. r.1.entries ≡ self.told.entries)) }
        ensures fault { IfErr result (λ error. IsRefusalAs self.place error) }
    {
        match self.place {
            Place::Entries | Place::Over => {
                let run = self.into_run()?;
                Ok(Some(run))
            }
            Place::Refused { line } => Err(JournalError::BadLine { line }),
            _ => Ok(None),
        }
    }

    fn into_run(self) -> Result<(Opening, Journal), NoMemory>
        ensures opening { IfOk result (λ run. IsOpeningOf run.0 self.told) }
        ensures order { IfOk result (λ run. IsTrue (in_order run.0.notes)) }
        ensures journal { IfOk result (λ run. run.1.entries ≡ self.told.entries) }
    {
        let (registers, notes) = kept_of(self.alloc, self.kept.as_slice())?;
        let _in_order = notes.line(0);
        let opening = Opening {
            tasks: Tasks::new(self.tasks),
            registers,
            notes,
            identity: Identity {
                uuid: self.uuid,
                name: self.name,
                gitdir: self.gitdir,
            },
            stamp: self.stamp,
            again: self.again,
        };
        Ok((opening, self.journal))
    }
}

// What the kept lines say.
fn kept_of(alloc: Global, kept: &[Bytes]) -> Result<(Registers, NoteBook), NoMemory>
    requires { IsTrue (list_all is_kept kept.now) }
    ensures registers { IfOk result (λ said. said.0 ≡ set_by_lines nothing_set (settings_in kept.now)) }
    ensures notes { IfOk result (λ said. CountsAs said.1 (notes_in kept.now)) }
{
    let text = file_of(alloc, kept)?;
    match read_keep(alloc, text.as_slice()) {
        Ok(said) => Ok(said),
        Err(KeepError::NoMemory) => Err(NoMemory),
        Err(KeepError::BadLine { .. }) => unreachable!(),
    }
}

// The lines as a kept file.
fn file_of(alloc: Global, kept: &[Bytes]) -> Result<Vec<u8>, NoMemory>
    ensures { IfOk result (λ text. text.items ≡ text_of (head ∷ kept.now)) }
{
    let mut text = Vec::from_slice(alloc, b"annex-keep 1\n")?;
    for line in kept {
        text.extend_from_slice(line.view())?;
        text.push(b'\n')?;
    }
    Ok(text)
}
