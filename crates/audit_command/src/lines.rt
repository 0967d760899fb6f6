// The lines of an input, read as the text of a run one by one.
ghost use Rattle.std.specs.Prelude.{ℕ, ◌≡◌, ◌+◌, List, [], ◌∷◌, ◌++◌, Some, None, Err, OnOk, length};
ghost use Rattle.cli_words.specs.TaskInput.InputLines.{with_rest};
ghost use Rattle.journal_reader.specs.Readings.{start};
ghost use Rattle.journal_reader.specs.Runs.{Reads};
ghost use Rattle.audit_command.specs.SoFar.{LinesCome};
ghost use Rattle.audit_command.specs.Steps.{Ends, IsRefusedBehind};
ghost use Rattle.audit_command.specs.declared.error.AuditError.TheVariants.{Entry};

use crate::error::AuditError;
use ann_key::NoMemory;
use journal_look::Journal;
use journal_model::Opening;
use journal_reader::{JournalError, Reader};
use std::alloc::Global;

/// What the lines that have ended tell, the bytes of the line that has not, and the number of the first line that is refused.
/// Once there is one no byte is held.
#[derive(Drop)]
pub(crate) struct Lines {
    pub(crate) reader: Reader,
    pub(crate) held: Vec<u8>,
    pub(crate) bad: Option<u64>,
}

impl Lines {
    ghost use Rattle.audit_command.specs.Standing.{Stands};

    /// No line yet.
    pub(crate) fn new(alloc: Global) -> Lines
        ensures { Stands [] [] result }
    {
        Lines {
            reader: Reader::new(alloc),
            held: Vec::new(alloc),
            bad: None,
        }
    }

    /// The line goes on.
    pub(crate) fn hold(&mut self, byte: u8) -> Result<(), NoMemory>
        ensures { OnOk result ((lines : List (List ℕ)) (rest : List ℕ) → Stands lines rest self.old → Stands lines (rest ++ byte ∷ []) self.new) }
    {
        match self.bad {
            Some(_) => Ok(()),
            None => {
                self.held.push(byte)?;
                Ok(())
            }
        }
    }

    /// The line has ended.
    pub(crate) fn end_line(&mut self) -> Result<(), NoMemory>
        ensures { OnOk result ((lines : List (List ℕ)) (rest : List ℕ) → Stands lines rest self.old → Stands (lines ++ rest ∷ []) [] self.new) }
    {
        match self.bad {
            Some(_) => Ok(()),
            None => self.push_held(),
        }
    }

    fn push_held(&mut self) -> Result<(), NoMemory>
        requires { self.old.bad ≡ None }
        ensures { OnOk result ((lines : List (List ℕ)) (rest : List ℕ) → Stands lines rest self.old → Stands (lines ++ rest ∷ []) [] self.new) }
    {
        match self.reader.push(self.held.as_slice()) {
            Ok(()) => {
                self.held.clear();
                Ok(())
            }
            Err(JournalError::BadLine { line }) => {
                self.bad = Some(line);
                self.held.clear();
                Ok(())
            }
            Err(JournalError::Cut { .. }) => unreachable!(),
            Err(JournalError::NoMemory) => Err(NoMemory),
        }
    }

    /// The input has ended; the last line may lack its end.
    pub(crate) fn end_input(&mut self) -> Result<(), NoMemory>
        ensures { OnOk result ((lines : List (List ℕ)) (rest : List ℕ) → Stands lines rest self.old → Stands (with_rest lines rest) [] self.new) }
    {
        match self.bad {
            Some(_) => Ok(()),
            None => self.end_rest(),
        }
    }

    fn end_rest(&mut self) -> Result<(), NoMemory>
        requires { self.old.bad ≡ None }
        ensures { OnOk result ((lines : List (List ℕ)) (rest : List ℕ) → Stands lines rest self.old → Stands (with_rest lines rest) [] self.new) }
    {
        if self.held.is_empty() {
            Ok(())
        } else {
            self.push_held()
        }
    }

    /// The line of that number is refused, unless one before it was.
    pub(crate) fn refuse(&mut self, number: u64)
        ensures { (lines : List (List ℕ)) (rest : List ℕ) → Stands lines rest self.old → number ≡ length lines + 1 → IsRefusedBehind lines self.new.bad }
    {
        match self.bad {
            Some(_) => {}
            None => self.bad = Some(number),
        }
    }

    /// The opening and the journal of the text that has ended, or the line that was refused.
    pub(crate) fn finish(self) -> Result<(Opening, Journal), AuditError>
        ensures ends { (lines : List (List ℕ)) → Stands lines [] self → Ends lines result }
        ensures bad { (n : ℕ) → self.bad ≡ Some n → result ≡ Err (Entry n) }
    {
        match self.bad {
            Some(line) => Err(AuditError::Entry { line }),
            None => run_of(self.reader),
        }
    }

    /// The opening and the journal so far, if the line `begin` is among the lines, or the line that was refused.
    pub(crate) fn so_far(self) -> Result<Option<(Opening, Journal)>, AuditError>
        ensures comes { (lines : List (List ℕ)) (rest : List ℕ) → Stands lines rest self → LinesCome lines result }
        ensures bad { (n : ℕ) → self.bad ≡ Some n → result ≡ Err (Entry n) }
    {
        match self.bad {
            Some(line) => Err(AuditError::Entry { line }),
            None => run_so_far(self.reader),
        }
    }
}

// The opening and the journal that the reader was told.
fn run_of(reader: Reader) -> Result<(Opening, Journal), AuditError>
    ensures { (lines : List (List ℕ)) → Reads start lines reader → Ends lines result }
{
    match reader.finish() {
        Ok(run) => Ok(run),
        Err(JournalError::BadLine { line }) => Err(AuditError::Entry { line }),
        Err(JournalError::Cut { line }) => Err(AuditError::Cut { line }),
        Err(JournalError::NoMemory) => Err(AuditError::NoMemory),
    }
}

// The opening and the journal that the reader was told so far.
fn run_so_far(reader: Reader) -> Result<Option<(Opening, Journal)>, AuditError>
    ensures { (lines : List (List ℕ)) → Reads start lines reader → LinesCome lines result }
{
    match reader.so_far() {
        Ok(run) => Ok(run),
        Err(JournalError::BadLine { line }) => Err(AuditError::Entry { line }),
        Err(JournalError::Cut { .. }) => unreachable!(),
        Err(JournalError::NoMemory) => Err(AuditError::NoMemory),
    }
}
