// The text of a run in a file.
ghost use Rattle.std.specs.Prelude.{◌≡◌, IfSome};
ghost use Rattle.ann_outside.specs.TextFile.Names.{NamesOnly};
ghost use Rattle.audit_command.specs.Recoveries.{HasTextCauses, TextComes, TextIs};

use crate::error::AuditError;
use crate::intake::Intake;
use crate::limits::Limits;
use ann_key::NoMemory;
use ann_outside::Desk;
use ann_outside::text_file::{FileRead, read_file};
use journal_look::Journal;
use journal_model::Opening;
use std::alloc::Global;

/// What came of reading the text.
#[derive(Drop)]
pub(crate) enum TextRead {
    /// The opening and the journal so far, where it goes to its line `begin` or on.
    SoFar(Option<(Opening, Journal)>),
    /// The line of that number can't follow those before it.
    Refused { line: u64 },
    /// It has more bytes than it may.
    TooLarge,
    /// It isn't there, or couldn't be read.
    Fault,
}

// What the text says so far.
fn text_of(alloc: Global, text: &[u8]) -> Result<TextRead, NoMemory>
    ensures { TextComes text.now result }
{
    let mut intake = Intake::new(alloc);
    intake.take_piece(&Limits::AUDIT, text)?;
    match intake.so_far() {
        Ok(run) => Ok(TextRead::SoFar(run)),
        Err(AuditError::Entry { line }) => Ok(TextRead::Refused { line }),
        Err(AuditError::Cut { .. }) => unreachable!(),
        Err(AuditError::Failed) => unreachable!(),
        Err(AuditError::NoMemory) => Err(NoMemory),
    }
}

/// Reads the file of the text.
pub(crate) fn read_text<D: Desk>(
    alloc: Global,
    desk: &mut D,
    name: &str,
) -> Result<TextRead, NoMemory>
    ensures told { TextIs name.now (D.told desk.old).files result }
    ensures files { (D.told desk.new).files ≡ (D.told desk.old).files }
    ensures causes { HasTextCauses (D.told desk.old).counts (D.told desk.new).counts result }
    ensures calls { NamesOnly (λ other. other ≡ name.now) (D.told desk.old).log (D.told desk.new).log }
{
    match read_file(alloc, desk, name, Limits::AUDIT.bytes as usize)? {
        FileRead::Text(text) => text_of(alloc, text.view()),
        FileRead::TooLarge => Ok(TextRead::TooLarge),
        FileRead::Missing | FileRead::Fault => Ok(TextRead::Fault),
    }
}
