// Taking the lines of entries, and the end.
ghost use Rattle.std.specs.Prelude.{◌≡◌, IfOk, MatchOption, bytes_eq, length};
ghost use Rattle.journal_text.specs.Lines.JournalTexts.{end_line};
ghost use Rattle.journal_reader.specs.RunTexts.{HasEntry, HasNoEntry, may_stand};

use crate::place::Place;
use crate::reader::Reader;
use crate::typed::is_entry;
use ann_key::NoMemory;
use journal_model::{Entry, What};
use journal_text::entries::read_entry;
use std::alloc::Global;

impl Reader {
    ghost use Rattle.journal_reader.specs.Readings.{Took};

    pub(crate) fn take_entry_or_end(&mut self, line: &[u8]) -> Result<bool, NoMemory>
        requires { self.old.place ≡ Place.Entries }
        ensures { Took self.old line.now self.new result }
    {
        if is_end(self.alloc, line, self.journal.len())? {
            self.place = Place::Over;
            return Ok(true);
        }
        self.take_entry(line)
    }

    fn take_entry(&mut self, line: &[u8]) -> Result<bool, NoMemory>
        requires place { self.old.place ≡ Place.Entries }
        requires more { line.now ≡ end_line (length self.old.told.entries) → ⊥ }
        ensures { Took self.old line.now self.new result }
    {
        match entry_of(self.alloc, line, self.early)? {
            Some(entry) => {
                self.journal.append(entry)?;
                Ok(true)
            }
            None => Ok(false),
        }
    }
}

// Whether the line is the last one after so many entries.
fn is_end(alloc: Global, line: &[u8], count: u64) -> Result<bool, NoMemory>
    ensures { IfOk result (λ b. b ≡ bytes_eq (end_line count) line.now) }
{
    let end = format!(in alloc; "end {count}")?;
    Ok(end.as_bytes() == line)
}

// The entry whose line this is, if it may stand in the text.
fn entry_of(alloc: Global, line: &[u8], early: bool) -> Result<Option<Entry>, NoMemory>
    ensures { IfOk result (λ found. MatchOption found (HasNoEntry early line.now) (HasEntry early line.now)) }
{
    match read_entry(alloc, line)? {
        Some(entry) if is_entry(&entry) && may_stand(early, &entry.what) => Ok(Some(entry)),
        _ => Ok(None),
    }
}

fn may_stand(early: bool, what: &What) -> bool
    ensures { result ≡ may_stand early what.now }
{
    let again = match what {
        What::Again { .. } => true,
        _ => false,
    };
    !(early && again)
}
