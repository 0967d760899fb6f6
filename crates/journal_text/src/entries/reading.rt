// Reading an entry.
ghost use Rattle.std.specs.Prelude.{◌≡◌, IfOk, IfSome, Some};
ghost use Rattle.journal_model.specs.declared.entry.Entry.{Entry};
ghost use Rattle.journal_text.specs.Entries.Entries.{entry_line, IsEntry};

use crate::entries::lines::entry_at;
use crate::entries::printing::print_entry;
use ann_key::NoMemory;
use journal_model::Entry;
use std::alloc::Global;

/// The entry whose line this is; None where it is no entry's. A line that says an entry in another way than it is
/// written, as with a leading zero, is none.
pub fn read_entry(alloc: Global, line: &[u8]) -> Result<Option<Entry>, NoMemory>
    ensures written { IfOk result (λ found. IfSome found (λ entry. entry_line entry ≡ line.now)) }
    ensures found { IfOk result (λ found. (entry : Entry) → IsEntry entry → line.now ≡ entry_line entry → found ≡ Some entry) }
{
    let Some(entry) = entry_at(alloc, line)? else {
        return Ok(None);
    };
    let written = print_entry(alloc, &entry)?;
    if written.view() == line {
        Ok(Some(entry))
    } else {
        Ok(None)
    }
}
