// The lines that are said for a job, and are to be written.
ghost use Rattle.std.specs.Prelude.{◌≡◌, ◌≤◌, ◌+◌, ◌*◌, ◌++◌, IfOk, OnOk, OnErr, length, map};
ghost use Rattle.kit_async_model.specs.declared.entry.Entry.TheVariants.{Say};
ghost use Rattle.kit_async_model.specs.Jobs.{job_line};

use ann_key::{Bytes, NoMemory};
use kit_async_model::due::job_line;
use kit_async_model::{Entries, Entry};
use std::alloc::Global;
use std::collections::VecDeque;

/// The lines as they stand on the wire.
pub(crate) fn all_wired(alloc: Global, number: u64, texts: &[Bytes]) -> Result<Vec<Bytes>, NoMemory>
    ensures { IfOk result (λ lines. lines.items ≡ map (job_line number) texts.now) }
{
    let mut lines = Vec::new(alloc);
    for text in texts {
        let text = Bytes::copy(alloc, text.view())?;
        lines.push(job_line(alloc, number, text)?)?;
    }
    Ok(lines)
}

fn copies(alloc: Global, lines: &[Bytes]) -> Result<Vec<Bytes>, NoMemory>
    ensures { IfOk result (λ copies. copies.items ≡ lines.now) }
{
    let mut copies = Vec::new(alloc);
    for line in lines {
        copies.push(Bytes::copy(alloc, line.view())?)?;
    }
    Ok(copies)
}

/// How many entries it takes that so many lines are said and written, and so many more.
pub(crate) fn room_for(lines: usize, more: usize) -> Result<usize, NoMemory>
    ensures { IfOk result (λ room. room ≡ 2 * lines + more) }
{
    let Some(twice) = lines.checked_mul(2) else {
        return Err(NoMemory);
    };
    let Some(room) = twice.checked_add(more) else {
        return Err(NoMemory);
    };
    Ok(room)
}

/// The lines are to be written, and there is room for so many entries more.
pub(crate) fn begin_lines(
    alloc: Global,
    journal: &mut Entries,
    unwritten: &mut VecDeque<Bytes>,
    said: &[Bytes],
    room: usize,
) -> Result<(), NoMemory>
    ensures kept { journal.new.kept ≡ journal.old.kept }
    ensures entries { journal.new.entries ≡ journal.old.entries }
    ensures unwritten { OnOk result (unwritten.new.items ≡ unwritten.old.items ++ said.now) }
    ensures room { OnOk result (journal.new.room ≡ journal.old.room + room) }
    ensures err { OnErr result ((journal.new.room ≡ journal.old.room) × (unwritten.new.items ≡ unwritten.old.items)) }
{
    let mut copies = VecDeque::from_vec(copies(alloc, said)?);
    unwritten.reserve(copies.len())?;
    journal.take_room(room)?;
    let Ok(()) = unwritten.append(&mut copies) else {
        unreachable!()
    };
    Ok(())
}

/// These lines are said for that job. There is room for them.
pub(crate) fn say_all(journal: &mut Entries, number: u64, said: Vec<Bytes>)
    requires { length said.items ≤ journal.old.room }
    ensures kept { journal.new.kept ≡ journal.old.kept }
    ensures entries { journal.new.entries ≡ journal.old.entries ++ map (λ line. Say number line) said.items }
    ensures room { journal.new.room + length said.items ≡ journal.old.room }
{
    for line in said {
        journal.push(Entry::Say { job: number, line });
    }
}
