// What a remote is answered that asks its host for something, and what it sets.
ghost use Rattle.std.specs.Prelude.{◌≡◌, ◌++◌, ◌∷◌, [], map, not, true, IfOk, OnOk, OnErr, IsOk, IsTrue};
ghost use Rattle.std.specs.List.{cons_option};
ghost use Rattle.annex_model.specs.Lines.{has_newline};
ghost use Rattle.annex_model.specs.Messages.{remote_reading};
ghost use Rattle.wire_msg.specs.Shown.{remote_shown};
ghost use Rattle.journal_model.specs.Journal.{on_wire, addressed};
ghost use Rattle.journal_model.specs.Replies.{set_by_all};
ghost use Rattle.journal_model.specs.Registers.{if_setting};
ghost use Rattle.host_core.specs.Moves.{AreRepliesDue, first_room};
ghost use Rattle.host_core.specs.Settings.{IsServed, IsLine, is_reply, set_in};

use crate::due::Due;
use crate::runs::Run;
use ann_key::{Bytes, NoMemory};
use host_talk::asks::replies_to;
use journal_look::{Journal, addressed, on_wire};
use journal_model::{Opening, What};
use registers::Registers;
use std::alloc::Global;
use task_text::chunk_log::NoteBook;
use wire_msg::{RemoteMsg, read_remote};

/// What stands so far: what the run began with, the journal, and after it the registers, the notes, and what is kept of each task;
/// and the first free task, where one is to be claimed.
#[derive(Clone, Copy)]
pub struct Past<'a> {
    pub opening: &'a Opening,
    pub journal: &'a Journal,
    pub registers: &'a Registers,
    pub notes: &'a NoteBook,
    pub runs: &'a [Run],
    pub free: Option<u32>,
}

/// One more line as it stands on the wire in that job.
fn push_wired(
    alloc: Global,
    journal: &Journal,
    child: u32,
    job: u64,
    line: &[u8],
    wired: &mut Vec<Bytes>,
) -> Result<(), NoMemory>
    ensures { OnOk result (wired.new.items ≡ wired.old.items ++ on_wire journal.now.entries child job line.now ∷ []) }
{
    let line = Bytes::copy(alloc, line)?;
    wired.push(on_wire(alloc, journal, child, job, line)?)?;
    Ok(())
}

/// The lines as they stand on the wire in that job.
fn wired(
    alloc: Global,
    journal: &Journal,
    child: u32,
    job: u64,
    lines: &[Bytes],
) -> Result<Vec<Bytes>, NoMemory>
    ensures { IfOk result (λ v. v.items ≡ map (on_wire journal.now.entries child job) lines.now) }
{
    let mut wired = Vec::new(alloc);
    for line in lines {
        push_wired(alloc, journal, child, job, line.view(), &mut wired)?;
    }
    Ok(wired)
}

/// The replies that the message is owed in the open job.
pub(super) fn replies(
    alloc: Global,
    past: Past<'_>,
    child: u32,
    job: u64,
    message: &RemoteMsg<'_>,
) -> Result<Due, NoMemory>
    requires { IsServed past.opening.now past.journal.now.entries past.registers.now }
    ensures due { IfOk result (AreRepliesDue past.entry.opening.now past.entry.journal.now.entries child job (remote_shown message.now)) }
    ensures reply { IfOk result (λ due. is_reply due ≡ true) }
{
    let replies = replies_to(alloc, past.registers, &past.opening.identity, message)?;
    let lines = wired(alloc, past.journal, child, job, replies.view())?;
    Ok(Due::Replies { child, job, lines })
}

/// Sets what the text sets.
fn set_by_text(registers: &mut Registers, text: &[u8]) -> Result<(), NoMemory>
    requires { IsTrue (not (has_newline text.now)) }
    ensures set { OnOk result (registers.new ≡ set_by_all registers.old (cons_option (if_setting (remote_reading text.now)) [])) }
    ensures err { OnErr result (registers.new ≡ registers.old) }
{
    match read_remote(text) {
        Some(message) => host_talk::asks::set(registers, &message),
        None => Ok(()),
    }
}

fn set_by_line(
    registers: &mut Registers,
    journal: &Journal,
    child: u32,
    line: &[u8],
) -> Result<(), NoMemory>
    requires { IsTrue (not (has_newline line.now)) }
    ensures set { OnOk result (registers.new ≡ set_by_all registers.old (cons_option (if_setting (remote_reading (addressed journal.now.entries child line.now).1)) [])) }
    ensures err { OnErr result (registers.new ≡ registers.old) }
{
    let (_, text) = addressed(journal, child, line);
    set_by_text(registers, text)
}

/// Sets what the first entry of a group sets, where replies are due after it. Where memory runs out the registers are as before.
pub(super) fn set_by_group(
    registers: &mut Registers,
    journal: &Journal,
    what: &Option<What>,
    due: &Due,
) -> Result<(), NoMemory>
    requires { IsLine what.now }
    ensures set { OnOk result (registers.new ≡ set_by_all registers.old (cons_option (set_in journal.now.entries what.now due.now) [])) }
    ensures err { OnErr result (registers.new ≡ registers.old) }
    ensures free { first_room what.now ≡ 0 → IsOk result }
{
    match due {
        Due::Replies { .. } => match what {
            Some(What::Got { child, line }) => set_by_line(registers, journal, *child, line.view()),
            _ => Ok(()),
        },
        _ => Ok(()),
    }
}
