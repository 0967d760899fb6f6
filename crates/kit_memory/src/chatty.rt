// A kit that says how far a transfer is.
ghost use Rattle.std.specs.Prelude.{◌≡◌, IfOk};
ghost use Rattle.kit_memory.specs.Children.{AreProgress, IsMixed};

use ann_key::{Bytes, NoMemory};
use kit_serve::kit::{Lines, Remote, Step};
use kit_serve::{KitVoice, Undescribed, Voice};
use std::alloc::Global;
use std::marker::Model;
use wire_msg::{HostMsg, RemoteMsg, read_host, write_remote};

/// A kit that says so many PROGRESS lines before the last line of each transfer.
#[derive(Drop)]
pub struct Chatty<R: Remote> {
    alloc: Global,
    kit: KitVoice<R, Undescribed>,
    progress: u32,
}

impl<R: Remote> Model for Chatty<R> {
    ghost use Rattle.kit_memory.specs.Children.{ChattyValue};

    ghost Value = { ChattyValue R };

    ghost view = { λ c. record { kit = c.kit; progress = c.progress } };
}

impl<R: Remote> Chatty<R> {
    pub(super) fn new(alloc: Global, kit: KitVoice<R, Undescribed>, progress: u32) -> Chatty<R>
        ensures { result ≡ record { kit = kit; progress = progress } }
    {
        Chatty {
            alloc,
            kit,
            progress,
        }
    }
}

// The lines `PROGRESS 1` to `PROGRESS lines`.
fn progress_lines(alloc: Global, lines: u32) -> Result<Vec<Bytes>, NoMemory>
    ensures { IfOk result (λ told. AreProgress lines told.items) }
{
    let mut told = Vec::new(alloc);
    for number in 0..lines {
        let line = write_remote(alloc, &RemoteMsg::Progress(u64::from(number) + 1))?;
        told.push(line)?;
    }
    Ok(told)
}

fn copied(alloc: Global, lines: &Lines) -> Result<Vec<Bytes>, NoMemory>
    ensures { IfOk result (λ items. items.items ≡ lines.now) }
{
    let mut items = Vec::new(alloc);
    for line in lines.view() {
        let copy = Bytes::copy(alloc, line.view())?;
        items.push(copy)?;
    }
    Ok(items)
}

// The PROGRESS lines, and then these.
#[tactic(auto, using(crate::proofs::Children::mixed_after))]
fn with_progress(alloc: Global, progress: u32, say: &Lines) -> Result<Lines, NoMemory>
    ensures { IfOk result (λ all. IsMixed progress say.now all) }
{
    let mut all = progress_lines(alloc, progress)?;
    let mut say = copied(alloc, say)?;
    all.append(&mut say)?;
    Ok(Lines::new(all))
}

fn is_transfer(line: &[u8]) -> bool {
    matches!(read_host(line), Some(HostMsg::Transfer(_, _, _)))
}

impl<R: Remote> Voice for Chatty<R> {
    ghost use Rattle.kit_serve.specs.Kit.Stages.{is_last};
    ghost use Rattle.kit_serve.specs.Sessions.{IsFoul};
    ghost use Rattle.kit_memory.specs.Children.{Chats, LacksMore};

    ghost spoke = { Chats R.settings R.calls };

    ghost is_over = { λ chatty. is_last chatty.kit.stage };

    ghost is_foul = { λ chatty line. IsFoul chatty.kit line };

    ghost lacks = { LacksMore R.settings R.calls };

    fn answer(&mut self, line: &[u8]) -> Result<Option<Step>, NoMemory> {
        let Some(step) = self.kit.answer(line)? else {
            return Ok(None);
        };
        if step.over || !is_transfer(line) {
            return Ok(Some(step));
        }
        let say = with_progress(self.alloc, self.progress, &step.say)?;
        Ok(Some(Step { say, over: false }))
    }
}
