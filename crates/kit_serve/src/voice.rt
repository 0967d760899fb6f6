// What answers the lines of a host.
ghost use Rattle.std.specs.Prelude.{◌≡◌, ◌&&◌, ℕ, List, Bool, [], option_map, true, false, IfOk, OnErr};
ghost use Rattle.annex_model.specs.Lines.{has_newline};
ghost use Rattle.annex_model.specs.Messages.{host_reading};
ghost use Rattle.wire_msg.specs.Shown.{host_shown};
ghost use Rattle.kit_serve.specs.Kit.Described.{is_about};
ghost use Rattle.kit_serve.specs.Kit.Stages.{Follows, is_free, is_last};
ghost use Rattle.kit_serve.specs.Sessions.{IsFoul, Lacks, SaysAside, Spoke};
ghost use Rattle.kit_serve.specs.Voices.{Replies};

use crate::describer::Describer;
use crate::kit::{Kit, Remote, Step};
use ann_key::NoMemory;
use std::alloc::Global;
use std::marker::Model;
use wire_msg::{HostMsg, read_host};

/// What answers the lines of a host, one after the other.
pub trait Voice {
    // from the first to the second the voice heard these lines, and said those to them
    ghost spoke: { Self → Self → List (List ℕ) → List (List ℕ) → Type 0 };

    // it hears nothing more
    ghost is_over: { Self → Bool };

    // it can say nothing to this line
    ghost is_foul: { Self → List ℕ → Type 0 };

    // what is left of it where it found no memory for the line
    ghost lacks: { Self → Self → List ℕ → Type 0 };

    /// What is said to the line; None where nothing can be, which ends the talk.
    fn answer(&mut self, line: &[u8]) -> Result<Option<Step>, NoMemory>
        requires live { is_over self.old ≡ false }
        requires line { has_newline line.now ≡ false }
        ensures replies { IfOk result (Replies spoke is_over is_foul self.old self.new line.now) }
        ensures lacks { OnErr result (lacks self.old self.new line.now) };
}

/// A kit, and who answers aside what doesn't go to it: requests about the remote, and lines that spell no message, unless a
/// value is awaited.
///
/// Contracts see of it the kit.
#[derive(Drop)]
pub struct KitVoice<R: Remote, D> {
    alloc: Global,
    kit: Kit<R>,
    describer: D,
}

impl<R: Remote, D> Model for KitVoice<R, D> {
    ghost use Rattle.kit_serve.specs.Kit.Stages.{KitValue};

    ghost Value = { KitValue R };

    ghost view = { λ v. v.kit };
}

impl<R: Remote, D: Describer<R> + Drop> KitVoice<R, D> {
    /// A kit that has heard nothing. It takes no memory.
    pub fn new(alloc: Global, remote: R, describer: D) -> KitVoice<R, D>
        ensures remote { result.remote ≡ remote }
        ensures follows { (settings : List (List ℕ)) → Follows settings result [] }
    {
        KitVoice {
            alloc,
            kit: Kit::new(alloc, remote),
            describer,
        }
    }

    // Whether the message is kept from the kit.
    fn goes_aside(&self, message: Option<HostMsg<'_>>) -> bool
        ensures { result ≡ (is_free self.now.stage && is_about (option_map host_shown message.entry)) }
    {
        self.kit.is_free() && is_about(message)
    }

    /// The remote. It takes no memory.
    pub fn close(self) -> R
        ensures { result ≡ self.remote }
    {
        let KitVoice {
            alloc: _,
            kit,
            describer: _,
        } = self;
        kit.close()
    }
}

// Whether the message is a request about the remote, or the line spells none.
fn is_about(message: Option<HostMsg<'_>>) -> bool
    ensures { result ≡ is_about (option_map host_shown message.entry) }
{
    match message {
        None => true,
        Some(message) => matches!(
            message,
            HostMsg::Listconfigs
                | HostMsg::Getcost
                | HostMsg::Getavailability
                | HostMsg::Getinfo
                | HostMsg::Whereis(_)
        ),
    }
}

impl<R: Remote, D: Describer<R> + Drop> Voice for KitVoice<R, D> {
    ghost spoke = { Spoke R.settings R.calls D.description };

    ghost is_over = { λ kit. is_last kit.stage };

    ghost is_foul = { IsFoul };

    ghost lacks = { Lacks R.settings R.calls };

    fn answer(&mut self, line: &[u8]) -> Result<Option<Step>, NoMemory>
        requires live { is_last self.old.stage ≡ false }
        requires line { has_newline line.now ≡ false }
        ensures replies { IfOk result (Replies (Spoke R.settings R.calls D.description) (λ kit. is_last kit.stage) IsFoul self.old self.new line.now) }
        ensures lacks { OnErr result (Lacks R.settings R.calls self.old self.new line.now) }
        ensures aside { IfOk result (SaysAside D.description self.old line.now) }
    {
        let message = read_host(line);
        if self.goes_aside(message) {
            let say = self
                .describer
                .answer_aside(self.alloc, self.kit.remote(), message)?;
            return Ok(Some(Step { say, over: false }));
        }
        match message {
            None => Ok(None),
            Some(message) => {
                let step = self.kit.step(&message)?;
                Ok(Some(step))
            }
        }
    }
}
