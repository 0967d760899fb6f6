// Who says what a remote is.
ghost use Rattle.std.specs.Prelude.{◌≡◌, option_map, IfOk, IfSome};
ghost use Rattle.annex_model.specs.Messages.{IsAskable};
ghost use Rattle.wire_msg.specs.Shown.{host_shown};
ghost use Rattle.kit_serve.specs.Kit.Descriptions.{Description, aside_lines, untold};

use crate::kit::{Describe, Lines, aside, unsupported};
use ann_key::NoMemory;
use std::alloc::Global;
use wire_msg::HostMsg;

/// Answers what a host asks about a remote, and its lines that spell no message.
pub trait Describer<R> {
    ghost description: { R → Description };

    /// The lines of the answer; None is a line that spells no message.
    fn answer_aside(
        &self,
        alloc: Global,
        remote: &R,
        request: Option<HostMsg<'_>>,
    ) -> Result<Lines, NoMemory>
        requires askable { IfSome request (λ m. IsAskable (host_shown m)) }
        ensures line { IfOk result (λ say. say ≡ aside_lines (description remote.now) (option_map host_shown request.entry)) };
}

/// Each answer is UNSUPPORTED-REQUEST.
#[derive(Drop)]
pub struct Undescribed;

impl<R> Describer<R> for Undescribed {
    ghost description = { λ _. untold };

    #[tactic(auto, using(crate::proofs::KitLemmas::Describing::untold_says))]
    fn answer_aside(
        &self,
        alloc: Global,
        _remote: &R,
        _request: Option<HostMsg<'_>>,
    ) -> Result<Lines, NoMemory> {
        unsupported(alloc)
    }
}

/// The remote says it.
#[derive(Drop)]
pub struct SelfDescribed;

impl<R: Describe> Describer<R> for SelfDescribed {
    ghost description = { R.description };

    fn answer_aside(
        &self,
        alloc: Global,
        remote: &R,
        request: Option<HostMsg<'_>>,
    ) -> Result<Lines, NoMemory> {
        aside(alloc, remote, request)
    }
}
