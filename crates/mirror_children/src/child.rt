// A child with its link, which a mirror asks.
ghost use Rattle.std.specs.Prelude.{◌≡◌, true, IfOk, IsTrue, OnErr};
ghost use Rattle.journal_model.specs.Journal.{is_started};
ghost use Rattle.journal_model.specs.Legality.{Legal};
ghost use Rattle.host_core.specs.Steps.{is_named_well, may_request};
ghost use Rattle.child_link.specs.Alone.{AskedAlone, KeepsLink};
ghost use Rattle.child_life.specs.Start.Cores.{IsSameCore};
ghost use Rattle.host_talk.specs.Request.Requests.{message_of, name_of};
ghost use Rattle.kit_serve.specs.Kit.Calls.{is_line_said};
ghost use Rattle.mirror_children.specs.Children.{IsServing};
ghost use Rattle.mirror_children.specs.Rule.{IsAsBefore, IsAsked, is_mirrored, refusal};

use crate::saying::{mirror_failure, verdict_text};
use ann_key::NoMemory;
use ann_outside::{Sink, Source};
use child_link::{Lone, OwnDoor};
use host_core::Core;
use host_talk::request::Request;
use journal_look::Journal;
use journal_model::Verdict;
use kit_serve::kit::Said;
use std::alloc::Global;
use std::marker::Model;

/// A child that was started: the number of its setting, its core, its link, and by what its program is waited for.
#[derive(Drop)]
pub struct Child<I: Sink, O: Source, S> {
    pub number: u32,
    pub core: Core,
    pub link: Lone<I, O>,
    pub stub: S,
}

impl<I: Sink, O: Source, S> Model for Child<I, O, S> {
    ghost use Rattle.mirror_children.specs.Children.{ChildValue, child_value};

    ghost Value = { ChildValue };

    ghost view = { λ c. child_value c.number c.core c.link.ear c.link.mouth };
}

// Asks one request for no task, through the main thread's own door.
fn ask_over<I: Sink, O: Source>(
    link: &mut Lone<I, O>,
    core: &mut Core,
    request: &Request,
) -> Result<Verdict, NoMemory>
    requires started { is_started core.old.journal link.old.ear.child ≡ true }
    requires legal { Legal core.old.opening core.old.journal }
    requires may { may_request core.old.journal 0 0 link.old.ear.child (message_of request.now) ≡ true }
    requires named { is_named_well (name_of request.now) ≡ true }
    ensures asked { IfOk result (AskedAlone core.old.opening core.old.journal core.new.journal 0 link.old.ear.child 0 (name_of request.now) (message_of request.now)) }
    ensures none { OnErr result (core.new.journal ≡ core.old.journal) }
    ensures link { KeepsLink core.old.journal core.new.journal link.old.ear link.new.ear link.old.mouth link.new.mouth }
    ensures core { IsSameCore core.old core.new }
{
    let mut door = OwnDoor { core };
    let asked = link.ask_alone(&mut door, 0, request);
    let OwnDoor { core: _ } = door;
    asked
}

impl<I: Sink, O: Source, S> Child<I, O, S> {
    /// The journal of what it heard and said. It takes no memory.
    pub fn journal(&self) -> &Journal
        ensures { result.now.entries ≡ self.now.journal }
    {
        self.core.journal()
    }

    /// Puts one request to it, as its next job, and goes on until that is settled.
    pub fn ask(&mut self, request: &Request) -> Result<Verdict, NoMemory>
        requires serving { IsServing self.old }
        requires mirrored { is_mirrored (message_of request.now) ≡ true }
        ensures asked { IfOk result (IsAsked (message_of request.now) self.old self.new) }
        ensures none { OnErr result (IsAsBefore self.old self.new) }
        ensures serving { IsServing self.new }
    {
        ask_over(&mut self.link, &mut self.core, request)
    }

    /// Why it didn't do what it was asked, as the mirror says it.
    pub fn refusal(&self, alloc: Global, verdict: Verdict) -> Result<Said, NoMemory>
        ensures text { IfOk result (λ said. said ≡ refusal self.now verdict) }
        ensures line { IfOk result (λ said. IsTrue (is_line_said said)) }
    {
        mirror_failure(alloc, self.number, verdict_text(self.journal(), verdict))
    }
}
