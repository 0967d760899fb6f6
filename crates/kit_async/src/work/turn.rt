// One turn of a role: the same whether it has a thread of its own or not.
ghost use Rattle.std.specs.Prelude.{◌≡◌, true, Some, IfSome, IfNone, IsSome};
ghost use Rattle.kit_async_model.specs.declared.event.Event.TheVariants.{Break};
ghost use Rattle.kit_async_model.specs.declared.event.Reply.{Reply};
ghost use Rattle.kit_async_model.specs.Events.{takes_no_memory};
ghost use Rattle.kit_async.specs.Work.Passes.{Stands, Enters, both_turns, has_gone, why_of};
ghost use Rattle.kit_async.specs.declared.work.turn.Turn.TheVariants.{Over};

use crate::work::why::Why;
use kit_async_core::KitCore;
use kit_async_model::{Event, Reply};
use std::sync::Wait;
use threads::{Hall, Pass};

/// What came of a turn.
#[derive(Clone, Copy)]
pub enum Turn {
    /// Something was done, and more may be.
    Went,
    /// There is nothing to do now.
    Rests,
    /// There is nothing to do any more; for this reason, where the role itself has one.
    Over(Option<Why>),
}

impl Turn {
    /// Why the role ended by itself, if it did.
    pub fn why(self) -> Option<Why>
        ensures { result ≡ why_of self }
    {
        match self {
            Turn::Over(why) => why,
            Turn::Went | Turn::Rests => None,
        }
    }

    /// Whether something was done, and more may be.
    pub fn went(self) -> bool
        ensures { result ≡ has_gone self }
    {
        matches!(self, Turn::Went)
    }

    /// What came of both turns: something was done where one did something, and there is nothing to do now where both say so.
    pub fn and(self, other: Turn) -> Turn
        ensures { result ≡ both_turns self other }
    {
        match self {
            Turn::Went => Turn::Went,
            Turn::Rests => other,
            Turn::Over(why) => match other {
                Turn::Went => Turn::Went,
                Turn::Rests | Turn::Over(_) => Turn::Over(why),
            },
        }
    }
}

/// What the core answers, where it answers; None where no memory was found.
pub(crate) fn enter<R: Wait>(
    rt: &R,
    hall: &Hall<KitCore>,
    pass: &mut Pass<KitCore>,
    event: Event,
) -> Option<Reply>
    requires { Stands hall.now pass.old.number pass.old }
    ensures stands { Stands hall.now pass.old.number pass.new }
    ensures some { IfSome result (Enters hall.now pass.old pass.new event) }
    ensures none { IfNone result (pass.new ≡ pass.old) }
    ensures free { takes_no_memory event ≡ true → IsSome result }
{
    hall.enter(rt, pass, event).ok()
}

/// The role ends for this reason, and the kit is broken off.
pub(crate) fn stop_for<R: Wait>(
    rt: &R,
    hall: &Hall<KitCore>,
    pass: &mut Pass<KitCore>,
    why: Why,
) -> Turn
    requires { Stands hall.now pass.old.number pass.old }
    ensures stands { Stands hall.now pass.old.number pass.new }
    ensures broken { (reply : Reply) × Enters hall.now pass.old pass.new Break reply }
    ensures over { result ≡ Over (Some why) }
{
    let _ = enter(rt, hall, pass, Event::Break);
    Turn::Over(Some(why))
}
