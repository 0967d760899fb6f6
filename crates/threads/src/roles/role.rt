// A role of a round, and what its thread promises of it.
ghost use Rattle.threads.specs.Roles.Back.{CameBack};

use super::back::Back;
use super::gate::Gate;
use std::snapshot::Snapshot;
use std::sync::Wait;
use std::thread::Promise;

/// What is run in a thread of a round. It owns what it changes, and comes back by value.
pub trait Role {
    // where a run may begin
    ghost can_run: { Self → Type 0 };

    // what a run may leave of what it began with
    ghost ran: { Self → Self → Type 0 };

    fn run(self) -> Self
        requires { can_run self }
        ensures { ran self result };
}

/// The promise of a role's thread: it gives back this role as a run left it, or as it was.
#[derive(Drop)]
pub struct RanFrom<E>(pub Snapshot<E>);

impl<E: Role> Promise<Back<E>> for RanFrom<E> {
    ghost kept_by = { λ p r. CameBack E.ran p.0.value r };
}

/// Waits at the gate, and runs the role if the round begins.
pub(crate) fn run_behind<E: Role, R: Wait>(rt: &R, gate: &Gate, at: usize, role: E) -> Back<E>
    requires { E.can_run role }
    ensures { CameBack E.ran role result }
{
    if gate.pass(rt, at) {
        Back::Ran(role.run())
    } else {
        Back::Stayed(role)
    }
}
