// Starting the children of a mirror, one for each plan.
ghost use Rattle.std.specs.Prelude.{◌≡◌, ◌≤◌, ◌<◌, ◌+◌, [], length, vec_capacity, vec_len};
ghost use Rattle.mirror_remote.specs.Starts.Beginnings.{BeginsAs, BeginsAllAs, StoodAs};

use crate::starts::opening::new_core;
use ann_outside::{Programs, Sink, Source};
use child_life::start::{Came, Greeting, Mode, greet};
use host_core::Core;
use journal_model::Why;
use mirror_children::Child;
use mirror_children::plan::Plan;
use std::alloc::Global;

/// Why the child of a plan isn't ready.
pub(crate) enum Cause {
    /// The child of the setting of this number was started, and isn't ready.
    Unready(u32),
    /// The program of the setting of this number couldn't be started, as its core notes.
    Unstarted(u32, Core),
    /// Memory ran out.
    NoMemory,
}

// What starting ends with, by what the child of that number came to.
fn stood(came: Came, number: u32) -> Result<(), Cause>
    ensures { StoodAs came number result }
{
    match came {
        Came::Ready { .. } => Ok(()),
        Came::Ended { why: Why::Memory } => Err(Cause::NoMemory),
        _ => Err(Cause::Unready(number)),
    }
}

// Starts the plan's program, and greets its child, which comes after the others.
fn begin<P: Programs>(
    alloc: Global,
    programs: &mut P,
    plan: &Plan,
    children: &mut Vec<Child<P::Inlet, P::Outlet, P::Stub>>,
) -> Result<(), Cause>
where
    P::Inlet: Drop,
    P::Outlet: Drop,
    requires room { vec_len children.old < vec_capacity children.old }
    ensures begins { BeginsAs plan.now (P.told programs.old) (P.told programs.new) children.old.items children.new.items result }
    ensures later { (P.told programs.old).faults ≤ (P.told programs.new).faults }
    ensures capacity { vec_capacity children.new ≡ vec_capacity children.old }
{
    let number = plan.number;
    let Ok(mut core) = new_core(alloc, &plan.registers) else {
        return Err(Cause::NoMemory);
    };
    let program = plan.program.view();
    match greet(alloc, programs, program, &mut core, 0, false, Mode::Serve) {
        Greeting::Child { link, stub, came } => {
            children.push_reserved(Child {
                number,
                core,
                link,
                stub,
            });
            stood(came, number)
        }
        Greeting::StartFault => Err(Cause::Unstarted(number, core)),
        Greeting::NoMemory => Err(Cause::NoMemory),
    }
}

/// Starts a child for each plan, in order, until one isn't ready. Those that were started are in the list, but for one whose program
/// couldn't be.
pub(crate) fn begin_all<P: Programs>(
    alloc: Global,
    programs: &mut P,
    plans: &[Plan],
    children: &mut Vec<Child<P::Inlet, P::Outlet, P::Stub>>,
) -> Result<(), Cause>
where
    P::Inlet: Drop,
    P::Outlet: Drop,
    requires none { children.old.items ≡ [] }
    requires room { vec_len children.old + length plans.now ≤ vec_capacity children.old }
    ensures begins { BeginsAllAs plans.now (P.told programs.old) (P.told programs.new) children.new.items result }
    ensures later { (P.told programs.old).faults ≤ (P.told programs.new).faults }
{
    for plan in plans {
        begin(alloc, programs, plan, children)?;
    }
    Ok(())
}
