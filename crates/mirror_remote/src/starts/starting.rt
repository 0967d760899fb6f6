// Starting all children of a mirror, and stopping them where one isn't ready.
ghost use Rattle.std.specs.Prelude.{◌≡◌, ◌≤◌, [], OnOk, vec_capacity};
ghost use Rattle.ann_outside.specs.Causes.{Stays};
ghost use Rattle.mirror_remote.specs.Starts.Beginnings.{MayStop, StopsBegun};
ghost use Rattle.mirror_remote.specs.Starts.Outcomes.{IsKept, StartsAs, mirror_value, standing_of};

use crate::starts::beginning::{Cause, begin_all};
use crate::starts::stopped::{Stopped, stop_all};
use ann_key::NoMemory;
use ann_outside::{Programs, Sink, Source};
use mirror_children::Child;
use mirror_children::plan::Plan;
use std::alloc::Global;
use std::mem;

/// How starting the children of all plans ended.
pub enum Standing {
    /// Each child is ready.
    Ready,
    /// The child of the setting of this number is the first that isn't ready.
    Unready(u32),
    /// Memory ran out.
    NoMemory,
}

// Makes room for so many children, of whom none was started yet.
fn make_room<I: Sink + Drop, O: Source + Drop, S>(
    alloc: Global,
    count: usize,
    children: &mut Vec<Child<I, O, S>>,
    stopped: &mut Stopped<I, O>,
) -> Result<(), NoMemory>
    requires none { (children.old.items ≡ []) × (stopped.old.logs ≡ []) }
    ensures none { (children.new.items ≡ []) × (stopped.new.logs ≡ []) }
    ensures room { OnOk result ((count ≤ vec_capacity children.new) × (stopped.new.spare ≡ count)) }
{
    children.reserve(count)?;
    *stopped = Stopped::with_room(alloc, count)?;
    Ok(())
}

// Stops the children that were begun, and keeps the core of one that couldn't be started.
fn stop_begun<P: Programs>(
    programs: &mut P,
    children: Vec<Child<P::Inlet, P::Outlet, P::Stub>>,
    stopped: &mut Stopped<P::Inlet, P::Outlet>,
    cause: Cause,
) -> Standing
where
    P::Inlet: Drop,
    P::Outlet: Drop,
    P::Stub: Drop,
    requires may { MayStop children.items stopped.old cause }
    ensures stops { StopsBegun children.items stopped.old stopped.new cause }
    ensures standing { result ≡ standing_of cause }
    ensures starts { Stays (P.told programs.old).starts (P.told programs.new).starts }
    ensures later { (P.told programs.old).faults ≤ (P.told programs.new).faults }
{
    stop_all(programs, children, stopped);
    match cause {
        Cause::Unready(number) => Standing::Unready(number),
        Cause::Unstarted(number, core) => {
            stopped.add_unstarted(core);
            Standing::Unready(number)
        }
        Cause::NoMemory => Standing::NoMemory,
    }
}

/// Starts a child for each plan, in order. Where one isn't ready, or memory runs out, all that were started are stopped.
pub fn start_all<P: Programs>(
    alloc: Global,
    programs: &mut P,
    plans: &[Plan],
    children: &mut Vec<Child<P::Inlet, P::Outlet, P::Stub>>,
    stopped: &mut Stopped<P::Inlet, P::Outlet>,
) -> Standing
where
    P::Inlet: Drop,
    P::Outlet: Drop,
    P::Stub: Drop,
    requires none { (children.old.items ≡ []) × (stopped.old.logs ≡ []) }
    ensures starts { StartsAs plans.now (mirror_value (P.told programs.old) children.old.items stopped.old.logs) (mirror_value (P.told programs.new) children.new.items stopped.new.logs) result }
    ensures kept { IsKept children.new.items stopped.new.spare stopped.new.logs }
{
    let Ok(()) = make_room(alloc, plans.len(), children, stopped) else {
        return Standing::NoMemory;
    };
    match begin_all(alloc, programs, plans, children) {
        Ok(()) => Standing::Ready,
        Err(cause) => {
            let begun = mem::replace(children, Vec::new(alloc));
            stop_begun(programs, begun, stopped, cause)
        }
    }
}
