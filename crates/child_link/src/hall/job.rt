// Asking over a child that other threads read and write.
ghost use Rattle.std.specs.Prelude.{◌≡◌, ◌<◌, ◌^◌, true, Some, IfSome, IfOk, OnErr};
ghost use Rattle.journal_model.specs.Journal.{verdict_of};
ghost use Rattle.journal_model.specs.Legality.{Legal};
ghost use Rattle.journal_model.specs.Projection.{IsNamed};
ghost use Rattle.host_core.specs.Steps.{is_asked};
ghost use Rattle.host_talk.specs.Request.Requests.{message_of};
ghost use Rattle.child_link.specs.Doors.{IsSameDoor, Passed};
ghost use Rattle.journal_model.specs.Shares.{by_asking};
ghost use Rattle.child_link.specs.Asks.{Grows, never};
ghost use Rattle.child_link.specs.Hall.Jobs.{HasAskedJob};

use crate::Door;
use crate::events::{self, Asked};
use ann_key::NoMemory;
use host_talk::request::Request;
use journal_model::Verdict;
use std::alloc::Global;
use std::sync::Wait;

// How the job was settled; where it isn't, a rest.
fn look_or_rest<D: Door>(door: &mut D, child: u32, job: u64) -> Option<Verdict>
    requires asked { is_asked (D.view door.old).seen child job ≡ true }
    ensures verdict { IfSome result (λ v. verdict_of (D.view door.new).seen child job ≡ Some v) }
    ensures grows { Grows (D.view door.old).number (D.view door.old).alone never (D.view door.old).seen (D.view door.new).seen }
    ensures door { IsSameDoor (D.view door.old) (D.view door.new) }
{
    let settled = events::verdict(door, child, job);
    if settled.is_none() {
        door.rest();
    }
    settled
}

// Waits until the job is settled.
fn wait_for<D: Door, R: Wait>(rt: &R, door: &mut D, child: u32, job: u64) -> Verdict
    requires asked { is_asked (D.view door.old).seen child job ≡ true }
    ensures small { job < 2 ^ 64 }
    ensures verdict { verdict_of (D.view door.new).seen child job ≡ Some result }
    ensures grows { Grows (D.view door.old).number (D.view door.old).alone never (D.view door.old).seen (D.view door.new).seen }
    ensures door { IsSameDoor (D.view door.old) (D.view door.new) }
{
    for _ in rt.forever() {
        if let Some(verdict) = look_or_rest(door, child, job) {
            return verdict;
        }
    }
    unreachable!()
}

/// Asks one request of a child, and waits until it is settled. `NoMemory` comes only before it is asked.
pub fn ask_job<D: Door, R: Wait>(
    rt: &R,
    alloc: Global,
    door: &mut D,
    child: u32,
    task: u32,
    request: &Request,
) -> Result<Verdict, NoMemory>
    requires legal { Legal (D.view door.old).opening (D.view door.old).seen }
    ensures named { IfOk result (IsNamed (message_of request.now)) }
    ensures asked { IfOk result (HasAskedJob (D.view door.old) (D.view door.new) child task request.now) }
    ensures none { OnErr result (Passed (D.view door.old).number (D.view door.old).alone (D.view door.old).seen (D.view door.new).seen) }
    ensures grows { Grows (D.view door.old).number (D.view door.old).alone (by_asking child) (D.view door.old).seen (D.view door.new).seen }
    ensures door { IsSameDoor (D.view door.old) (D.view door.new) }
{
    let request = request.copy(alloc)?;
    match events::ask(door, child, task, request)? {
        Asked::Job(job) => Ok(wait_for(rt, door, child, job)),
        Asked::Lost(Some(why)) => Ok(Verdict::Ended { why }),
        Asked::Lost(None) => Ok(Verdict::Unsent),
        Asked::Odd => Err(NoMemory),
    }
}
