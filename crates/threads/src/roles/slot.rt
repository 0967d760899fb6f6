// The threads of a round's roles.
ghost use Rattle.std.specs.Prelude.{◌≡◌, All, ℕ, ◌+◌, ◌^◌, ◌<◌, ◌≤◌, List, [], vec_len, vec_capacity};
ghost use Rattle.threads.specs.Roles.Back.{CameBack};
ghost use Rattle.threads.specs.Roles.Slots.{SlotOf, SlotsOf, AllCameBack};

use super::back::Back;
use super::gate::Gate;
use super::role::{RanFrom, Role, run_behind};
use std::marker::{Send, Sync};
use std::snapshot::Snapshot;
use std::sync::Wait;
use std::thread::{PromisedHandle, Scope, Threads};

/// That some role of a round got no thread: none could be made, or as many as it may have were tried. Only a round gives it, so whoever has
/// one was told so by a round.
#[derive(Clone, Copy, Debug, PartialEq, Eq)]
pub struct Refused {
    at: usize,
}

/// A role in a thread, or what came back of one for which there is none.
#[derive(Drop)]
pub(crate) enum Slot<E: Role> {
    Started(PromisedHandle<Back<E>, RanFrom<E>>),
    Here(Back<E>, Refused),
}

impl<E: Role> Slot<E> {
    pub(crate) fn is_started(&self) -> bool {
        matches!(self, Slot::Started(_))
    }

    /// That its role got no thread, where that is so.
    pub(crate) fn refused(&self) -> Option<Refused> {
        match self {
            Slot::Started(_) => None,
            Slot::Here(_, refused) => Some(*refused),
        }
    }
}

/// That the role of some slot got no thread, where that is so.
pub(crate) fn first_refused<E: Role>(slots: &[Slot<E>]) -> Option<Refused> {
    for slot in slots {
        if let Some(refused) = slot.refused() {
            return Some(refused);
        }
    }
    None
}

/// Starts the role behind the gate, or keeps it where no thread can be made, or where `most` of them were tried.
pub(crate) fn begin<'s, M: 's, E: Role + Send + Drop + 's, R: Wait + Sync>(
    scope: &Scope<'s, M>,
    rt: &'s R,
    gate: &'s Gate,
    at: usize,
    most: usize,
    role: E,
) -> Slot<E>
    requires { E.can_run role }
    ensures { SlotOf E.ran result role }
{
    if at >= most {
        gate.refuse(rt, at);
        return Slot::Here(run_behind(rt, gate, at, role), Refused { at });
    }
    let promise = RanFrom(Snapshot::of(&role));
    match scope.spawn_with(promise, move || run_behind(rt, gate, at, role)) {
        Ok(handle) => Slot::Started(handle),
        Err(refused) => {
            gate.refuse(rt, at);
            Slot::Here((refused.value)(), Refused { at })
        }
    }
}

pub(crate) fn end<E: Role, R: Threads>(rt: &R, slot: Slot<E>) -> Back<E>
    ensures { (e : E) → SlotOf E.ran slot e → CameBack E.ran e result }
{
    match slot {
        Slot::Started(handle) => handle.join(rt),
        Slot::Here(back, _) => back,
    }
}

/// Starts the roles behind the gate, numbered from `first`.
pub(crate) fn begin_all<'s, M: 's, E: Role + Send + Drop + 's, R: Wait + Sync>(
    scope: &Scope<'s, M>,
    rt: &'s R,
    gate: &'s Gate,
    first: usize,
    most: usize,
    roles: Vec<E>,
    mut slots: Vec<Slot<E>>,
) -> Vec<Slot<E>>
    requires empty { slots.items ≡ [] }
    requires room { vec_len roles ≤ vec_capacity slots }
    requires first { first + vec_len roles < 2 ^ 64 }
    requires can { All E.can_run roles.items }
    ensures len { vec_len result ≡ vec_len roles }
    ensures each { SlotsOf E.ran result.items roles.items }
{
    let mut at = first;
    for role in roles {
        slots.push_reserved(begin(scope, rt, gate, at, most, role));
        at += 1;
    }
    slots
}

/// Joins them all, in order.
pub(crate) fn end_all<E: Role + Drop, R: Threads>(
    rt: &R,
    slots: Vec<Slot<E>>,
    mut backs: Vec<Back<E>>,
) -> Vec<Back<E>>
    requires empty { backs.items ≡ [] }
    requires room { vec_len slots ≤ vec_capacity backs }
    ensures { (roles : List E) → SlotsOf E.ran slots.items roles → AllCameBack E.ran roles result.items }
{
    for slot in slots {
        backs.push_reserved(end(rt, slot));
    }
    backs
}
