// Room that a round takes before it begins.
ghost use Rattle.std.specs.Prelude.{◌≡◌, ◌≤◌, [], IfSome, vec_capacity};

use super::back::Back;
use super::role::Role;
use super::slot::Slot;
use std::alloc::Global;
use std::marker::Model;

/// Room for so many workers of a round and for what comes back of them. Contracts see of it how many.
#[derive(Drop)]
pub struct Room<C: Role> {
    seats: usize,
    slots: Vec<Slot<C>>,
    backs: Vec<Back<C>>,
}

impl<C: Role> Model for Room<C> {
    ghost use Rattle.std.specs.Prelude.{◌≡◌, ◌≤◌, ℕ, [], vec_capacity};

    ghost Value = { ℕ };

    ghost view = { λ r. r.seats };

    ghost invariant = { λ r. (r.slots.items ≡ []) × (r.seats ≤ vec_capacity r.slots) × (r.backs.items ≡ []) × (r.seats ≤ vec_capacity r.backs) };
}

impl<C: Role> Room<C> {
    /// None where there is no memory for it.
    pub fn new(alloc: Global, seats: usize) -> Option<Room<C>>
        ensures { IfSome result (λ r. r ≡ seats) }
    {
        let Ok(slots) = Vec::with_capacity(alloc, seats) else {
            return None;
        };
        match Vec::with_capacity(alloc, seats) {
            Ok(backs) => Some(Room {
                seats,
                slots,
                backs,
            }),
            Err(_) => {
                slots.destroy_empty();
                None
            }
        }
    }

    // The empty Vecs.
    pub(crate) fn part(self) -> (Vec<Slot<C>>, Vec<Back<C>>)
        ensures slots { (result.0.items ≡ []) × (self ≤ vec_capacity result.0) }
        ensures backs { (result.1.items ≡ []) × (self ≤ vec_capacity result.1) }
    {
        let Room {
            seats: _,
            slots,
            backs,
        } = self;
        (slots, backs)
    }
}
