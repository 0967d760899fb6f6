// One round of workers that have a child each.
ghost use Rattle.std.specs.Prelude.{◌≡◌, All, ◌<◌, ◌≤◌, vec_len};
ghost use Rattle.threads.specs.Roles.Slots.{AllCameBack};

use super::back::Back;
use super::gate::Gate;
use super::role::Role;
use super::room::Room;
use super::slot::{Refused, begin_all, end_all, first_refused};
use std::marker::{Send, Sync};
use std::sync::Wait;
use std::thread;
use std::thread::{Scope, Threads};

fn within<'s, M: 's, C: Role + Send + Drop + 's, R: Threads + Wait + Sync>(
    scope: &Scope<'s, M>,
    rt: &'s R,
    gate: &'s Gate,
    most: usize,
    workers: Vec<C>,
    room: Room<C>,
) -> (Vec<Back<C>>, Option<Refused>)
    requires few { vec_len workers < 1000 }
    requires can { All C.can_run workers.items }
    requires room { vec_len workers ≤ room }
    ensures { AllCameBack C.ran workers.items result.0.items }
{
    let (slots, backs) = room.part();
    let workers = begin_all(scope, rt, gate, 0, most, workers, slots);
    let begins = workers.iter().any(|slot| slot.is_started());
    let refused = first_refused(&workers);
    gate.open(rt, begins);
    (end_all(rt, workers, backs), refused)
}

/// Runs the workers, each in a thread of its own, of which it tries to start `most`, in room that was taken before. None of them
/// takes its first step before it is known which threads were started. Beside what came back it says that a worker got no thread, where
/// that is so.
pub fn run_workers<C: Role + Send + Drop, R: Threads + Wait + Sync>(
    rt: &R,
    room: Room<C>,
    most: usize,
    workers: Vec<C>,
) -> (Vec<Back<C>>, Option<Refused>)
    requires few { vec_len workers < 1000 }
    requires can { All C.can_run workers.items }
    requires room { vec_len workers ≤ room }
    ensures { AllCameBack C.ran workers.items result.0.items }
{
    let gate = Gate::new();
    let gate = &gate;
    thread::scope(
        thread::scope_env(),
        rt,
        move |scope| -> (Vec<Back<C>>, Option<Refused>)
            requires { All C.can_run workers.items × (vec_len workers < 1000) × (vec_len workers ≤ room) }
            ensures { AllCameBack C.ran workers.items result.0.items }
        { within(scope, rt, gate, most, workers, room) },
    )
}
