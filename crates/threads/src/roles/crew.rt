// One round of an ear, a mouth and workers.
ghost use Rattle.std.specs.Prelude.{◌≡◌, All, ◌<◌, ◌≤◌, vec_len};
ghost use Rattle.threads.specs.Roles.Back.{CameBack};
ghost use Rattle.threads.specs.Roles.Slots.{AllCameBack};

use super::back::Back;
use super::gate::Gate;
use super::role::Role;
use super::room::Room;
use super::slot::{Refused, Slot, begin, begin_all, end, end_all, first_refused};
use std::marker::{Send, Sync};
use std::sync::Wait;
use std::thread;
use std::thread::{Scope, Threads};

/// The roles of a round over a child that several workers share.
#[derive(Drop)]
pub struct Crew<A, B, C> {
    pub ear: A,
    pub mouth: B,
    pub workers: Vec<C>,
}

// Whether the round can go on with these workers: some have a thread, or all where the crew has to be whole.
fn are_enough<C: Role>(whole: bool, workers: &[Slot<C>]) -> bool {
    if whole {
        workers.iter().all(|slot| slot.is_started())
    } else {
        workers.iter().any(|slot| slot.is_started())
    }
}

fn within<
    's,
    M: 's,
    A: Role + Send + Drop + 's,
    B: Role + Send + Drop + 's,
    C: Role + Send + Drop + 's,
    R: Threads + Wait + Sync,
>(
    scope: &Scope<'s, M>,
    rt: &'s R,
    gate: &'s Gate,
    most: usize,
    whole: bool,
    crew: Crew<A, B, C>,
    room: Room<C>,
) -> (Crew<Back<A>, Back<B>, Back<C>>, Option<Refused>)
    requires few { vec_len crew.workers < 1000 }
    requires can { A.can_run crew.ear × B.can_run crew.mouth × All C.can_run crew.workers.items }
    requires room { vec_len crew.workers ≤ room }
    ensures ear { CameBack A.ran crew.ear result.0.ear }
    ensures mouth { CameBack B.ran crew.mouth result.0.mouth }
    ensures workers { AllCameBack C.ran crew.workers.items result.0.workers.items }
{
    let Crew {
        ear,
        mouth,
        workers,
    } = crew;
    let (slots, backs) = room.part();
    let ear = begin(scope, rt, gate, 0, most, ear);
    let mouth = begin(scope, rt, gate, 1, most, mouth);
    let workers = begin_all(scope, rt, gate, 2, most, workers, slots);
    let begins = ear.is_started() && mouth.is_started() && are_enough(whole, &workers);
    let refused = ear
        .refused()
        .or(mouth.refused())
        .or(first_refused(&workers));
    gate.open(rt, begins);
    let crew = Crew {
        workers: end_all(rt, workers, backs),
        mouth: end(rt, mouth),
        ear: end(rt, ear),
    };
    (crew, refused)
}

// Runs the roles, in a crew that has to be whole or not.
fn run_roles<
    A: Role + Send + Drop,
    B: Role + Send + Drop,
    C: Role + Send + Drop,
    R: Threads + Wait + Sync,
>(
    rt: &R,
    room: Room<C>,
    most: usize,
    whole: bool,
    crew: Crew<A, B, C>,
) -> (Crew<Back<A>, Back<B>, Back<C>>, Option<Refused>)
    requires few { vec_len crew.workers < 1000 }
    requires can { A.can_run crew.ear × B.can_run crew.mouth × All C.can_run crew.workers.items }
    requires room { vec_len crew.workers ≤ room }
    ensures ear { CameBack A.ran crew.ear result.0.ear }
    ensures mouth { CameBack B.ran crew.mouth result.0.mouth }
    ensures workers { AllCameBack C.ran crew.workers.items result.0.workers.items }
{
    let gate = Gate::new();
    let gate = &gate;
    thread::scope(
        thread::scope_env(),
        rt,
        move |scope| -> (Crew<Back<A>, Back<B>, Back<C>>, Option<Refused>)
            requires { A.can_run crew.ear × B.can_run crew.mouth × All C.can_run crew.workers.items × (vec_len crew.workers < 1000) × (vec_len crew.workers ≤ room) }
            ensures { CameBack A.ran crew.ear result.0.ear × CameBack B.ran crew.mouth result.0.mouth × AllCameBack C.ran crew.workers.items result.0.workers.items }
        { within(scope, rt, gate, most, whole, crew, room) },
    )
}

/// Runs the roles, each in a thread of its own, of which it tries to start `most`, in room that was taken before. None of them
/// takes its first step before it is known which threads were started; without an ear, a mouth or any worker none takes one. Beside what
/// came back it says that a role got no thread, where that is so.
pub fn run_crew<
    A: Role + Send + Drop,
    B: Role + Send + Drop,
    C: Role + Send + Drop,
    R: Threads + Wait + Sync,
>(
    rt: &R,
    room: Room<C>,
    most: usize,
    crew: Crew<A, B, C>,
) -> (Crew<Back<A>, Back<B>, Back<C>>, Option<Refused>)
    requires few { vec_len crew.workers < 1000 }
    requires can { A.can_run crew.ear × B.can_run crew.mouth × All C.can_run crew.workers.items }
    requires room { vec_len crew.workers ≤ room }
    ensures ear { CameBack A.ran crew.ear result.0.ear }
    ensures mouth { CameBack B.ran crew.mouth result.0.mouth }
    ensures workers { AllCameBack C.ran crew.workers.items result.0.workers.items }
{
    run_roles(rt, room, most, false, crew)
}

/// The same where none takes a step unless each of them has a thread: for roles that wait for one another.
pub fn run_whole_crew<
    A: Role + Send + Drop,
    B: Role + Send + Drop,
    C: Role + Send + Drop,
    R: Threads + Wait + Sync,
>(rt: &R, room: Room<C>, most: usize, crew: Crew<A, B, C>) -> Crew<Back<A>, Back<B>, Back<C>>
    requires few { vec_len crew.workers < 1000 }
    requires can { A.can_run crew.ear × B.can_run crew.mouth × All C.can_run crew.workers.items }
    requires room { vec_len crew.workers ≤ room }
    ensures ear { CameBack A.ran crew.ear result.ear }
    ensures mouth { CameBack B.ran crew.mouth result.mouth }
    ensures workers { AllCameBack C.ran crew.workers.items result.workers.items }
{
    run_roles(rt, room, most, true, crew).0
}
