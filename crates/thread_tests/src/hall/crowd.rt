ghost use Rattle.std.specs.Prelude.{All, ℕ, ◌≡◌, length, IfOk};
ghost use Rattle.threads.specs.Passes.{IsPassOf, HasClosed};

use crate::hall::tally::Tally;
use ann_key::NoMemory;
use std::sync::Wait;
use std::thread::{Threads, map_vec};
use threads::{Hall, Held, Pass};

// Adds the pass's own number so many times.
fn add_own<R: Wait>(rt: &R, hall: &Hall<Tally>, mut pass: Pass<Tally>, times: u32) -> Pass<Tally>
    requires { IsPassOf hall.now pass }
    ensures { IsPassOf hall.now result }
{
    let number = u64::from(pass.number());
    for _ in 0..times {
        let _ = hall.enter(rt, &mut pass, Some(number));
    }
    pass
}

// One try of a pass that adds 1 where the total is even, if its number is odd, and else where the total is odd. Otherwise it rests.
fn try_turn<R: Wait>(rt: &R, hall: &Hall<Tally>, pass: &mut Pass<Tally>) -> Result<bool, NoMemory>
    requires { IsPassOf hall.now pass.old }
    ensures { IsPassOf hall.now pass.new }
{
    let total = hall.enter(rt, pass, None)?;
    let mine = total % 2 != u64::from(pass.number()) % 2;
    if mine {
        hall.enter(rt, pass, Some(1))?;
    } else {
        hall.rest(rt, pass);
    }
    Ok(mine)
}

// Takes so many turns, by no more than so many tries.
fn take_turns<R: Wait>(
    rt: &R,
    hall: &Hall<Tally>,
    mut pass: Pass<Tally>,
    turns: u32,
    tries: u32,
) -> Pass<Tally>
    requires { IsPassOf hall.now pass }
    ensures { IsPassOf hall.now result }
{
    let mut left = turns;
    for _ in 0..tries {
        if left > 0 && try_turn(rt, hall, &mut pass) == Ok(true) {
            left -= 1;
        }
    }
    pass
}

/// What each pass does.
#[derive(Clone, Copy)]
pub enum Work {
    /// It adds its own number so many times.
    Own(u32),
    /// It adds 1 so many times, those with odd numbers where the total is even and the others where it is odd: between, they rest. No more
    /// than so many tries are made.
    Turns(u32, u32),
}

fn work_at<R: Wait>(rt: &R, hall: &Hall<Tally>, pass: Pass<Tally>, work: Work) -> Pass<Tally>
    requires { IsPassOf hall.now pass }
    ensures { IsPassOf hall.now result }
{
    match work {
        Work::Own(times) => add_own(rt, hall, pass, times),
        Work::Turns(turns, tries) => take_turns(rt, hall, pass, turns, tries),
    }
}

/// Each pass does the work, from a thread of its own. Then the passes have come back, and the hall is closed.
///
/// At `NoMemory`, which comes where the threads' results find none, the hall and the passes are gone.
pub fn work_in_threads<R: Threads + Wait + Sync>(
    rt: &R,
    hall: Hall<Tally>,
    passes: Vec<Pass<Tally>>,
    work: Work,
) -> Result<Tally, NoMemory>
    requires { All (IsPassOf hall) passes.items × (length passes.items ≡ hall.seats) }
    ensures { IfOk result (λ t. (back : _) × All (IsPassOf hall) back × (length back ≡ hall.seats) × HasClosed ⟦<Tally as Held>⟧.made_by ⟦<Tally as Held>⟧.may hall back t.entries t.limit) }
{
    let lock = &hall;
    let back = map_vec(
        rt,
        passes,
        &|pass: Pass<Tally>| -> Pass<Tally>
            requires { IsPassOf lock.now pass }
            ensures { IsPassOf lock.entry.now result }
        { work_at(rt, lock, pass, work) },
    )?;
    Ok(hall.close(back))
}
