ghost use Rattle.std.specs.Prelude.{◌≡◌, ◌<◌, IfOk, vec_len};

use crate::crew::counting::Counting;
use ann_key::NoMemory;
use std::alloc::{AllocError, Global};
use std::sync::Wait;
use std::sync::atomic::{AtomicU64, Ordering};
use std::test::Fail;
use std::thread::Threads;
use threads::roles::{Back, Crew, Room, run_crew, run_workers};

type Role<'a> = Counting<'a>;

type Roles<'a> = Crew<Role<'a>, Role<'a>, Role<'a>>;

fn workers(alloc: Global, runs: &AtomicU64, count: u64) -> Result<Vec<Role<'_>>, AllocError>
    requires { count < 100 }
    ensures { IfOk result (λ v. vec_len v ≡ count) }
{
    let mut all = Vec::new(alloc);
    for _i in 0..count {
        all.push(Counting { runs })?;
    }
    Ok(all)
}

fn crew(alloc: Global, runs: &AtomicU64, count: u64) -> Result<Roles<'_>, AllocError>
    requires { count < 100 }
    ensures { IfOk result (λ crew. vec_len crew.workers ≡ count) }
{
    Ok(Crew {
        ear: Counting { runs },
        mouth: Counting { runs },
        workers: workers(alloc, runs, count)?,
    })
}

fn ran_of(backs: &[Back<Role<'_>>]) -> u64 {
    let mut ran = 0u64;
    for back in backs {
        if back.has_run() {
            ran = ran.wrapping_add(1);
        }
    }
    ran
}

// Whether the ear and the mouth ran, how many workers did, and how many runs were counted.
type Ran = (bool, bool, u64, u64);

// What came of a round with so many workers, in so many threads at most.
fn round<R: Threads + Wait + Sync>(
    rt: &R,
    alloc: Global,
    count: u64,
    most: usize,
) -> Result<Ran, NoMemory>
    requires { count < 100 }
{
    let runs = AtomicU64::new(0);
    let crew = crew(alloc, &runs, count)?;
    let Some(room) = Room::new(alloc, crew.workers.len()) else {
        return Err(NoMemory);
    };
    let (back, refused) = run_crew(rt, room, most, crew);
    let worked = ran_of(&back.workers);
    let (ear, mouth) = (back.ear.has_run(), back.mouth.has_run());
    drop(refused);
    drop(back);
    Ok((ear, mouth, worked, runs.load(Ordering::SeqCst)))
}

// How many workers came back from a pool of so many, in so many threads at most, how many ran, and how many runs were counted.
fn pool<R: Threads + Wait + Sync>(
    rt: &R,
    alloc: Global,
    count: u64,
    most: usize,
) -> Result<(u64, u64, u64), NoMemory>
    requires { count < 100 }
{
    let runs = AtomicU64::new(0);
    let workers = workers(alloc, &runs, count)?;
    let Some(room) = Room::new(alloc, workers.len()) else {
        return Err(NoMemory);
    };
    let (back, refused) = run_workers(rt, room, most, workers);
    let (count, ran) = (back.len() as u64, ran_of(&back));
    drop(refused);
    drop(back);
    Ok((count, ran, runs.load(Ordering::SeqCst)))
}

// The workers of a round, its threads at most, whether it runs, and how many workers do.
static ROUNDS: [(u64, usize, bool, u64); 10] = [
    (1, 0, false, 0),
    (1, 1, false, 0),
    (1, 2, false, 0),
    (1, 3, true, 1),
    (0, 2, false, 0),
    (64, 2, false, 0),
    (64, 3, true, 1),
    (64, 40, true, 38),
    (64, 66, true, 64),
    (64, 1000, true, 64),
];

// With threads for the ear, the mouth and some worker, those that have one run. Without one of these nobody took a step, though
// the threads that were started had all the time until it was known.
#[test]
fn rounds_of_few_threads(rt: HostRuntime) -> Result<(), Fail> {
    for (count, most, runs, worked) in &ROUNDS {
        let ran = if *runs { worked.wrapping_add(2) } else { 0 };
        for _ in 0..10 {
            assert!(rt; *count < 100);
            let came = round(&rt, rt.alloc(), *count, *most)?;
            assert!(rt; came == (*runs, *runs, *worked, ran), "{count} {most}");
        }
    }
    Ok(())
}

// The workers of a pool, its threads at most, and how many run.
static POOLS: [(u64, usize, u64); 6] = [
    (0, 0, 0),
    (1, 0, 0),
    (1, 1, 1),
    (64, 0, 0),
    (64, 1, 1),
    (64, 64, 64),
];

// A pool goes on with the workers that have a thread.
#[test]
fn pools_of_few_threads(rt: HostRuntime) -> Result<(), Fail> {
    for (count, most, ran) in &POOLS {
        for _ in 0..10 {
            assert!(rt; *count < 100);
            let came = pool(&rt, rt.alloc(), *count, *most)?;
            assert!(rt; came == (*count, *ran, *ran), "{count} {most}");
        }
    }
    Ok(())
}
