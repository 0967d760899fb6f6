use crate::hall::crowd::{Work, work_in_threads};
use crate::hall::tally::Tally;
use ann_key::NoMemory;
use std::io;
use std::process::Abort;
use std::time::{Duration, Instant};
use threads::Hall;

// Calls of their own keep what a failure prints out of the proof of each test.
fn expect_reply(rt: &impl Abort, came: Result<u64, NoMemory>, want: Result<u64, NoMemory>) {
    assert_eq!(rt; came, want);
}

fn expect_number(rt: &impl Abort, came: u64, want: u64) {
    assert_eq!(rt; came, want);
}

// How often the number added itself.
fn additions(entries: &[(u32, u64)], number: u32) -> u64 {
    let own = (number, u64::from(number));
    entries.iter().filter(|e| **e == own).count() as u64
}

#[test]
fn four_passes_add_a_thousand_times_each(rt: HostRuntime) {
    let Ok((hall, passes)) = Hall::begin(rt.alloc(), Tally::new(rt.alloc(), 4000), 4) else {
        panic!(rt; "no memory")
    };
    let Ok(tally) = work_in_threads(&rt, hall, passes, Work::Own(1000)) else {
        panic!(rt; "no memory")
    };
    expect_number(&rt, tally.total(), 10_000);
    expect_number(&rt, tally.entries().len() as u64, 4000);
    for number in 1..5 {
        expect_number(&rt, additions(tally.entries(), number), 1000);
    }
    drop(tally);
}

#[test]
fn seventy_passes_and_no_entry(rt: HostRuntime) {
    let Ok((hall, passes)) = Hall::begin(rt.alloc(), Tally::new(rt.alloc(), 0), 70) else {
        panic!(rt; "no memory")
    };
    let tally = hall.close(passes);
    assert!(rt; tally.entries().is_empty());
}

#[test]
fn out_of_memory_changes_nothing_and_gives_the_turn_back(rt: HostRuntime) {
    let Ok((hall, mut passes)) = Hall::begin(rt.alloc(), Tally::new(rt.alloc(), 1), 2) else {
        panic!(rt; "no memory")
    };
    let mut other = passes.take_last();
    let mut one = passes.take_last();
    expect_reply(&rt, hall.enter(&rt, &mut one, Some(5)), Ok(5));
    expect_reply(&rt, hall.enter(&rt, &mut one, Some(6)), Err(NoMemory));
    expect_reply(&rt, hall.enter(&rt, &mut other, Some(7)), Err(NoMemory));
    expect_reply(&rt, hall.enter(&rt, &mut other, None), Ok(5));
    passes.push_reserved(one);
    passes.push_reserved(other);
    let tally = hall.close(passes);
    assert!(rt; tally.entries() == [(1, 5)].as_slice());
    drop(tally);
}

// Whether numbers 1 and 2 added 1, in turns.
fn are_turns(entries: &[(u32, u64)]) -> bool {
    let mut next = 1;
    for entry in entries {
        if *entry != (next, 1) {
            return false;
        }
        next = if next == 1 { 2 } else { 1 };
    }
    true
}

// Unwoken, each of the 199 rests would take 50 ms, and all of them nearly 10 seconds.
#[test]
fn passes_that_rest_are_woken(rt: HostRuntime) -> io::Result<()> {
    let begun = Instant::now(&rt)?;
    let Ok((hall, passes)) = Hall::begin(rt.alloc(), Tally::new(rt.alloc(), 200), 2) else {
        panic!(rt; "no memory")
    };
    let Ok(tally) = work_in_threads(&rt, hall, passes, Work::Turns(100, 400)) else {
        panic!(rt; "no memory")
    };
    expect_number(&rt, tally.total(), 200);
    assert!(rt; are_turns(tally.entries()));
    drop(tally);
    let took = begun.elapsed(&rt)?;
    assert!(rt; took < Duration::from_secs(7), "woken late");
    Ok(())
}

#[test]
fn a_rest_ends_where_nothing_happens(rt: HostRuntime) -> io::Result<()> {
    let Ok((hall, mut passes)) = Hall::begin(rt.alloc(), Tally::new(rt.alloc(), 0), 1) else {
        panic!(rt; "no memory")
    };
    let mut pass = passes.take_last();
    let begun = Instant::now(&rt)?;
    hall.rest(&rt, &mut pass);
    let took = begun.elapsed(&rt)?;
    assert!(rt; took < Duration::from_secs(5), "slept on");
    Ok(())
}
