// A child in memory, and a clock.
use crate::outside::calls::expect_count;
use ann_key::{Bytes, NoMemory};
use ann_outside::{
    Clock, Failed, MemChild, MemClock, MemPrograms, Programs, Sink, Source, Started,
};
use std::alloc::Global;
use std::test::Fail;

// One child, which says a line, and of whose inlet the second call fails.
fn programs(alloc: Global) -> Result<MemPrograms, NoMemory> {
    let mut says = Vec::new(alloc);
    says.push(Bytes::copy(alloc, b"VERSION 1\n")?)?;
    let write_fails = Vec::from_slice(alloc, &[2])?;
    let mut children = Vec::new(alloc);
    children.push(MemChild {
        says,
        read_fails: Vec::new(alloc),
        write_fails,
    })?;
    Ok(MemPrograms::new(alloc, children, Vec::new(alloc)))
}

#[test]
fn a_child_in_memory_says_its_line_and_takes_what_is_written(rt: HostRuntime) -> Result<(), Fail> {
    let mut programs = programs(rt.alloc())?;
    let Ok(
        Started {
            mut inlet,
            mut outlet,
            stub,
        },
    ) = programs.start("child")
    else {
        panic!(rt; "no child was started")
    };
    let mut buf = [0; 16];
    expect_count(&rt, outlet.read(&mut buf), Ok(10));
    drop(outlet);
    assert!(rt; buf.starts_with(b"VERSION 1\n"));
    expect_count(&rt, inlet.write(b"PREPARE\n"), Ok(8));
    expect_count(&rt, inlet.write(b"x"), Err(Failed));
    assert!(rt; inlet.taken() == b"PREPARE\n".as_slice());
    drop(inlet);
    assert!(rt; programs.finish(stub).is_ok());
    drop(programs);
    Ok(())
}

#[test]
fn a_clock_in_memory_tells_what_it_was_given(rt: HostRuntime) {
    assert_eq!(rt;
        MemClock::new(1_700_000_000_000_000).now(),
        1_700_000_000_000_000
    );
}
