// Desks in memory, and desks that share one map.
use crate::outside::calls::Came::{Bytes, Done, Failed, Length, Missing};
use crate::outside::calls::Step::{
    Append, Create, CreateNew, Cut, Read, Remove, Rename, Size, Sync,
};
use crate::outside::calls::{Row, expect_row, expect_rows};
use ann_key::NoMemory;
use ann_outside::{Desk, Desks, MemDesk, MemDesks};
use shared_desks::SharedDesks;
use std::process::Abort;
use std::test::Fail;

static CALLS: [Row<'static>; 13] = [
    (Size("a"), Missing),
    (Create("a"), Done),
    (Append("a", "hello"), Done),
    (Read("a", 1, 3), Bytes("ell")),
    (Read("a", 5, 9), Bytes("")),
    (Cut("a", 4), Done),
    (CreateNew("b"), Done),
    (CreateNew("b"), Failed),
    (Rename("a", "b"), Done),
    (Sync("b"), Done),
    (Size("b"), Length(4)),
    (Remove("b"), Done),
    (Append("b", "x"), Missing),
];

// What a call does is proved where it succeeds: it does so with memory enough.
#[test]
fn each_call_of_a_desk_in_memory_succeeds(rt: HostRuntime) -> Result<(), NoMemory> {
    let mut desks = MemDesks::new(rt.alloc(), Vec::new(rt.alloc()));
    let desk = desks.desk(0)?;
    drop(desks);
    expect_rows(&rt, desk, &CALLS);
    Ok(())
}

static SHARED: [(Row<'static>, Row<'static>); 6] = [
    ((Create("a"), Done), (Size("a"), Length(0))),
    ((Append("a", "hello"), Failed), (Append("a", "hello"), Done)),
    ((Read("a", 1, 3), Bytes("ell")), (Cut("a", 2), Done)),
    ((Cut("a", 3), Failed), (Rename("a", "b"), Done)),
    ((Size("a"), Missing), (Remove("b"), Done)),
    ((Read("b", 0, 9), Missing), (Size("b"), Missing)),
];

fn expect_shared<D: Desk + Drop>(rt: &impl Abort, mut first: D, mut second: D) {
    for (at, (one, other)) in SHARED.iter().enumerate() {
        expect_row(rt, at, &mut first, one);
        expect_row(rt, at, &mut second, other);
    }
}

// What one desk does the other sees, and the calls of both are numbered together.
#[test]
fn two_desks_are_one_map(rt: HostRuntime) -> Result<(), Fail> {
    let fails = Vec::from_slice(rt.alloc(), &[3])?;
    let map = MemDesk::new(rt.alloc(), Vec::new(rt.alloc()), fails)?;
    let mut desks = SharedDesks::new(&rt, rt.alloc(), map)?;
    let first = desks.desk(1)?;
    let second = desks.desk(2)?;
    expect_shared(&rt, first, second);
    Ok(())
}
