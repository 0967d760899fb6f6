// Files of this machine.
use crate::outside::calls::Came::{Bytes, Done, Failed, Length, Missing};
use crate::outside::calls::Step::{
    Append, Create, CreateNew, Cut, Read, Remove, Rename, Size, Sync,
};
use crate::outside::calls::{Row, expect_row, expect_rows};
use ann_os::OsDesks;
use ann_outside::{Desk, Desks};
use std::fs;
use std::process::Abort;
use std::test::Fail;

static CALLS: [Row<'static>; 49] = [
    // nothing is there yet
    (Size("calls/none"), Missing),
    (Read("calls/none", 0, 4), Missing),
    (Append("calls/none", "x"), Missing),
    (Cut("calls/none", 0), Missing),
    (Rename("calls/none", "calls/other"), Missing),
    (Remove("calls/none"), Missing),
    // a file in folders that are made for it
    (Create("calls/deep/er/file"), Done),
    (Size("calls/deep/er/file"), Length(0)),
    (Append("calls/deep/er/file", "hello"), Done),
    (Append("calls/deep/er/file", " world"), Done),
    (Size("calls/deep/er/file"), Length(11)),
    (Read("calls/deep/er/file", 6, 16), Bytes("world")),
    (Read("calls/deep/er/file", 6, 2), Bytes("wo")),
    (Read("calls/deep/er/file", 11, 4), Bytes("")),
    (Read("calls/deep/er/file", 99, 4), Bytes("")),
    (Cut("calls/deep/er/file", 5), Done),
    (Read("calls/deep/er/file", 0, 16), Bytes("hello")),
    // a folder in the place of a file
    (Size("calls/deep"), Failed),
    (Read("calls/deep", 0, 4), Failed),
    (Create("calls/deep"), Failed),
    (Append("calls/deep", "x"), Failed),
    (Rename("calls/deep", "calls/moved"), Failed),
    (Rename("calls/deep/er/file", "calls/deep"), Failed),
    (Remove("calls/deep"), Failed),
    // a rename takes the place of a file, and a create empties one
    (Create("calls/other"), Done),
    (Append("calls/other", "old content"), Done),
    (Rename("calls/deep/er/file", "calls/other"), Done),
    (Read("calls/other", 0, 16), Bytes("hello")),
    (Size("calls/deep/er/file"), Missing),
    (Create("calls/other"), Done),
    (Size("calls/other"), Length(0)),
    // a file that is made only where there is none
    (CreateNew("calls/new/file"), Done),
    (Append("calls/new/file", "x"), Done),
    (Sync("calls/new/file"), Done),
    (CreateNew("calls/new/file"), Failed),
    (Size("calls/new/file"), Length(1)),
    (Sync("calls/none"), Missing),
    // a device in the place of a file stays
    (Rename("calls/new/file", "/dev/full"), Failed),
    (Size("calls/new/file"), Length(1)),
    // names in a folder that isn't there, or that is a file
    (Append("calls/gone/x", "x"), Missing),
    (Rename("calls/gone/x", "calls/none/x"), Missing),
    (Rename("calls/other", "calls/gone/x"), Done),
    (Rename("calls/gone/x", "calls/other"), Done),
    (Rename("calls/other", "calls/other/x"), Failed),
    (Size("calls/other"), Length(0)),
    (Create("calls/other/x"), Failed),
    // a full disk
    (Append("/dev/full", "x"), Failed),
    (Remove("calls/other"), Done),
    (Remove("calls/other"), Missing),
];

#[test]
fn calls_on_files_and_folders(rt: HostRuntime) -> Result<(), Fail> {
    let desk = OsDesks::new(&rt).desk(0)?;
    expect_rows(&rt, desk, &CALLS);
    fs::remove_dir_all(&rt, "calls")?;
    Ok(())
}

static LOCKED: Row<'static> = (Read("locked/file", 0, 4), Failed);

static NO_FILE: Row<'static> = (Read("locked/file", 0, 4), Missing);

// The second main desk reads the file once the first one is gone.
fn expect_in_turn<D: Desk + Drop>(rt: &impl Abort, mut first: D, mut second: D, mut worker: D) {
    expect_row(rt, 0, &mut first, &NO_FILE);
    expect_row(rt, 1, &mut second, &LOCKED);
    expect_row(rt, 2, &mut worker, &NO_FILE);
    drop(first);
    expect_row(rt, 3, &mut second, &NO_FILE);
}

#[test]
fn one_main_desk_at_a_time_reads_a_file(rt: HostRuntime) -> Result<(), Fail> {
    let mut desks = OsDesks::new(&rt);
    let worker = desks.desk(1)?;
    let second = desks.desk(0)?;
    let first = desks.desk(0)?;
    expect_in_turn(&rt, first, second, worker);
    fs::remove_dir_all(&rt, "locked")?;
    Ok(())
}
