// Calls of a desk as rows of a table, and what each answers.
use ann_outside::{Desk, DeskError, Failed};
use std::process::Abort;

#[derive(Clone, Copy)]
pub enum Step<'a> {
    Size(&'a str),
    Read(&'a str, u64, u8),
    Create(&'a str),
    CreateNew(&'a str),
    Sync(&'a str),
    Append(&'a str, &'a str),
    Cut(&'a str, u64),
    Rename(&'a str, &'a str),
    Remove(&'a str),
}

// A length, the bytes that were read, or how the call went.
#[derive(Clone, Copy, Debug, Drop, PartialEq)]
pub enum Came<'a> {
    Length(u64),
    Bytes(&'a str),
    Other,
    Done,
    Failed,
    Missing,
    NoMemory,
}

pub type Row<'a> = (Step<'a>, Came<'a>);

// What the desk answers; of bytes whether they are those that are wanted.
fn answer_of<'a, D: Desk>(desk: &mut D, step: &Step<'_>, want: &Came<'a>) -> Came<'a> {
    match *step {
        Step::Size(name) => match desk.size(name) {
            Ok(size) => Came::Length(size),
            Err(error) => went(Err(error)),
        },
        Step::Read(name, from, room) => read(desk, name, from, room, want),
        Step::Create(name) => went(desk.create(name)),
        Step::CreateNew(name) => went(desk.create_new(name)),
        Step::Sync(name) => went(desk.sync(name)),
        Step::Append(name, text) => went(desk.append(name, text.as_bytes())),
        Step::Cut(name, size) => went(cut(desk, name, size)),
        Step::Rename(from, to) => went(desk.rename(from, to)),
        Step::Remove(name) => went(desk.remove(name)),
    }
}

fn went(answer: Result<(), DeskError>) -> Came<'static> {
    match answer {
        Ok(()) => Came::Done,
        Err(DeskError::Failed) => Came::Failed,
        Err(DeskError::Missing) => Came::Missing,
        Err(DeskError::NoMemory) => Came::NoMemory,
    }
}

// A read asks for room.
fn read<'a, D: Desk>(desk: &mut D, name: &str, from: u64, room: u8, want: &Came<'a>) -> Came<'a> {
    let mut buf = [0; 256];
    let room = (room as usize).max(1);
    match desk.read_at(name, from, &mut buf[..room]) {
        Ok(count) => match want {
            Came::Bytes(text) if text.as_bytes() == &buf[..count] => *want,
            _ => Came::Other,
        },
        Err(error) => went(Err(error)),
    }
}

// A file is cut where it is long enough.
fn cut<D: Desk>(desk: &mut D, name: &str, size: u64) -> Result<(), DeskError> {
    if desk.size(name)? < size {
        return Err(DeskError::Failed);
    }
    desk.cut(name, size)
}

/// Goes over the rows, one call after the other, and lets the desk go.
pub fn expect_rows<D: Desk + Drop>(rt: &impl Abort, mut desk: D, rows: &[Row<'_>]) {
    for (at, row) in rows.iter().enumerate() {
        expect_row(rt, at, &mut desk, row);
    }
}

pub fn expect_row<D: Desk>(rt: &impl Abort, at: usize, desk: &mut D, row: &Row<'_>) {
    assert_eq!(rt; answer_of(desk, &row.0, &row.1), row.1, "at row {at}");
}

/// Of a read or a write. A call of its own keeps what a failure prints out of the proof of each test.
pub fn expect_count(rt: &impl Abort, came: Result<usize, Failed>, want: Result<usize, Failed>) {
    assert_eq!(rt; came, want);
}
