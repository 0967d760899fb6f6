// Each error as text, with the place that it names.
use ann_key::KeyRef;
use journal_reader::{JournalError, Reader};
use kept_file::text::{KeepError, read_keep};
use std::alloc::Global;
use std::fmt::Display;
use std::process::Abort;
use std::test::Fail;
use task_text::chunk_log::read_line;

fn expect(
    rt: &impl Abort,
    alloc: Global,
    error: &Option<impl Display>,
    want: &str,
) -> Result<(), Fail> {
    let Some(error) = error else {
        panic!(rt; "no error")
    };
    let said = format!(in alloc; "{error}")?;
    assert_eq!(rt; said.as_str(), want);
    Ok(())
}

type Row = (&'static [u8], &'static str);

static KEYS: [Row; 4] = [
    (b"sha--x", "no backend at 0"),
    (b"MD5-s7", "no field at 6"),
    (b"MD5-S4-C0--a", "no number at 8"),
    (b"MD5--", "no name at 5"),
];

#[test]
fn an_error_of_a_key_names_its_place(rt: HostRuntime) -> Result<(), Fail> {
    for (key, want) in &KEYS {
        expect(&rt, rt.alloc(), &KeyRef::read(key).err(), want)?;
    }
    Ok(())
}

static NOTES: [Row; 3] = [
    (b"12 0000000000000000000000000000000a:1 1", "no stamp"),
    (b"12s x:1 1", "no uuid"),
    (b"12s 0000000000000000000000000000000a:0 1", "no count"),
];

#[test]
fn an_error_of_a_chunk_line_names_what_it_lacks(rt: HostRuntime) -> Result<(), Fail> {
    for (line, want) in &NOTES {
        expect(&rt, rt.alloc(), &read_line(rt.alloc(), line).err(), want)?;
    }
    Ok(())
}

fn kept(alloc: Global) -> Option<KeepError> {
    read_keep(alloc, b"annex-keep 1\nconfig a 1\nstates WORM--a x\n").err()
}

fn pushed(alloc: Global) -> Option<JournalError> {
    Reader::new(alloc).push(b"uuid x").err()
}

fn finished(alloc: Global) -> Option<JournalError> {
    Reader::new(alloc).finish().err()
}

#[test]
fn an_error_of_a_text_names_its_line(rt: HostRuntime) -> Result<(), Fail> {
    let alloc = rt.alloc();
    expect(&rt, alloc, &kept(alloc), "line 3 is none of a kept file")?;
    expect(&rt, alloc, &pushed(alloc), "line 1 can't follow")?;
    expect(&rt, alloc, &finished(alloc), "no end after line 0")
}
