// Kits in memory, as the children that a host starts.

ghost use Rattle.std.specs.Prelude.{◌≡◌, true};

use crate::Empty;
use ann_key::NoMemory;
use ann_outside::{Programs, Sink, Source, Started, write_all};
use kit_memory::{KitPrograms, Maker};
use std::alloc::{AllocError, Global};
use std::process::Abort;
use std::test::Fail;

#[derive(Drop)]
struct Empties;

impl Maker for Empties {
    type Remote = Empty;

    fn make(&mut self) -> Result<Empty, NoMemory> {
        Ok(Empty)
    }
}

#[derive(Drop)]
struct NoRemotes;

impl Maker for NoRemotes {
    type Remote = Empty;

    fn make(&mut self) -> Result<Empty, NoMemory> {
        Err(NoMemory)
    }
}

// All that a source gives.
fn heard<S: Source>(alloc: Global, source: &mut S) -> Result<Vec<u8>, AllocError>
    requires { (S.told source.old).is_open ≡ true }
    ensures { (S.told source.new).is_open ≡ true }
{
    let mut bytes = Vec::new(alloc);
    let mut buf = [0u8; 7];
    for _ in 0..u64::MAX {
        let n = source.read(&mut buf).unwrap_or(0);
        if n == 0 {
            break;
        }
        bytes.extend_from_slice(&buf[..n])?;
    }
    Ok(bytes)
}

// What the child says to these bytes, and then to their end; nothing where it can't be started.
fn said<P: Programs>(
    rt: &impl Abort,
    alloc: Global,
    programs: &mut P,
    says: &[u8],
) -> Result<Vec<u8>, Fail>
where
    P::Inlet: Drop,
    P::Outlet: Drop,
    P::Stub: Drop,
{
    let Ok(
        Started {
            mut inlet,
            mut outlet,
            stub,
        },
    ) = programs.start("any")
    else {
        return Ok(Vec::new(alloc));
    };
    let written = write_all(&mut inlet, says);
    assert!(rt; written.is_ok());
    inlet.close();
    let bytes = heard(alloc, &mut outlet);
    outlet.close();
    drop(inlet);
    drop(outlet);
    let finished = programs.finish(stub);
    assert!(rt; finished.is_ok());
    Ok(bytes?)
}

// Whether the source gives just these bytes next.
fn gives<S: Source>(source: &mut S, bytes: &[u8]) -> bool
    requires { (S.told source.old).is_open ≡ true }
    ensures { (S.told source.new).is_open ≡ true }
{
    let mut at = 0;
    let mut buf = [0u8; 512];
    for _ in 0..u64::MAX {
        if at >= bytes.len() {
            return true;
        }
        let most = buf.len().min(bytes.len() - at);
        let n = source.read(&mut buf[..most]).unwrap_or(0);
        if n == 0 || !bytes[at..].starts_with(&buf[..n]) {
            return false;
        }
        at += n;
    }
    false
}

fn repeated(alloc: Global, line: &[u8], times: u32) -> Result<Vec<u8>, AllocError> {
    let mut bytes = Vec::new(alloc);
    for _ in 0..times {
        bytes.extend_from_slice(line)?;
    }
    Ok(bytes)
}

// Writes these bytes forty times, and each time reads what the child says to them.
fn talks<I: Sink, O: Source>(inlet: &mut I, outlet: &mut O, says: &[u8], hears: &[u8]) -> bool
    requires { ((I.told inlet.old).is_open ≡ true) × ((O.told outlet.old).is_open ≡ true) }
    ensures { ((I.told inlet.new).is_open ≡ true) × ((O.told outlet.new).is_open ≡ true) }
{
    for _ in 0..40 {
        if write_all(inlet, says).is_err() || !gives(outlet, hears) {
            return false;
        }
    }
    true
}

// More goes through its pipe than that holds at once, and each read gives less than was written.
#[test]
fn a_child_hears_all_that_is_written(rt: HostRuntime) -> Result<(), Fail> {
    let alloc = rt.alloc();
    let says = repeated(alloc, b"CHECKPRESENT WORM--a\n", 500)?;
    let hears = repeated(alloc, b"CHECKPRESENT-FAILURE WORM--a\n", 500)?;
    let mut programs = KitPrograms::new(&rt, alloc, Empties);
    let Ok(
        Started {
            mut inlet,
            mut outlet,
            stub,
        },
    ) = programs.start("any")
    else {
        panic!(rt; "no child was started")
    };
    assert!(rt; write_all(&mut inlet, b"PREPARE\n").is_ok());
    assert!(rt; gives(&mut outlet, b"VERSION 1\nPREPARE-SUCCESS\n"));
    assert!(rt; talks(&mut inlet, &mut outlet, says.as_slice(), hears.as_slice()));
    inlet.close();
    drop(inlet);
    let rest = heard(alloc, &mut outlet);
    outlet.close();
    drop(outlet);
    assert!(rt; programs.finish(stub).is_ok());
    drop(programs);
    assert!(rt; rest?.is_empty());
    Ok(())
}

// Who holds both halves may settle what was written against what was heard.
#[test]
fn halves_of_a_child_are_settled(rt: HostRuntime) -> Result<(), Fail> {
    let mut programs = KitPrograms::new(&rt, rt.alloc(), Empties);
    let Ok(
        Started {
            mut inlet,
            mut outlet,
            stub,
        },
    ) = programs.start("any")
    else {
        panic!(rt; "no child was started")
    };
    assert!(rt; inlet.write(b"PREPARE\n").is_ok());
    inlet.close();
    let mut buf = [0u8; 64];
    assert!(rt; outlet.read(&mut buf).is_ok());
    outlet.close();
    outlet.settle(&mut inlet);
    drop(inlet);
    assert!(rt; programs.finish(stub).is_ok());
    drop(programs);
    Ok(())
}

#[test]
fn a_child_says_what_its_kit_says(rt: HostRuntime) -> Result<(), Fail> {
    let alloc = rt.alloc();
    let rows: [(&[u8], u32, &[u8]); 5] = [
        (
            b"PREPARE\nCHECKPRESENT WORM--a\nGETCO",
            0,
            b"VERSION 1\nPREPARE-SUCCESS\nCHECKPRESENT-FAILURE WORM--a\n",
        ),
        (
            b"PREPARE\nTRANSFER STORE WORM--a f\n",
            2,
            b"VERSION 1\nPREPARE-SUCCESS\nPROGRESS 1\nPROGRESS 2\nTRANSFER-FAILURE STORE WORM--a \n",
        ),
        (
            b"TRANSFER STORE WORM--a f\n",
            1,
            b"VERSION 1\nPROGRESS 1\nTRANSFER-FAILURE STORE WORM--a not prepared\n",
        ),
        (
            b"VALUE x\nPREPARE\n",
            3,
            b"VERSION 1\nERROR unexpected message\n",
        ),
        (
            b"BOO\nPREPARE\n",
            0,
            b"VERSION 1\nUNSUPPORTED-REQUEST\nPREPARE-SUCCESS\n",
        ),
    ];
    for (says, lines, heard) in rows {
        let mut programs = KitPrograms::with_progress(&rt, alloc, Empties, lines);
        let left = said(&rt, alloc, &mut programs, says);
        drop(programs);
        assert!(rt; left?.as_slice() == heard);
    }
    Ok(())
}

#[test]
fn no_child_is_started_where_its_remote_finds_no_memory(rt: HostRuntime) -> Result<(), Fail> {
    let mut programs = KitPrograms::new(&rt, rt.alloc(), NoRemotes);
    let left = said(&rt, rt.alloc(), &mut programs, b"PREPARE\n");
    drop(programs);
    assert!(rt; left?.is_empty());
    Ok(())
}
