// The program `annex-remote-dir`: a directory as a special remote of git-annex. It talks to a host over its standard input and output.
// https://git-annex.branchable.com/design/external_special_remote_protocol/
#![tactic(auto)]

mod following;
mod laws;
mod polled;
mod serving;

ghost use Rattle.std.specs.Prelude.{◌≡◌, vec_len, IfOk};

use crate::polled::PolledInput;
use crate::serving::{Moment, Seat, serve};
use ann_key::NoMemory;
use ann_os::remote_words::{Wish, print, read_wish};
use ann_os::{OsClock, OsDesk, OsDesks, OsErrors, OsOutput};
use ann_outside::{Clock, Desks};
use dir_remote::guard::OsPlace;
use kit_async::BoundedEnd;
use std::io::BufWriter;
use std::process::ExitCode;
use std::rt::Env;
use std::{env, process};

const HELP: &[u8] = b"\
annex-remote-dir: a directory as a special remote of git-annex

A host starts it without words and talks to it over its standard input and output.
Its one setting is `directory`, the folder in which the contents of keys are kept. The setup
makes it, leaves a small file .annex-remote-dir in it, and has the host keep its whole path.
Where the folder is missing or empty, its disk may not be mounted: then each request fails,
and nothing is made.
It says that a content is stored when it is on the disk. Where the environment has
ANNEX_REMOTE_DIR_SYNC=0 it doesn't wait for the disk: it is faster, and a loss of power may
take what was stored last.
";

const VERSION: &[u8] = b"annex-remote-dir 0.1.0\n";

const USAGE: &[u8] = b"annex-remote-dir: usage\n";

// Whether a store waits for the disk.
fn waits<R: Env + AllocGlobal>(rt: &R) -> bool {
    match env::var(rt, "ANNEX_REMOTE_DIR_SYNC") {
        Ok(value) => value.as_str() != "0",
        Err(_) => true,
    }
}

// A remote's own folders and files, of the desks' number.
fn seat<'a>(
    rt: &'a HostRuntime,
    desks: &mut OsDesks<&'a HostRuntime>,
    number: u32,
) -> Result<Seat<OsPlace<&'a HostRuntime>, OsDesk<&'a HostRuntime>>, NoMemory> {
    let place = OsPlace::new(rt, waits(rt));
    let desk = desks.desk(number)?;
    Ok(Seat { place, desk })
}

// Four, so that so many requests are worked on at the same time.
fn seats(
    rt: &HostRuntime,
) -> Result<Vec<Seat<OsPlace<&HostRuntime>, OsDesk<&HostRuntime>>>, NoMemory>
    ensures { IfOk result (λ seats. vec_len seats ≡ 4) }
{
    let desks = if waits(rt) {
        OsDesks::new(rt)
    } else {
        OsDesks::unsynced(rt)
    };
    let mut desks = desks.without_folders();
    let mut seats = Vec::with_capacity(rt.alloc(), 4)?;
    seats.push_reserved(seat(rt, &mut desks, 1)?);
    seats.push_reserved(seat(rt, &mut desks, 2)?);
    seats.push_reserved(seat(rt, &mut desks, 3)?);
    seats.push_reserved(seat(rt, &mut desks, 4)?);
    Ok(seats)
}

// No other process of this machine has both.
fn moment(rt: &HostRuntime) -> Moment {
    Moment {
        process: process::id(rt.process()),
        micros: OsClock::new(rt).now(),
    }
}

fn status<K, S, W>(end: &Result<BoundedEnd<K, S, W>, NoMemory>) -> u8 {
    match end {
        Ok(end) => end.status,
        Err(NoMemory) => 7,
    }
}

fn main(rt: HostRuntime) -> ExitCode {
    let status = match read_wish(&rt) {
        None => 7,
        Some(Wish::Help) => print(&mut OsOutput::new(rt.stdout()), HELP, 0),
        Some(Wish::Version) => print(&mut OsOutput::new(rt.stdout()), VERSION, 0),
        Some(Wish::Refused) => print(&mut OsErrors::new(rt.stderr()), USAGE, 2),
        // A line goes out with its end, in one write.
        Some(Wish::Serve) => match (seats(&rt), BufWriter::new(rt.alloc(), rt.stdout())) {
            (Ok(seats), Ok(lines)) => {
                let input = PolledInput::new(rt.stdin());
                let output = OsOutput::new(lines);
                let end = serve(&rt, rt.alloc(), moment(&rt), seats, input, output);
                let status = status(&end);
                drop(end);
                status
            }
            _ => 7,
        },
    };
    ExitCode::from(status)
}
