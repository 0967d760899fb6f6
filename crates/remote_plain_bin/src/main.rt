// The program `annex-remote-plain`: it stands between a host and a remote of git-annex, and says what the remote says in plain words.
// https://git-annex.branchable.com/design/external_special_remote_protocol/
#![tactic(auto)]

ghost use Rattle.std.specs.Prelude.{◌≡◌, true};

mod passing;
mod program;

use ann_os::remote_words::{Wish, print, read_wish};
use ann_os::{OsErrors, OsInput, OsOutput, OsPrograms};
use ann_outside::{Programs, Sink, Source, StartError, Started};
use passing::{Shared, hear_remote, last_status, remote_status, start_hearing};
use program::named_program;
use std::alloc::{AllocError, AllocGlobal, Global};
use std::io::BufWriter;
use std::marker::Send;
use std::process::{ExitCode, Processes, SystemProcess};
use std::sync::Wait;
use std::thread::Threads;

const HELP: &[u8] = b"\
annex-remote-plain: another remote, in plain words

A host starts it without words and talks to it over its standard input and output.
It starts the program that ANNEX_REMOTE_PROGRAM names, and passes the lines on both ways.
";

const VERSION: &[u8] = b"annex-remote-plain 0.1.0\n";

const USAGE: &[u8] = b"annex-remote-plain: it takes no words\n";

const UNNAMED: &[u8] =
    b"annex-remote-plain: ANNEX_REMOTE_PROGRAM must name a program, without arguments\n";

const NOT_STARTED: &[u8] =
    b"annex-remote-plain: the program that ANNEX_REMOTE_PROGRAM names can't be started\n";

// Passes the lines on both ways until the remote has ended, and answers the status to end with.
fn pass_on<
    R: Threads + Wait + Copy + Send + 'static,
    I: Sink + Send + Drop + 'static,
    O: Source + Drop,
    T: Drop,
    P: Programs<Inlet = I, Outlet = O, Stub = T>,
    S: Source + Send + Drop + 'static,
    W: Sink,
>(rt: R, alloc: Global, programs: &mut P, started: Started<I, O, T>, host: S, out: &mut W) -> u8
    requires inlet { (I.told started.inlet).is_open ≡ true }
    requires outlet { (O.told started.outlet).is_open ≡ true }
    requires host { (S.told host).is_open ≡ true }
    requires out { (W.told out.old).is_open ≡ true }
{
    let Started {
        inlet,
        mut outlet,
        stub,
    } = started;
    let Ok(shared) = Shared::new(alloc) else {
        return 7;
    };
    let Ok(theirs) = shared.again() else {
        return 7;
    };
    if !start_hearing(rt, alloc, theirs, host, inlet) {
        return 7;
    }
    let Ok(end) = hear_remote(rt, alloc, &shared, &mut outlet, out) else {
        return 7;
    };
    match remote_status(end) {
        Some(status) => status,
        None => {
            let code = programs.finish(stub);
            last_status(shared.asked(), code)
        }
    }
}

// Starts the program, and stands between it and the host.
fn serve<
    R: Threads + Wait + Processes<Started = SystemProcess> + AllocGlobal + Copy + Send + 'static,
    S: Source + Send + Drop + 'static,
    W: Sink,
    E: Sink,
>(rt: R, program: &str, host: S, out: &mut W, err: &mut E) -> u8
    requires host { (S.told host).is_open ≡ true }
    requires out { (W.told out.old).is_open ≡ true }
    requires err { (E.told err.old).is_open ≡ true }
{
    let mut programs = OsPrograms::new(rt);
    match programs.start(program) {
        Ok(started) => pass_on(rt, rt.alloc(), &mut programs, started, host, out),
        Err(StartError::NoMemory) => 7,
        Err(StartError::Failed) => print(err, NOT_STARTED, 3),
    }
}

fn main(rt: HostRuntime) -> ExitCode {
    let mut out = OsOutput::new(rt.stdout());
    let mut err = OsErrors::new(rt.stderr());
    let status = match read_wish(&rt) {
        None => 7,
        Some(Wish::Help) => print(&mut out, HELP, 0),
        Some(Wish::Version) => print(&mut out, VERSION, 0),
        Some(Wish::Refused) => print(&mut err, USAGE, 2),
        Some(Wish::Serve) => match named_program(&rt) {
            Err(AllocError) => 7,
            Ok(None) => print(&mut err, UNNAMED, 2),
            // A line goes out with its end, in one write.
            Ok(Some(program)) => match BufWriter::new(rt.alloc(), rt.stdout()) {
                Ok(lines) => serve(
                    rt,
                    program.as_str(),
                    OsInput::new(rt.stdin()),
                    &mut OsOutput::new(lines),
                    &mut err,
                ),
                Err(_) => 7,
            },
        },
    };
    ExitCode::from(status)
}
