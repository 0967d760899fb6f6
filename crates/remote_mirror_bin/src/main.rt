// The program `annex-remote-mirror`: several special remotes of git-annex as one. It talks to a host over its standard input and output,
// and starts the programs that serve the others.
// https://git-annex.branchable.com/design/external_special_remote_protocol/
#![tactic(auto)]

mod mirrored;

use ann_os::remote_words::{Wish, print, read_wish};
use ann_os::{OsErrors, OsInput, OsOutput};
use kit_serve::{Served, serve_described};
use mirrored::Mirrored;
use std::io::BufWriter;
use std::process::ExitCode;

const HELP: &[u8] = b"\
annex-remote-mirror: several special remotes of git-annex as one

A host starts it without words and talks to it over its standard input and output.
Its settings are `mirror1` to `mirror8`. Each is empty, or a program that serves a special
remote, and the settings of that remote as NAME=VALUE, with one space between each two.
A content is present where all of these remotes have it; it is retrieved from the first
that gives it.
";

const VERSION: &[u8] = b"annex-remote-mirror 0.1.0\n";

const USAGE: &[u8] = b"annex-remote-mirror: usage\n";

// Serves the mirror until the host is done, and then stops the programs that it started. The status to end with.
fn serve_mirror(rt: &HostRuntime) -> u8 {
    // A line goes out with its end, in one write.
    let Ok(lines) = BufWriter::new(rt.alloc(), rt.stdout()) else {
        return 7;
    };
    let mut input = OsInput::new(rt.stdin());
    let mut output = OsOutput::new(lines);
    let mirror = Mirrored::new(rt);
    let Served { status, remote } = serve_described(rt.alloc(), mirror, &mut input, &mut output);
    remote.finish();
    status
}

fn main(rt: HostRuntime) -> ExitCode {
    let mut out = OsOutput::new(rt.stdout());
    let status = match read_wish(&rt) {
        None => 7,
        Some(Wish::Help) => print(&mut out, HELP, 0),
        Some(Wish::Version) => print(&mut out, VERSION, 0),
        Some(Wish::Refused) => print(&mut OsErrors::new(rt.stderr()), USAGE, 2),
        Some(Wish::Serve) => serve_mirror(&rt),
    };
    ExitCode::from(status)
}
