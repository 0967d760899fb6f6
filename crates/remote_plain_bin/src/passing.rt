// The two ways between a host and a remote: the remote's lines in this thread, the host's in one of their own.
//
// A thread that waits for the host isn't joined: once the remote has ended, this process ends, and the thread with it.
ghost use Rattle.std.specs.Prelude.{◌≡◌, true};

use ann_outside::{Failed, Sink, Source};
use plain_lines::carry::{End, FromHost, FromRemote, carry};
use plain_lines::words::Plain;
use std::alloc::{AllocError, Global};
use std::marker::Send;
use std::sync::atomic::{AtomicU64, Ordering};
use std::sync::{Arc, Mutex, Wait};
use std::thread;
use std::thread::Threads;

/// What both ways share: the machine, and the status that the host's way asks for, where 0 asks for none.
#[derive(Drop)]
pub(crate) struct Shared {
    plain: Arc<Mutex<Plain>, Global>,
    asked: Arc<AtomicU64, Global>,
}

impl Shared {
    pub(crate) fn new(alloc: Global) -> Result<Shared, AllocError> {
        Ok(Shared {
            plain: Arc::new(alloc, Mutex::new(Plain::new(alloc)))?,
            asked: Arc::new(alloc, AtomicU64::new(0))?,
        })
    }

    /// The same, for the other thread.
    pub(crate) fn again(&self) -> Result<Shared, AllocError> {
        Ok(Shared {
            plain: Arc::try_clone(&self.plain)?,
            asked: Arc::try_clone(&self.asked)?,
        })
    }

    pub(crate) fn asked(&self) -> u8 {
        u8::try_from(self.asked.load(Ordering::SeqCst)).unwrap_or(1)
    }
}

// The status that an end of the host's lines asks for: a host that is gone, or a remote that hears no more, asks for none.
fn host_status(end: End) -> u64 {
    match end {
        End::Long => 1,
        End::Memory => 7,
        _ => 0,
    }
}

/// The status that an end of the remote's lines asks for; None where the remote's own is to be given.
pub(crate) fn remote_status(end: End) -> Option<u8> {
    match end {
        End::Eof => None,
        End::Long => Some(1),
        End::ReadFault => Some(4),
        End::WriteFault => Some(5),
        End::Memory => Some(7),
    }
}

/// The child's status; 255 where a signal ended it, 4 where it isn't known. What the host's way asked for goes before it.
pub(crate) fn last_status(asked: u8, code: Result<i32, Failed>) -> u8 {
    match code {
        _ if asked != 0 => asked,
        Ok(code) => u8::try_from(code).unwrap_or(255),
        Err(Failed) => 4,
    }
}

// Carries the host's lines to the remote, and then closes its input, so that it ends.
fn hear_host<R: Wait, S: Source, W: Sink>(
    rt: R,
    alloc: Global,
    shared: Shared,
    mut host: S,
    mut inlet: W,
)
where
    R: Drop,
    S: Drop,
    W: Drop,
    requires host { (S.told host).is_open ≡ true }
    requires inlet { (W.told inlet).is_open ≡ true }
{
    let Shared { plain, asked } = shared;
    let mut way = FromHost::new(rt, plain);
    let end = carry(alloc, &mut way, &mut host, &mut inlet);
    asked.store(host_status(end), Ordering::SeqCst);
    inlet.close();
}

/// Hears the host in a thread of its own; false where none can be made.
pub(crate) fn start_hearing<
    R: Threads + Wait + Copy + Send + 'static,
    S: Source + Send + Drop + 'static,
    W: Sink + Send + Drop + 'static,
>(rt: R, alloc: Global, shared: Shared, host: S, inlet: W) -> bool
    requires host { (S.told host).is_open ≡ true }
    requires inlet { (W.told inlet).is_open ≡ true }
{
    let hears = move || -> ()
        requires { ((S.told host).is_open ≡ true) × ((W.told inlet).is_open ≡ true) }
    { hear_host(rt, alloc, shared, host, inlet) };
    thread::spawn(&rt, hears).is_ok()
}

/// Carries the remote's lines to the host.
pub(crate) fn hear_remote<R: Wait + Copy, S: Source, W: Sink>(
    rt: R,
    alloc: Global,
    shared: &Shared,
    outlet: &mut S,
    out: &mut W,
) -> Result<End, AllocError>
    requires outlet { (S.told outlet.old).is_open ≡ true }
    requires out { (W.told out.old).is_open ≡ true }
{
    let mut way = FromRemote::new(rt, Arc::try_clone(&shared.plain)?);
    Ok(carry(alloc, &mut way, outlet, out))
}
