// This process's standard input, which can be asked whether a read would wait.
ghost use Rattle.std.specs.Prelude.{◌≡◌, true};

use ann_os::OsInput;
use ann_outside::{Failed, Source};
use kit_async::Timed;
use libc::net::{POLLIN, poll};
use libc::types::pollfd;
use std::io::Read;
use std::os::fd::{AsRawFd, RawFd};

// In thousandths of a second. A kit that is broken off goes on so long at most, and one that waits wakes so often.
const LONGEST_WAIT: i32 = 500;

/// A source over a reader of std that keeps no bytes back, as standard input, and whose descriptor can be polled.
#[derive(Drop)]
pub struct PolledInput<R> {
    input: OsInput<R>,
    descriptor: RawFd,
}

impl<R: Read + AsRawFd + Drop> PolledInput<R> {
    /// An open source over the reader.
    pub fn new(reader: R) -> PolledInput<R>
        ensures { (⟦<PolledInput<R> as Source>⟧.told result).is_open ≡ true }
    {
        let descriptor = reader.as_raw_fd();
        PolledInput {
            input: OsInput::new(reader),
            descriptor,
        }
    }
}

impl<R: Read + Drop> Source for PolledInput<R> {
    ghost told = { λ s. ⟦<OsInput<R> as Source>⟧.told s.input };

    fn read(&mut self, buf: &mut [u8]) -> Result<usize, Failed> {
        self.input.read(buf)
    }

    fn close(&mut self) {
        self.input.close();
    }
}

impl<R: Read + Drop> Timed for PolledInput<R> {
    // 0 says that nothing has come. An end and a fault count as what has come; and where poll itself fails, a read says more.
    fn has_come(&mut self) -> bool {
        let mut asked = [pollfd {
            fd: self.descriptor,
            events: POLLIN,
            revents: 0,
        }];
        poll(&mut asked, LONGEST_WAIT) != 0
    }
}
