// The status of a real child, and streams of std that fail.
use crate::outside::calls::expect_count;
use ann_os::{OsInput, OsOutput, OsPrograms};
use ann_outside::{Failed, Programs, Sink, Source, StartError, Started};
use std::io;
use std::io::{ErrorKind, Read, Write};

#[test]
fn a_status_is_handed_on(rt: HostRuntime) -> Result<(), StartError> {
    let mut programs = OsPrograms::new(&rt);
    let Started {
        inlet: _,
        outlet: _,
        stub,
    } = programs.start("false")?;
    assert_eq!(rt; programs.finish(stub), Ok(1));
    Ok(())
}

// A stream that is interrupted, then takes or gives one byte, then fails, then takes or gives nothing.
#[derive(Drop)]
struct Flaky {
    calls: u8,
}

impl Flaky {
    fn next(&mut self) -> io::Result<usize> {
        self.calls = self.calls.saturating_add(1);
        match self.calls {
            1 => Err(io::Error::from(ErrorKind::Interrupted)),
            2 => Ok(1),
            3 => Err(io::Error::from(ErrorKind::Other)),
            _ => Ok(0),
        }
    }
}

impl Read for Flaky {
    fn read(&mut self, buf: &mut [u8]) -> io::Result<usize> {
        let count = self.next()?.min(buf.len());
        Ok(count)
    }
}

impl Write for Flaky {
    fn write(&mut self, piece: &[u8]) -> io::Result<usize> {
        let count = self.next()?.min(piece.len());
        Ok(count)
    }

    fn flush(&mut self) -> io::Result<()> {
        self.next()?;
        Ok(())
    }
}

#[test]
fn an_interrupted_call_is_tried_again(rt: HostRuntime) {
    let mut input = OsInput::new(Flaky { calls: 0 });
    let mut buf = [0; 4];
    expect_count(&rt, input.read(&mut buf), Ok(1));
    expect_count(&rt, input.read(&mut buf), Err(Failed));
    expect_count(&rt, input.read(&mut buf), Ok(0));

    let mut output = OsOutput::new(Flaky { calls: 0 });
    expect_count(&rt, output.write(&[1, 2]), Ok(1));
    assert!(rt; output.flush().is_err());
    expect_count(&rt, output.write(&[3]), Err(Failed));
    expect_count(&rt, output.write(&[]), Ok(0));
}
