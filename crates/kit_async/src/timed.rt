// Sources that can be asked whether a read would wait.
ghost use Rattle.std.specs.Prelude.{◌≡◌, true};

use ann_outside::{Failed, Source};

/// A source that can be asked whether a read of it would wait, so that who reads it can look at something else meanwhile.
pub trait Timed: Source {
    /// Whether a read would not wait: bytes have come, the end, or a fault. It may wait for one of them a while, half a second at most,
    /// which is not promised. Nothing is read.
    fn has_come(&mut self) -> bool
        requires { (Self.told self.old).is_open ≡ true }
        ensures { Self.told self.new ≡ Self.told self.old };
}

/// Any source as one that says at once that a read would not wait: so each read may.
#[derive(Drop)]
pub struct Untimed<S> {
    pub source: S,
}

impl<S: Source> Source for Untimed<S> {
    ghost told = { λ u. S.told u.source };

    fn read(&mut self, buf: &mut [u8]) -> Result<usize, Failed> {
        self.source.read(buf)
    }

    fn close(&mut self) {
        self.source.close();
    }
}

impl<S: Source> Timed for Untimed<S> {
    fn has_come(&mut self) -> bool {
        true
    }
}
