// When a line was written.
ghost use Rattle.std.specs.Prelude.{◌≡◌, ◌<◌, IfSome};

use crate::chunk_log::parts::{nanos, seconds};
use ann_key::len_before;

/// A time since the Unix epoch: whole seconds, and billionths of a second below 1,000,000,000.
#[derive(Clone, Copy, Debug, PartialEq, Eq, PartialOrd, Ord)]
pub struct Stamp {
    pub seconds: u64,
    pub nanos: u32,
}

impl Stamp {
    ghost use Rattle.task_text.specs.ChunkLog.Stamps.{stamp_in, stamp_in_body};

    /// The stamp that the text spells, as in `1287290776.765152s`.
    pub(super) fn read(text: &[u8]) -> Option<Stamp>
        ensures value { result ≡ stamp_in text.now }
        ensures small { IfSome result (λ stamp. stamp.nanos < 1000000000) }
    {
        match text {
            [body @ .., b's'] => Stamp::read_body(body),
            _ => None,
        }
    }

    fn read_body(body: &[u8]) -> Option<Stamp>
        ensures value { result ≡ stamp_in_body body.now }
        ensures small { IfSome result (λ stamp. stamp.nanos < 1000000000) }
    {
        let dot = len_before(body, b'.');
        match seconds(&body[..dot]) {
            Some(seconds) => match nanos(&body[dot..]) {
                Some(nanos) => Some(Stamp { seconds, nanos }),
                None => None,
            },
            None => None,
        }
    }
}
