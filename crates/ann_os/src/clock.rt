// The clock of this machine.
ghost use Rattle.std.specs.Prelude.{◌≡◌, None};

use ann_outside::Clock;
use std::time::SystemTime;

/// The system's clock. One that can't be read, or stands before 1970, answers 0.
#[derive(Drop)]
pub struct OsClock<R> {
    rt: R,
}

impl<R: std::rt::Clock> OsClock<R> {
    /// The clock of that runtime.
    pub fn new(rt: R) -> OsClock<R>
        ensures { ⟦<OsClock<R> as Clock>⟧.answer result ≡ None }
    {
        OsClock { rt }
    }
}

impl<R: std::rt::Clock> Clock for OsClock<R> {
    ghost answer = { λ s. None };

    fn now(&mut self) -> u64 {
        let Ok(now) = SystemTime::now(&self.rt) else {
            return 0;
        };
        let Ok(since) = now.duration_since(SystemTime::UNIX_EPOCH) else {
            return 0;
        };
        u64::try_from(since.as_micros()).unwrap_or(u64::MAX)
    }
}
