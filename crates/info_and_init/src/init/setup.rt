ghost use Rattle.std.specs.Prelude.{◌≡◌};
ghost use Rattle.info_and_init.specs.Init.Setups.{setup_for};

use journal_model::{Answer, Verdict};

/// What a setup came to.
#[derive(Clone, Copy, Debug, PartialEq, Eq)]
pub enum Setup {
    /// The remote said that it is set up.
    Initialized,
    /// It did not, for this reason.
    Stopped(Answer),
}

/// What the verdict of INITREMOTE makes of a setup.
pub fn setup_for(verdict: Verdict) -> Setup
    ensures { result ≡ setup_for verdict }
{
    match verdict {
        Verdict::Done { .. } => Setup::Initialized,
        Verdict::Failed { at } => Setup::Stopped(Answer::Failed { at }),
        Verdict::Absent { .. } => Setup::Stopped(Answer::Absent),
        Verdict::Unknown { at } => Setup::Stopped(Answer::Unknown { at }),
        Verdict::Unsupported { .. } => Setup::Stopped(Answer::Unsupported),
        Verdict::Ended { why } => Setup::Stopped(Answer::Ended { why }),
        Verdict::Unsent => Setup::Stopped(Answer::Unsent),
    }
}
