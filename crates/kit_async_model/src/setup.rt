// What doesn't change while a kit serves.
ghost use Rattle.std.specs.Prelude.{◌≡◌, IfOk, None, true, option_copied, slice_get};

use crate::about::About;
use ann_key::{Bytes, NoMemory};
use kit_serve::kit::{Remote, Values};
use std::alloc::Global;

/// The names of the first remote's settings, how many remotes there are, and what is said of them, if anything is.
#[derive(Drop)]
pub struct Setup {
    /// Whether the journal is kept. Else its entries are gone once they are noted, and proofs alone see them.
    pub kept: bool,
    pub settings: Values,
    pub remotes: u32,
    pub about: Option<About>,
}

// The names of the remote's settings, in their order.
fn names<R: Remote>(alloc: Global, remote: &R) -> Result<Values, NoMemory>
    ensures { IfOk result (λ names. names ≡ R.settings remote.now) }
{
    let mut names = Vec::new(alloc);
    for n in 0..u32::MAX {
        match remote.setting(n) {
            Some(name) => names.push(Bytes::copy(alloc, name.as_bytes())?)?,
            None => return Ok(Values::new(names)),
        }
    }
    // There are never so many.
    Err(NoMemory)
}

impl Setup {
    /// That of so many remotes, of which this is the first. Nothing is told about them, and the journal is kept.
    pub fn of<R: Remote>(alloc: Global, first: &R, remotes: u32) -> Result<Setup, NoMemory>
        ensures settings { IfOk result (λ s. s.settings ≡ R.settings first.now) }
        ensures remotes { IfOk result (λ s. s.remotes ≡ remotes) }
        ensures about { IfOk result (λ s. s.about ≡ None) }
        ensures kept { IfOk result (λ s. s.kept ≡ true) }
    {
        let settings = names(alloc, first)?;
        Ok(Setup {
            kept: true,
            settings,
            remotes,
            about: None,
        })
    }

    /// The name of the setting of that number, from 0.
    pub fn name(&self, n: usize) -> Option<&[u8]>
        ensures { option_copied result ≡ slice_get self.now.settings n }
    {
        match self.settings.view().get(n) {
            Some(name) => Some(name.view()),
            None => None,
        }
    }
}
