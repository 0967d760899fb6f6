ghost use Rattle.std.specs.Prelude.{[], None};

use ann_key::{KeyRef, NoMemory};
use kit_serve::kit::{Remote, Said, Values};

/// The smallest remote: it has no setting, keeps nothing, and says so.
#[derive(Clone, Copy)]
pub struct Empty;

impl Remote for Empty {
    ghost settings = { λ _. [] };

    ghost calls = { λ _. None };

    fn setting(&self, _n: u32) -> Option<&str> {
        None
    }

    fn prepare(&mut self, _values: &Values) -> Result<Said, NoMemory> {
        Ok(Said::Yes)
    }

    fn store(&mut self, _key: KeyRef<'_>, _file: &str) -> Result<Said, NoMemory> {
        Ok(Said::No)
    }

    fn retrieve(&mut self, _key: KeyRef<'_>, _file: &str) -> Result<Said, NoMemory> {
        Ok(Said::No)
    }

    fn check(&mut self, _key: KeyRef<'_>) -> Result<Said, NoMemory> {
        Ok(Said::No)
    }

    fn remove(&mut self, _key: KeyRef<'_>) -> Result<Said, NoMemory> {
        Ok(Said::Yes)
    }
}
