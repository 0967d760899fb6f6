// A directory remote that tells its calls, of which nothing is in memory.
ghost use Rattle.std.specs.Prelude.{◌≡◌, ◌∷◌, [], codes, All, Some};
ghost use Rattle.kit_serve.specs.Kit.Calls.{called};
ghost use Rattle.dir_remote.specs.Guard.Guards.{told_by};
ghost use Rattle.remote_dir_bin.specs.Following.{Follows};

use ann_key::{Key, KeyRef, NoMemory, Text};
use ann_outside::Desk;
use dir_remote::guard::{Guarded, Place};
use kit_async_model::Past;
use kit_serve::kit::{Asked, Availability, Call, Describe, Pair, Remote, Said, Values, Where};
use std::alloc::Global;
use std::marker::Model;

/// Hands each call on to a guarded directory remote, and tells it, for proofs alone.
///
/// Contracts see of it that remote and its calls. Whatever comes, these and what the remote's place and desk tell come of one
/// course of calls.
#[derive(Drop)]
pub struct Followed<P: Place, D: Desk> {
    alloc: Global,
    remote: Guarded<P, D>,
    calls: Past<Call>,
}

impl<P: Place, D: Desk> Model for Followed<P, D> {
    ghost use Rattle.dir_remote.specs.Guard.Guards.{told_by};
    ghost use Rattle.remote_dir_bin.specs.Following.{FollowedValue, Follows};

    ghost Value = { FollowedValue P D };

    ghost view = { λ f. record { remote = f.remote; calls = f.calls.items } };

    ghost invariant = { λ f. Follows f.remote.sweeps f.calls.items (told_by P.steps D.told f.remote) };
}

// Tells the call, if it found memory, and hands on what came of it.
fn note(
    calls: &mut Past<Call>,
    asked: Asked,
    said: Result<Said, NoMemory>,
) -> Result<Said, NoMemory>
    ensures calls { Some calls.new.items ≡ called (Some calls.old.items) asked result }
    ensures same { result ≡ said }
{
    match said {
        Ok(said) => {
            let call = Call { asked, said };
            *calls = calls.and(&call);
            let Call { asked, said } = call;
            drop(asked);
            Ok(said)
        }
        Err(NoMemory) => {
            drop(asked);
            Err(NoMemory)
        }
    }
}

impl<P: Place, D: Desk> Followed<P, D> {
    /// The remote, which tells no call yet. It takes no memory.
    pub fn new(alloc: Global, remote: Guarded<P, D>) -> Followed<P, D>
        ensures { result ≡ record { remote = remote; calls = [] } }
    {
        Followed {
            alloc,
            remote,
            calls: Past::new(),
        }
    }
}

impl<P: Place, D: Desk> Followed<P, D> {
    // What it keeps true, as a fact.
    fn follows(&self)
        ensures { Follows self.now.remote.sweeps self.now.calls (told_by P.steps D.told self.now.remote) }
    {
        let _ = &self.alloc;
    }
}

/// The calls of each, and what its place and its desk tell, come of one course of calls. It does nothing.
pub fn follow<P: Place, D: Desk>(remotes: &[Followed<P, D>])
    ensures { All (λ r. Follows r.remote.sweeps r.calls (told_by P.steps D.told r.remote)) remotes.now }
{
    for remote in remotes {
        remote.follows();
    }
}

impl<P: Place, D: Desk> Remote for Followed<P, D> {
    ghost settings = { λ r. codes "directory" ∷ [] };

    ghost calls = { λ r. Some r.calls };

    fn setting(&self, n: u32) -> Option<&str> {
        self.remote.setting(n)
    }

    fn prepare(&mut self, values: &Values) -> Result<Said, NoMemory> {
        let asked = Asked::Prepare(values.copy(self.alloc)?);
        let said = self.remote.prepare(values);
        note(&mut self.calls, asked, said)
    }

    fn initialize(&mut self, values: &Values) -> Result<Said, NoMemory> {
        let asked = Asked::Prepare(values.copy(self.alloc)?);
        let said = self.remote.initialize(values);
        note(&mut self.calls, asked, said)
    }

    fn store(&mut self, key: KeyRef<'_>, file: &str) -> Result<Said, NoMemory> {
        let asked = Asked::Store(Key::copy(self.alloc, key)?, Text::copy(self.alloc, file)?);
        let said = self.remote.store(key, file);
        note(&mut self.calls, asked, said)
    }

    fn retrieve(&mut self, key: KeyRef<'_>, file: &str) -> Result<Said, NoMemory> {
        let asked = Asked::Retrieve(Key::copy(self.alloc, key)?, Text::copy(self.alloc, file)?);
        let said = self.remote.retrieve(key, file);
        note(&mut self.calls, asked, said)
    }

    fn check(&mut self, key: KeyRef<'_>) -> Result<Said, NoMemory> {
        let asked = Asked::Check(Key::copy(self.alloc, key)?);
        let said = self.remote.check(key);
        note(&mut self.calls, asked, said)
    }

    fn remove(&mut self, key: KeyRef<'_>) -> Result<Said, NoMemory> {
        let asked = Asked::Remove(Key::copy(self.alloc, key)?);
        let said = self.remote.remove(key);
        note(&mut self.calls, asked, said)
    }
}

impl<P: Place, D: Desk> Describe for Followed<P, D> {
    ghost description = { λ r. ⟦<Guarded<P, D> as Describe>⟧.description r.remote };

    fn configs(&self, alloc: Global) -> Result<Vec<Pair>, NoMemory> {
        self.remote.configs(alloc)
    }

    fn cost(&self) -> Option<u64> {
        self.remote.cost()
    }

    fn availability(&self) -> Option<Availability> {
        self.remote.availability()
    }

    fn info(&self, alloc: Global) -> Result<Vec<Pair>, NoMemory> {
        self.remote.info(alloc)
    }

    fn whereis(&self, alloc: Global, key: KeyRef<'_>) -> Result<Where, NoMemory> {
        self.remote.whereis(alloc, key)
    }
}
