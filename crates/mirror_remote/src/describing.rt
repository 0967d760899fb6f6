// What a mirror says of itself.
ghost use Rattle.std.specs.Prelude.{◌≡◌, ◌++◌, ◌∷◌, [], IfOk, OnOk};
ghost use Rattle.kit_serve.specs.declared.kit.describe.Where.TheVariants.{Untold};
ghost use Rattle.mirror_remote.specs.Describing.{configs, config_of};

use crate::lasting::LastingMirror;
use crate::mirror::MirrorRemote;
use ann_key::{Bytes, KeyRef, NoMemory};
use ann_outside::Programs;
use kit_serve::kit::{Availability, Describe, Pair, Where};
use std::alloc::Global;

const MEANING: &[u8] = b"a program that serves a remote, and its settings as NAME=VALUE";

// A setting with its meaning.
fn config(alloc: Global, name: &[u8]) -> Result<Pair, NoMemory>
    ensures { IfOk result (λ p. p ≡ config_of name.now) }
{
    let name = Bytes::copy(alloc, name)?;
    let text = Bytes::copy(alloc, MEANING)?;
    Ok(Pair { name, text })
}

fn add(alloc: Global, pairs: &mut Vec<Pair>, name: &[u8]) -> Result<(), NoMemory>
    ensures { OnOk result (pairs.new.items ≡ pairs.old.items ++ config_of name.now ∷ []) }
{
    Ok(pairs.push(config(alloc, name)?)?)
}

// It borrows the list: a function that owns one and returns early so often takes long to check.
fn add_all(alloc: Global, pairs: &mut Vec<Pair>) -> Result<(), NoMemory>
    requires { pairs.old.items ≡ [] }
    ensures { OnOk result (pairs.new.items ≡ configs) }
{
    add(alloc, pairs, b"mirror1")?;
    add(alloc, pairs, b"mirror2")?;
    add(alloc, pairs, b"mirror3")?;
    add(alloc, pairs, b"mirror4")?;
    add(alloc, pairs, b"mirror5")?;
    add(alloc, pairs, b"mirror6")?;
    add(alloc, pairs, b"mirror7")?;
    add(alloc, pairs, b"mirror8")
}

impl<P: Programs> Describe for MirrorRemote<P> {
    ghost use Rattle.std.specs.Prelude.{None, []};

    ghost description = { λ m. record { configs = configs; cost = None; availability = None; info = []; whereis = λ _. Untold } };

    fn configs(&self, alloc: Global) -> Result<Vec<Pair>, NoMemory> {
        let mut pairs = Vec::new(alloc);
        add_all(alloc, &mut pairs)?;
        Ok(pairs)
    }

    fn cost(&self) -> Option<u64> {
        None
    }

    fn availability(&self) -> Option<Availability> {
        None
    }

    fn info(&self, alloc: Global) -> Result<Vec<Pair>, NoMemory> {
        Ok(Vec::new(alloc))
    }

    fn whereis(&self, _alloc: Global, _key: KeyRef<'_>) -> Result<Where, NoMemory> {
        Ok(Where::Untold)
    }
}

impl<P: Programs> Describe for LastingMirror<P> {
    ghost description = { λ m. ⟦<MirrorRemote<P> as Describe>⟧.description m.mirror };

    fn configs(&self, alloc: Global) -> Result<Vec<Pair>, NoMemory> {
        self.mirror.configs(alloc)
    }

    fn cost(&self) -> Option<u64> {
        self.mirror.cost()
    }

    fn availability(&self) -> Option<Availability> {
        self.mirror.availability()
    }

    fn info(&self, alloc: Global) -> Result<Vec<Pair>, NoMemory> {
        self.mirror.info(alloc)
    }

    fn whereis(&self, alloc: Global, key: KeyRef<'_>) -> Result<Where, NoMemory> {
        self.mirror.whereis(alloc, key)
    }
}
