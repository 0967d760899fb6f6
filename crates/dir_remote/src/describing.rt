// What a directory remote says of itself.
ghost use Rattle.std.specs.Prelude.{◌≡◌, [], IsTrue, IfOk};
ghost use Rattle.std.specs.List.{list_all};
ghost use Rattle.kit_serve.specs.Kit.Descriptions.{is_config, is_pair};
ghost use Rattle.dir_remote.specs.Describing.{configs, info_of};
ghost use Rattle.kit_serve.specs.declared.kit.describe.Availability.TheVariants.{Local};
ghost use Rattle.kit_serve.specs.declared.kit.describe.Where.TheVariants.{Untold};

use crate::remote::DirRemote;
use ann_key::{Bytes, KeyRef, NoMemory};
use ann_outside::Desk;
use kit_serve::kit::{Availability, Describe, Pair, Where};
use std::alloc::Global;

const MEANING: &[u8] = b"the folder in which the contents of keys are kept";

fn pair(alloc: Global, name: &[u8], text: &[u8]) -> Result<Pair, NoMemory>
    ensures { IfOk result (λ p. p ≡ record { name = name.now; text = text.now }) }
{
    let name = Bytes::copy(alloc, name)?;
    let text = Bytes::copy(alloc, text)?;
    Ok(Pair { name, text })
}

impl<D: Desk> Describe for DirRemote<D> {
    ghost use Rattle.std.specs.Prelude.{Some};

    ghost description = { λ r. record { configs = configs; cost = Some 100; availability = Some Local; info = info_of r.directory; whereis = λ _. Untold } };

    fn configs(&self, alloc: Global) -> Result<Vec<Pair>, NoMemory> {
        let mut pairs = Vec::new(alloc);
        pairs.push(pair(alloc, b"directory", MEANING)?)?;
        Ok(pairs)
    }

    fn cost(&self) -> Option<u64> {
        Some(100)
    }

    fn availability(&self) -> Option<Availability> {
        Some(Availability::Local)
    }

    fn info(&self, alloc: Global) -> Result<Vec<Pair>, NoMemory> {
        let mut pairs = Vec::new(alloc);
        if let Some(directory) = self.directory() {
            pairs.push(pair(alloc, b"directory", directory.as_bytes())?)?;
        }
        Ok(pairs)
    }

    fn whereis(&self, _alloc: Global, _key: KeyRef<'_>) -> Result<Where, NoMemory> {
        Ok(Where::Untold)
    }
}
