// Who the remote is, by the words.
ghost use Rattle.std.specs.Prelude.{◌≡◌, IfOk};
ghost use Rattle.cli_words.specs.Identities.{init_identity, nobody, run_identity};

use crate::command::{InitWords, RunWords};
use ann_key::{NoMemory, Text};
use journal_model::Identity;
use std::alloc::Global;

/// An identity that no repository has: the nil UUID, `remote` and `.git`.
pub fn nobody(alloc: Global) -> Result<Identity, NoMemory>
    ensures { IfOk result (λ i. i ≡ nobody) }
{
    Ok(Identity {
        uuid: Text::copy(alloc, "00000000-0000-0000-0000-000000000000")?,
        name: Text::copy(alloc, "remote")?,
        gitdir: Text::copy(alloc, ".git")?,
    })
}

impl InitWords {
    /// The identity with that UUID.
    pub fn identity(&self, alloc: Global) -> Result<Identity, NoMemory>
        ensures { IfOk result (λ i. i ≡ init_identity self.now) }
    {
        Ok(Identity {
            uuid: Text::copy(alloc, self.uuid.view())?,
            ..nobody(alloc)?
        })
    }
}

impl RunWords {
    /// The identity that the words give.
    pub fn identity(&self, alloc: Global) -> Result<Identity, NoMemory>
        ensures { IfOk result (λ i. i ≡ run_identity self.now) }
    {
        Ok(Identity {
            uuid: Text::copy(alloc, self.uuid.view())?,
            name: Text::copy(alloc, self.name.view())?,
            gitdir: Text::copy(alloc, self.gitdir.view())?,
        })
    }
}
