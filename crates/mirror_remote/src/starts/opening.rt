ghost use Rattle.std.specs.Prelude.{◌≡◌, [], IfOk};
ghost use Rattle.mirror_remote.specs.Starts.Openings.{mirror_identity, mirror_opening};

use ann_key::{NoMemory, Text};
use host_core::Core;
use journal_model::{Identity, Opening};
use registers::Registers;
use std::alloc::Global;
use task_text::Tasks;
use task_text::chunk_log::NoteBook;

fn identity(alloc: Global) -> Result<Identity, NoMemory>
    ensures { IfOk result (λ i. i ≡ mirror_identity) }
{
    Ok(Identity {
        uuid: Text::copy(alloc, "00000000-0000-0000-0000-000000000000")?,
        name: Text::copy(alloc, "mirror")?,
        gitdir: Text::copy(alloc, ".git")?,
    })
}

// What a child begins with, of which these registers are set.
fn opening(alloc: Global, registers: &Registers) -> Result<Opening, NoMemory>
    ensures { IfOk result (λ o. o ≡ mirror_opening registers.now) }
{
    Ok(Opening {
        tasks: Tasks::new(Vec::new(alloc)),
        registers: registers.copy()?,
        notes: NoteBook::new(alloc),
        identity: identity(alloc)?,
        stamp: 0,
        again: 0,
    })
}

/// The core of a child, of which these registers are set. Its journal is empty.
#[tactic(auto, using(crate::proofs::StartsLemmas::MayBegin::may_begin, crate::proofs::StartsLemmas::MayBegin::no_tasks))]
pub(crate) fn new_core(alloc: Global, registers: &Registers) -> Result<Core, NoMemory>
    ensures opening { IfOk result (λ c. c.opening ≡ mirror_opening registers.now) }
    ensures empty { IfOk result (λ c. c.journal ≡ []) }
{
    let opening = opening(alloc, registers)?;
    Core::new(alloc, opening)
}
