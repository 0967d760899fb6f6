ghost use Rattle.std.specs.Prelude.{◌≡◌, IfOk};

use ann_key::{NoMemory, Text};
use registers::Registers;
use std::alloc::Global;
use task_text::Tasks;
use task_text::chunk_log::NoteBook;

/// Who the remote is, to a child that asks: its UUID in lower case with hyphens, its name, and the git directory.
#[derive(Drop)]
pub struct Identity {
    pub uuid: Text,
    pub name: Text,
    pub gitdir: Text,
}

/// What a run begins with: its tasks, what is set, the chunks that remotes are known to have, who the remote is, and the
/// clock's answer in microseconds since 1970.
#[derive(Drop)]
pub struct Opening {
    pub tasks: Tasks,
    pub registers: Registers,
    pub notes: NoteBook,
    pub identity: Identity,
    pub stamp: u64,
    /// How often a task may be run again whose child was lost; at most 8.
    pub again: u32,
}

impl Identity {
    /// An equal identity.
    pub fn copy(&self, alloc: Global) -> Result<Identity, NoMemory>
        ensures { IfOk result (λ i. i ≡ self.now) }
    {
        Ok(Identity {
            uuid: Text::copy(alloc, self.uuid.view())?,
            name: Text::copy(alloc, self.name.view())?,
            gitdir: Text::copy(alloc, self.gitdir.view())?,
        })
    }
}

impl Opening {
    /// An equal opening.
    pub fn copy(&self, alloc: Global) -> Result<Opening, NoMemory>
        ensures { IfOk result (λ o. o ≡ self.now) }
    {
        let tasks = self.tasks.copy(alloc)?;
        let registers = self.registers.copy()?;
        let notes = self.notes.copy()?;
        let identity = self.identity.copy(alloc)?;
        Ok(Opening {
            tasks,
            registers,
            notes,
            identity,
            stamp: self.stamp,
            again: self.again,
        })
    }
}
