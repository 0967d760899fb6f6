// Bytes under names, in memory.
ghost use Rattle.std.specs.Prelude.{◌≡◌, [], option_copied, IfOk, OnOk};
ghost use Rattle.pair_kit.specs.Shelves.{content, without, with_item, items_of};

use ann_key::{Bytes, NoMemory, Text};
use std::alloc::Global;
use std::collections::BTreeMap;
use std::marker::Model;

/// Bytes under names. Contracts see the names with their bytes, in the rising byte order of the names.
#[derive(Drop)]
pub struct Shelf {
    entries: BTreeMap<Vec<u8>, Vec<u8>>,
}

impl Model for Shelf {
    ghost use Rattle.registers.specs.Tables.{Rises, texts_of};
    ghost use Rattle.pair_kit.specs.Shelves.{Items};

    ghost Value = { Items };

    ghost view = { λ s. texts_of s.entries.entries };

    ghost invariant = { λ s. Rises (texts_of s.entries.entries) };
}

impl Shelf {
    /// A shelf with nothing. It takes no memory.
    pub fn new(alloc: Global) -> Shelf
        ensures { result ≡ [] }
    {
        Shelf {
            entries: BTreeMap::new(alloc),
        }
    }

    /// A shelf with these files, of which the last of a name counts.
    pub fn of_files(alloc: Global, files: Vec<(Text, Bytes)>) -> Result<Shelf, NoMemory>
        ensures { IfOk result (λ shelf. shelf ≡ items_of files.items) }
    {
        let mut shelf = Shelf::new(alloc);
        for file in files {
            let (name, bytes) = file;
            shelf.put(Bytes::copy(alloc, name.view().as_bytes())?, bytes)?;
        }
        Ok(shelf)
    }

    /// The bytes under the name, if there are any.
    pub fn find(&self, name: &[u8]) -> Option<&[u8]>
        ensures { option_copied result ≡ content name.now self.now }
    {
        match self.entries.get(name) {
            Some(bytes) => Some(bytes.as_slice()),
            None => None,
        }
    }

    /// Puts the bytes under the name, in place of what stood there.
    pub fn put(&mut self, name: Bytes, bytes: Bytes) -> Result<(), NoMemory>
        ensures { OnOk result (self.new ≡ with_item name bytes self.old) }
    {
        let name = name.into_vec();
        let bytes = bytes.into_vec();
        self.entries.insert(name, bytes)?;
        Ok(())
    }

    /// Takes away what stands under the name.
    pub fn remove(&mut self, name: &[u8])
        ensures { self.new ≡ without name.now self.old }
    {
        self.entries.remove(name);
    }

    /// A copy of the bytes under the name, if there are any.
    pub fn copy_of(&self, alloc: Global, name: &[u8]) -> Result<Option<Bytes>, NoMemory>
        ensures { IfOk result (λ copy. copy ≡ content name.now self.now) }
    {
        match self.find(name) {
            Some(bytes) => Ok(Some(Bytes::copy(alloc, bytes)?)),
            None => Ok(None),
        }
    }
}
