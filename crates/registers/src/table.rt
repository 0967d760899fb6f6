// Texts under names.
ghost use Rattle.std.specs.Prelude.{◌≡◌, [], IfOk, OnOk, OnErr, option_map, slice_get, length, map};
ghost use Rattle.registers.specs.Tables.{text_at, put, without};

use ann_key::NoMemory;
use std::alloc::Global;
use std::collections::BTreeMap;
use std::marker::Model;

/// Texts under names, in the rising byte order of the names.
#[derive(Drop)]
pub(crate) struct Table {
    entries: BTreeMap<Vec<u8>, Vec<u8>>,
}

impl Model for Table {
    ghost use Rattle.registers.specs.Tables.{Texts, Rises, texts_of};

    ghost Value = { Texts };

    ghost view = { λ t. texts_of t.entries.entries };

    ghost invariant = { λ t. Rises (texts_of t.entries.entries) };
}

impl Table {
    pub(crate) fn new(alloc: Global) -> Table
        ensures { result ≡ [] }
    {
        Table {
            entries: BTreeMap::new(alloc),
        }
    }

    pub(crate) fn get(&self, name: &[u8]) -> &[u8]
        ensures { result.now ≡ text_at self.now name.now }
    {
        match self.entries.get(name) {
            Some(value) => value.as_slice(),
            None => &[],
        }
    }

    pub(crate) fn put(&mut self, alloc: Global, name: &[u8], value: &[u8]) -> Result<(), NoMemory>
        ensures ok { OnOk result (self.new ≡ put self.old name.now value.now) }
        ensures err { OnErr result (self.new ≡ self.old) }
    {
        let name = Vec::from_slice(alloc, name)?;
        let value = Vec::from_slice(alloc, value)?;
        self.entries.insert(name, value)?;
        Ok(())
    }

    pub(crate) fn remove(&mut self, name: &[u8])
        ensures { self.new ≡ without self.old name.now }
    {
        self.entries.remove(name);
    }

    pub(crate) fn len(&self) -> usize
        ensures { result ≡ length self.now }
    {
        self.entries.len()
    }

    pub(crate) fn entry(&self, n: usize) -> Option<(&[u8], &[u8])>
        ensures { option_map (λ e. (e.0.now, e.1.now)) result ≡ slice_get self.now n }
    {
        let (name, value) = self.entries.iter().nth(n)?;
        Some((name.as_slice(), value.as_slice()))
    }

    /// All entries, lent, in their order.
    pub(crate) fn all(&self, alloc: Global) -> Result<Vec<(&[u8], &[u8])>, NoMemory>
        ensures { IfOk result (λ all. map (λ e. (e.0.now, e.1.now)) all.items ≡ self.now) }
    {
        let mut all = Vec::new(alloc);
        for (name, value) in self.entries.iter() {
            all.push((name.as_slice(), value.as_slice()))?;
        }
        Ok(all)
    }

    pub(crate) fn copy(&self) -> Result<Table, NoMemory>
        ensures { IfOk result (λ t. t ≡ self.now) }
    {
        let entries = self.entries.clone()?;
        Ok(Table { entries })
    }
}
