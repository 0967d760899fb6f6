// Files by name, of which each is found in a few steps.
ghost use Rattle.std.specs.Prelude.{◌≡◌, ◌+◌, ◌<◌, ◌≤◌, ◌^◌, length, IfOk};
ghost use Rattle.ann_outside.specs.declared.file_desk.DeskError.{DeskError};

use ann_key::{Bytes, NoMemory, Text};
use ann_outside::DeskError;
use std::alloc::Global;
use std::collections::BTreeMap;

/// Files by name.
#[derive(Drop)]
pub(crate) struct FileMap {
    alloc: Global,
    files: BTreeMap<Vec<u8>, Vec<u8>>,
}

impl FileMap {
    /// A map with these files, of which the last of a name counts.
    pub(crate) fn new(alloc: Global, files: Vec<(Text, Bytes)>) -> Result<FileMap, NoMemory> {
        let mut map = FileMap {
            alloc,
            files: BTreeMap::new(alloc),
        };
        for (name, bytes) in files {
            if map.put(name.view(), bytes.into_vec()).is_err() {
                return Err(NoMemory);
            }
        }
        Ok(map)
    }

    fn has(&self, name: &str) -> bool {
        self.files.contains_key(name.as_bytes())
    }

    // Puts the file in the place of the one of its name.
    fn put(&mut self, name: &str, bytes: Vec<u8>) -> Result<(), DeskError>
        ensures { result ≡ Err DeskError.Missing → ⊥ }
    {
        let Ok(name) = Vec::from_slice(self.alloc, name.as_bytes()) else {
            return Err(DeskError::NoMemory);
        };
        match self.files.insert(name, bytes) {
            Ok(_) => Ok(()),
            Err(_) => Err(DeskError::NoMemory),
        }
    }

    pub(crate) fn size(&self, name: &str) -> Result<u64, DeskError> {
        match self.files.get(name.as_bytes()) {
            Some(bytes) => Ok(bytes.len() as u64),
            None => Err(DeskError::Missing),
        }
    }

    pub(crate) fn read_at(&self, name: &str, from: u64, buf: &mut [u8]) -> Result<usize, DeskError>
        ensures bound { IfOk result (λ n. n ≤ length buf.new) }
        ensures place { IfOk result (λ n. from + n < 2 ^ 64) }
    {
        let Some(bytes) = self.files.get(name.as_bytes()) else {
            return Err(DeskError::Missing);
        };
        let bytes = bytes.as_slice();
        if bytes.len() as u64 <= from {
            return Ok(0);
        }
        let rest = &bytes[from as usize..];
        let n = rest.len().min(buf.len());
        buf[..n].copy_from_slice(&rest[..n]);
        Ok(n)
    }

    pub(crate) fn create(&mut self, name: &str) -> Result<(), DeskError>
        ensures { result ≡ Err DeskError.Missing → ⊥ }
    {
        let bytes = Vec::new(self.alloc);
        self.put(name, bytes)
    }

    /// A name that stands is a fault.
    pub(crate) fn create_new(&mut self, name: &str) -> Result<(), DeskError>
        ensures { result ≡ Err DeskError.Missing → ⊥ }
    {
        if self.has(name) {
            return Err(DeskError::Failed);
        }
        self.create(name)
    }

    pub(crate) fn append(&mut self, name: &str, piece: &[u8]) -> Result<(), DeskError> {
        let Some(bytes) = self.files.get_mut(name.as_bytes()) else {
            return Err(DeskError::Missing);
        };
        match bytes.extend_from_slice(piece) {
            Ok(()) => Ok(()),
            Err(_) => Err(DeskError::NoMemory),
        }
    }

    /// A file that is shorter stays as it is, and is a fault.
    pub(crate) fn cut(&mut self, name: &str, size: u64) -> Result<(), DeskError> {
        let Some(bytes) = self.files.get_mut(name.as_bytes()) else {
            return Err(DeskError::Missing);
        };
        if (bytes.len() as u64) < size {
            return Err(DeskError::Failed);
        }
        bytes.truncate(size as usize);
        Ok(())
    }

    pub(crate) fn rename(&mut self, from: &str, to: &str) -> Result<(), DeskError> {
        if !self.has(from) {
            return Err(DeskError::Missing);
        }
        if from == to {
            return Ok(());
        }
        // Room for the name is taken before the file loses its own.
        self.create(to)?;
        let Some(bytes) = self.files.remove(from.as_bytes()) else {
            return Err(DeskError::Missing);
        };
        let Some(place) = self.files.get_mut(to.as_bytes()) else {
            return Err(DeskError::Failed);
        };
        *place = bytes;
        Ok(())
    }

    pub(crate) fn remove(&mut self, name: &str) -> Result<(), DeskError> {
        match self.files.remove(name.as_bytes()) {
            Some(_) => Ok(()),
            None => Err(DeskError::Missing),
        }
    }

    pub(crate) fn sync(&self, name: &str) -> Result<(), DeskError> {
        if self.has(name) {
            Ok(())
        } else {
            Err(DeskError::Missing)
        }
    }
}
