// Desks that are all one map of files, for several threads.
//
// The map is behind a lock. What another thread does to it is known to nobody, so these desks tell their counts alone.
#![tactic(auto)]

mod files;
mod shelf;

ghost use Rattle.std.specs.Prelude.{◌≡◌, None, IfOk};
ghost use Rattle.ann_outside.specs.DeskCauses.{HasCauses, LeavesOther};

use crate::files::FileMap;
use crate::shelf::Shelf;
use ann_key::{Bytes, NoMemory, Text};
use ann_outside::{Desk, DeskError, Desks, MemDesk};
use std::alloc::Global;
use std::marker::Send;
use std::sync::{Arc, Mutex, Wait};

/// Makes desks over the files of one map.
#[derive(Drop)]
pub struct SharedDesks<R> {
    rt: R,
    map: Arc<Mutex<Shelf>>,
}

/// A desk over the shared files. No log is kept.
#[derive(Drop)]
pub struct SharedDesk<R> {
    rt: R,
    map: Arc<Mutex<Shelf>>,
    faults: u64,
    missing: u64,
}

impl<R: Wait + Clone + Drop + Send> SharedDesks<R> {
    /// Desks over the files of this one, whose calls that are to fail are counted over all calls of them together. They wait
    /// for the lock by that runtime.
    pub fn new(rt: R, alloc: Global, desk: MemDesk) -> Result<SharedDesks<R>, NoMemory>
        ensures { IfOk result (λ d. ⟦<SharedDesks<R> as Desks>⟧.made d ≡ None) }
    {
        let map = Arc::new(alloc, Mutex::new(Shelf::Desk(desk)))?;
        Ok(SharedDesks { rt, map })
    }

    /// Desks over these files, of which the last of a name counts. A file is found in a few steps, however many there are.
    pub fn of_files(
        rt: R,
        alloc: Global,
        files: Vec<(Text, Bytes)>,
    ) -> Result<SharedDesks<R>, NoMemory>
        ensures { IfOk result (λ d. ⟦<SharedDesks<R> as Desks>⟧.made d ≡ None) }
    {
        let files = FileMap::new(alloc, files)?;
        let map = Arc::new(alloc, Mutex::new(Shelf::Map(files)))?;
        Ok(SharedDesks { rt, map })
    }
}

impl<R: Wait + Clone + Drop + Send> Desks for SharedDesks<R> {
    type Desk = SharedDesk<R>;

    ghost made = { λ s. None };

    fn desk(&mut self, _number: u32) -> Result<SharedDesk<R>, NoMemory> {
        let rt = self.rt.clone()?;
        let map = self.map.clone()?;
        Ok(SharedDesk {
            rt,
            map,
            faults: 0,
            missing: 0,
        })
    }
}

impl<R: Wait> SharedDesk<R> {
    // Counts a fault or a missing file where the outcome is one, and hands the outcome on.
    fn counted<T>(&mut self, outcome: Result<T, DeskError>) -> Result<T, DeskError>
        ensures same { result ≡ outcome }
        ensures causes { HasCauses (⟦<SharedDesk<R> as Desk>⟧.told self.old).counts (⟦<SharedDesk<R> as Desk>⟧.told self.new).counts result }
        ensures apart { LeavesOther (⟦<SharedDesk<R> as Desk>⟧.told self.old).counts (⟦<SharedDesk<R> as Desk>⟧.told self.new).counts result }
    {
        match outcome {
            Err(DeskError::Failed) => self.faults = self.faults.saturating_add(1),
            Err(DeskError::Missing) => self.missing = self.missing.saturating_add(1),
            _ => {}
        }
        outcome
    }
}

impl<R: Wait> Desk for SharedDesk<R> {
    ghost told = { λ d. record { counts = record { faults = d.faults; missing = d.missing }; files = None; log = None } };

    fn size(&mut self, name: &str) -> Result<u64, DeskError> {
        let size = {
            let mut files = self.map.lock(&self.rt);
            files.size(name)
        };
        self.counted(size)
    }

    fn read_at(&mut self, name: &str, from: u64, buf: &mut [u8]) -> Result<usize, DeskError> {
        let count = {
            let mut files = self.map.lock(&self.rt);
            files.read_at(name, from, buf)
        };
        self.counted(count)
    }

    fn create(&mut self, name: &str) -> Result<(), DeskError> {
        let done = {
            let mut files = self.map.lock(&self.rt);
            files.create(name)
        };
        self.counted(done)
    }

    fn create_new(&mut self, name: &str) -> Result<(), DeskError> {
        let done = {
            let mut files = self.map.lock(&self.rt);
            files.create_new(name)
        };
        self.counted(done)
    }

    fn append(&mut self, name: &str, piece: &[u8]) -> Result<(), DeskError> {
        let done = {
            let mut files = self.map.lock(&self.rt);
            files.append(name, piece)
        };
        self.counted(done)
    }

    fn cut(&mut self, name: &str, size: u64) -> Result<(), DeskError> {
        let done = {
            let mut files = self.map.lock(&self.rt);
            files.cut(name, size)
        };
        self.counted(done)
    }

    fn rename(&mut self, from: &str, to: &str) -> Result<(), DeskError> {
        let done = {
            let mut files = self.map.lock(&self.rt);
            files.rename(from, to)
        };
        self.counted(done)
    }

    fn remove(&mut self, name: &str) -> Result<(), DeskError> {
        let done = {
            let mut files = self.map.lock(&self.rt);
            files.remove(name)
        };
        self.counted(done)
    }

    fn sync(&mut self, name: &str) -> Result<(), DeskError> {
        let done = {
            let mut files = self.map.lock(&self.rt);
            files.sync(name)
        };
        self.counted(done)
    }

    ghost played = { λ d. ∣ tt ∣₁ };
}
