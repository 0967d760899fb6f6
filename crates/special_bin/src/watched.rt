// Desks that remember, for people, which call failed at which file.
ghost use Rattle.std.specs.Prelude.{◌≡◌};

use ann_key::NoMemory;
use ann_outside::{Desk, DeskError, Desks};
use std::alloc::Global;
use std::marker::Send;

/// What a call of a desk was to do with a file.
#[derive(Clone, Copy, Debug, PartialEq, Eq)]
pub(crate) enum Deed {
    Read,
    Write,
    /// Give it its last name.
    Place,
}

/// A call that failed.
#[derive(Drop)]
pub(crate) struct Fault {
    pub(crate) deed: Deed,
    pub(crate) file: String,
}

// Two files are read and written for a run itself.
const MOST: usize = 2;

// The first calls that failed, each at another file; none where it remembers nothing.
#[derive(Drop)]
struct Memory {
    alloc: Global,
    faults: Option<Vec<Fault>>,
}

impl Memory {
    // What can't be remembered changes nothing.
    fn take(&mut self, deed: Deed, file: &str) {
        let Some(faults) = &mut self.faults else {
            return;
        };
        if faults.len() >= MOST || faults.iter().any(|fault| fault.file.as_str() == file) {
            return;
        }
        if let Ok(file) = String::from_str(self.alloc, file) {
            let _ = faults.push(Fault { deed, file });
        }
    }
}

/// Desks, of which desk 0 remembers what failed at it. What they tell is what the desks inside tell.
#[derive(Drop)]
pub(crate) struct WatchedDesks<K> {
    alloc: Global,
    desks: K,
}

impl<K: Desks> WatchedDesks<K> {
    pub(crate) fn new(alloc: Global, desks: K) -> WatchedDesks<K>
        ensures { ⟦<WatchedDesks<K> as Desks>⟧.made result ≡ K.made desks }
    {
        WatchedDesks { alloc, desks }
    }
}

/// A desk that may remember what failed at it.
#[derive(Drop)]
pub(crate) struct WatchedDesk<D> {
    desk: D,
    memory: Memory,
}

impl<D> WatchedDesk<D> {
    /// The calls that failed, each at another file, the first two alone. No clause says that they did: that is for people.
    pub(crate) fn faults(&self) -> &[Fault] {
        match &self.memory.faults {
            Some(faults) => faults.as_slice(),
            None => &[],
        }
    }
}

impl<K: Desks> Desks for WatchedDesks<K> {
    type Desk = WatchedDesk<K::Desk>;

    ghost made = { λ s. K.made s.desks };

    fn desk(&mut self, number: u32) -> Result<WatchedDesk<K::Desk>, NoMemory> {
        let desk = self.desks.desk(number)?;
        let faults = if number == 0 {
            Some(Vec::new(self.alloc))
        } else {
            None
        };
        let memory = Memory {
            alloc: self.alloc,
            faults,
        };
        Ok(WatchedDesk { desk, memory })
    }
}

fn has_failed<T>(outcome: &Result<T, DeskError>) -> bool {
    matches!(outcome, Err(DeskError::Failed))
}

impl<D: Desk> Desk for WatchedDesk<D> {
    ghost told = { λ d. D.told d.desk };

    fn size(&mut self, name: &str) -> Result<u64, DeskError> {
        let size = self.desk.size(name);
        if has_failed(&size) {
            self.memory.take(Deed::Read, name);
        }
        size
    }

    fn read_at(&mut self, name: &str, from: u64, buf: &mut [u8]) -> Result<usize, DeskError> {
        let count = self.desk.read_at(name, from, buf);
        if has_failed(&count) {
            self.memory.take(Deed::Read, name);
        }
        count
    }

    fn create(&mut self, name: &str) -> Result<(), DeskError> {
        let done = self.desk.create(name);
        if done.is_err() {
            self.memory.take(Deed::Write, name);
        }
        done
    }

    fn create_new(&mut self, name: &str) -> Result<(), DeskError> {
        let done = self.desk.create_new(name);
        if done.is_err() {
            self.memory.take(Deed::Write, name);
        }
        done
    }

    fn append(&mut self, name: &str, piece: &[u8]) -> Result<(), DeskError> {
        let done = self.desk.append(name, piece);
        if done.is_err() {
            self.memory.take(Deed::Write, name);
        }
        done
    }

    fn cut(&mut self, name: &str, size: u64) -> Result<(), DeskError> {
        let done = self.desk.cut(name, size);
        if done.is_err() {
            self.memory.take(Deed::Write, name);
        }
        done
    }

    fn rename(&mut self, from: &str, to: &str) -> Result<(), DeskError> {
        let done = self.desk.rename(from, to);
        if done.is_err() {
            self.memory.take(Deed::Place, to);
        }
        done
    }

    fn remove(&mut self, name: &str) -> Result<(), DeskError> {
        let done = self.desk.remove(name);
        if has_failed(&done) {
            self.memory.take(Deed::Write, name);
        }
        done
    }

    fn sync(&mut self, name: &str) -> Result<(), DeskError> {
        let done = self.desk.sync(name);
        if done.is_err() {
            self.memory.take(Deed::Write, name);
        }
        done
    }

    ghost played = { λ d. D.played d.desk };
}

/// What failed at desk 0, which is the first of those that a command leaves.
pub(crate) fn faults_of<D>(tables: &[WatchedDesk<D>]) -> &[Fault] {
    match tables.first() {
        Some(desk) => desk.faults(),
        None => &[],
    }
}
