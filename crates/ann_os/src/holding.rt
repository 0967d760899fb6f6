// Locks on the files that one run at a time may use.
use ann_key::Text;
use ann_outside::DeskError;
use std::alloc::Global;
use std::fs::{File, OpenOptions};
use std::rt::Files;

// A lock on a file, which this process holds as long as the handle is open.
#[derive(Drop)]
struct Held {
    name: Text,
    // what the system's lock hangs on
    #[allow(dead_code)]
    lock: File,
}

/// The locks of a desk. The system frees them when the process ends, however it ends.
#[derive(Drop)]
pub struct Locks {
    alloc: Global,
    held: Vec<Held>,
}

impl Locks {
    /// None yet. It takes no memory.
    pub fn new(alloc: Global) -> Locks {
        Locks {
            alloc,
            held: Vec::new(alloc),
        }
    }

    fn holds(&self, name: &str) -> bool {
        for held in &self.held {
            if held.name.view() == name {
                return true;
            }
        }
        false
    }

    /// Takes the lock of that file, once. Where another process has it, or it can't be made, the answer is `Failed`.
    pub fn take<R: Files<File = File>>(&mut self, rt: &R, name: &str) -> Result<(), DeskError> {
        if self.holds(name) {
            return Ok(());
        }
        let Ok(()) = self.held.reserve(1) else {
            return Err(DeskError::NoMemory);
        };
        let Ok(copy) = Text::copy(self.alloc, name) else {
            return Err(DeskError::NoMemory);
        };
        let lock = lock_beside(self.alloc, rt, name)?;
        self.held.push_reserved(Held { name: copy, lock });
        Ok(())
    }
}

// The file itself may not be there yet, and is replaced at the end of a run: a lock on it would stay with the old one, as a lock
// on the file that replaces it would go with the new name. So the lock is on a file that is only there to be locked, and that
// nobody removes: where one process removed it, two others could hold two files of that name.
fn lock_beside<R: Files<File = File>>(
    alloc: Global,
    rt: &R,
    name: &str,
) -> Result<File, DeskError> {
    let Ok(beside) = format!(in alloc; "{name}.lock") else {
        return Err(DeskError::NoMemory);
    };
    super::disk::make_folders(rt, &beside, false).map_err(super::disk::fault)?;
    let mut options = OpenOptions::new();
    options.write(true).create(true);
    let lock = options
        .open(rt, beside.as_str())
        .map_err(super::disk::desk_error)
        .map_err(super::disk::fault)?;
    match lock.try_lock() {
        Ok(()) => Ok(lock),
        Err(_) => Err(DeskError::Failed),
    }
}
