// Files of this machine.
ghost use Rattle.std.specs.Prelude.{◌≡◌, ◌+◌, ◌<◌, ◌^◌, None, IfOk};
ghost use Rattle.std.specs.Io.{ReadsAtMost};
ghost use Rattle.ann_outside.specs.DeskCauses.{HasCauses, LeavesOther, Counts};
ghost use Rattle.ann_outside.specs.Desks.{no_counts};

use super::holding::Locks;
use super::tries::read_once;
use ann_key::NoMemory;
use ann_outside::{Desk, DeskError, Desks, Failed};
use std::alloc::AllocGlobal;
use std::fs::{File, OpenFile, OpenOptions};
use std::io::{ErrorKind, Seek, SeekFrom, Write};
use std::marker::Send;
use std::path::Path;
use std::rt::Files;
use std::{fs, io};

/// Files of this machine by their paths, which go from the folder that this process was started in. `create`, `create_new` and
/// `rename` make the folders of the new name that are missing, unless it is a desk without folders. A folder in the place of a file is a fault, and so is a rename
/// onto a device.
///
/// A file is on the disk when `rename` has given it its name, and so is the name; and when `sync` has answered. So are the names of
/// the folders that were made.
///
/// Desk 0 is that of the main thread of a run. It locks each file that it reads before the first read, and holds the lock as
/// long as it lives; where another process holds it the read is a fault. The other desks lock nothing.
#[derive(Drop)]
pub struct OsDesk<R> {
    rt: R,
    // none where it locks nothing
    locks: Option<Locks>,
    syncs: bool,
    // whether `create_new` and `rename` make folders
    makes: bool,
    faults: u64,
    missing: u64,
}

/// What makes desks over the files of this machine.
#[derive(Drop)]
pub struct OsDesks<R> {
    rt: R,
    syncs: bool,
    makes: bool,
}

impl<R: Files<File = File> + AllocGlobal + Clone + Drop + Send> OsDesks<R> {
    /// The files of that runtime.
    pub fn new(rt: R) -> OsDesks<R>
        ensures { ⟦<OsDesks<R> as Desks>⟧.made result ≡ None }
    {
        OsDesks {
            rt,
            syncs: true,
            makes: true,
        }
    }

    /// The files of that runtime, where no call waits for the disk: a loss of power may take what was said to be done.
    pub fn unsynced(rt: R) -> OsDesks<R>
        ensures { ⟦<OsDesks<R> as Desks>⟧.made result ≡ None }
    {
        OsDesks {
            rt,
            syncs: false,
            makes: true,
        }
    }

    /// The same, but `create_new` and `rename` make no folders: one that is missing is a fault.
    pub fn without_folders(self) -> OsDesks<R>
        ensures { ⟦<OsDesks<R> as Desks>⟧.made result ≡ None }
    {
        OsDesks {
            makes: false,
            ..self
        }
    }
}

impl<R: Files<File = File> + AllocGlobal + Clone + Drop + Send> Desks for OsDesks<R> {
    type Desk = OsDesk<R>;

    ghost made = { λ s. None };

    fn desk(&mut self, number: u32) -> Result<OsDesk<R>, NoMemory> {
        let locks = if number == 0 {
            Some(Locks::new(self.rt.alloc()))
        } else {
            None
        };
        match self.rt.clone() {
            Ok(rt) => Ok(OsDesk {
                rt,
                locks,
                syncs: self.syncs,
                makes: self.makes,
                faults: 0,
                missing: 0,
            }),
            Err(_) => Err(NoMemory),
        }
    }
}

pub(crate) fn desk_error(error: io::Error) -> DeskError {
    match error.kind() {
        ErrorKind::NotFound => DeskError::Missing,
        ErrorKind::OutOfMemory => DeskError::NoMemory,
        _ => DeskError::Failed,
    }
}

// A file that is missing where none needs to be there is a fault.
pub(crate) fn fault(error: DeskError) -> DeskError
    ensures { result ≡ DeskError.Missing → ⊥ }
{
    match error {
        DeskError::NoMemory => DeskError::NoMemory,
        _ => DeskError::Failed,
    }
}

fn size_of(rt: &impl Files, name: &str) -> Result<u64, DeskError> {
    let metadata = fs::metadata(rt, name).map_err(desk_error)?;
    if metadata.is_dir() {
        return Err(DeskError::Failed);
    }
    Ok(metadata.len())
}

fn read_from<R: Files>(rt: &R, name: &str, from: u64, buf: &mut [u8]) -> Result<usize, DeskError>
    ensures bound { ReadsAtMost result buf.new }
    ensures place { IfOk result (λ n. from + n < 2 ^ 64) }
{
    let mut file = File::open(rt, name).map_err(desk_error)?;
    file.seek(SeekFrom::Start(from)).map_err(desk_error)?;
    let Ok(count) = read_once(&mut file, buf) else {
        return Err(DeskError::Failed);
    };
    if from > u64::MAX - count as u64 {
        return Err(DeskError::Failed);
    }
    Ok(count)
}

// The folders of the file that are missing.
pub(crate) fn make_folders(rt: &impl Files, name: &str, syncs: bool) -> Result<(), DeskError> {
    match Path::new(name).parent() {
        Some(folder) if folder.as_str().is_empty() || stands(rt, folder.as_str()) => Ok(()),
        Some(folder) if syncs => make_synced(rt, folder.as_str()),
        Some(folder) => fs::create_dir_all(rt, folder).map_err(desk_error),
        None => Ok(()),
    }
}

fn stands(rt: &impl Files, folder: &str) -> bool {
    match fs::metadata(rt, folder) {
        Ok(metadata) => metadata.is_dir(),
        Err(_) => false,
    }
}

// Each folder in its turn; the name of one that is made is on the disk then.
fn make_synced(rt: &impl Files, folder: &str) -> Result<(), DeskError> {
    for (at, byte) in folder.as_bytes().iter().enumerate() {
        if *byte == b'/' && at > 0 && folder.is_char_boundary(at) {
            make_folder(rt, &folder[..at])?;
        }
    }
    make_folder(rt, folder)
}

fn make_folder(rt: &impl Files, folder: &str) -> Result<(), DeskError> {
    match fs::create_dir(rt, folder) {
        Ok(()) => sync_folder(rt, folder),
        Err(error) if matches!(error.kind(), ErrorKind::AlreadyExists) => Ok(()),
        Err(error) => Err(desk_error(error)),
    }
}

fn make(rt: &impl Files, name: &str, syncs: bool) -> Result<(), DeskError> {
    make_folders(rt, name, syncs)?;
    let _ = File::create(rt, name).map_err(desk_error)?;
    Ok(())
}

// A name that stands is a fault.
fn make_new(rt: &impl Files, name: &str, syncs: bool, makes: bool) -> Result<(), DeskError> {
    if makes {
        make_folders(rt, name, syncs)?;
    }
    let _ = File::create_new(rt, name).map_err(desk_error)?;
    Ok(())
}

fn add(rt: &impl Files, name: &str, piece: &[u8]) -> Result<(), DeskError> {
    let mut options = OpenOptions::new();
    options.append(true);
    let mut file = options.open(rt, name).map_err(desk_error)?;
    file.write_all(piece).map_err(desk_error)
}

// A file that is shorter stays as it is.
fn shorten(rt: &impl Files, name: &str, size: u64) -> Result<(), DeskError> {
    let mut options = OpenOptions::new();
    options.write(true);
    let file = options.open(rt, name).map_err(desk_error)?;
    if file.metadata().map_err(desk_error)?.len() < size {
        return Err(DeskError::Failed);
    }
    file.set_len(size).map_err(desk_error)
}

// What was written to the file is on the disk then.
fn sync_file(rt: &impl Files, name: &str) -> Result<(), DeskError> {
    let file = File::open(rt, name).map_err(desk_error)?;
    file.sync_all().map_err(desk_error)
}

// The names in the folder of that file are on the disk then.
fn sync_folder(rt: &impl Files, name: &str) -> Result<(), DeskError> {
    match Path::new(name).parent() {
        Some(folder) if !folder.as_str().is_empty() => sync_file(rt, folder.as_str()),
        _ => sync_file(rt, "."),
    }
}

// The file and its name are on the disk then.
fn sync_named(rt: &impl Files, name: &str) -> Result<(), DeskError> {
    sync_file(rt, name)?;
    sync_folder(rt, name).map_err(fault)
}

// A device or a folder in the place of a file isn't replaced.
fn may_replace(rt: &impl Files, name: &str) -> Result<(), DeskError> {
    match fs::metadata(rt, name) {
        Ok(metadata) if !metadata.is_file() => Err(DeskError::Failed),
        _ => Ok(()),
    }
}

// Once the file was found, something else that is missing is a fault. Where only the last step fails the file has its new name.
fn give_name(
    rt: &impl Files,
    from: &str,
    to: &str,
    syncs: bool,
    makes: bool,
) -> Result<(), DeskError> {
    let _ = size_of(rt, from)?;
    may_replace(rt, to)?;
    if makes {
        make_folders(rt, to, syncs).map_err(fault)?;
    }
    if syncs {
        sync_file(rt, from).map_err(fault)?;
    }
    fs::rename(rt, from, to).map_err(desk_error).map_err(fault)?;
    if syncs {
        sync_folder(rt, to).map_err(fault)?;
    }
    Ok(())
}

// Takes the file's lock, where this desk locks what it reads.
fn lock<R: Files<File = File>>(
    locks: &mut Option<Locks>,
    rt: &R,
    name: &str,
) -> Result<(), DeskError> {
    match locks {
        Some(locks) => locks.take(rt, name),
        None => Ok(()),
    }
}

// Reads of a file from a place on, once its lock is taken.
fn read_locked<R: Files<File = File>>(
    locks: &mut Option<Locks>,
    rt: &R,
    name: &str,
    from: u64,
    buf: &mut [u8],
) -> Result<usize, DeskError>
    ensures bound { ReadsAtMost result buf.new }
    ensures place { IfOk result (λ n. from + n < 2 ^ 64) }
{
    lock(locks, rt, name)?;
    read_from(rt, name, from, buf)
}

impl<R: Files<File = File>> OsDesk<R> {
    // Counts a fault or a missing file where the outcome is one, and hands the outcome on.
    fn counted<T>(&mut self, outcome: Result<T, DeskError>) -> Result<T, DeskError>
        ensures same { result ≡ outcome }
        ensures causes { HasCauses (⟦<OsDesk<R> as Desk>⟧.told self.old).counts (⟦<OsDesk<R> as Desk>⟧.told self.new).counts result }
        ensures apart { LeavesOther (⟦<OsDesk<R> as Desk>⟧.told self.old).counts (⟦<OsDesk<R> as Desk>⟧.told self.new).counts result }
    {
        match outcome {
            Err(DeskError::Failed) => self.faults = self.faults.saturating_add(1),
            Err(DeskError::Missing) => self.missing = self.missing.saturating_add(1),
            _ => {}
        }
        outcome
    }
}

impl<R: Files<File = File>> Desk for OsDesk<R> {
    ghost told = { λ d. record { counts = record { faults = d.faults; missing = d.missing }; files = None; log = None } };

    fn size(&mut self, name: &str) -> Result<u64, DeskError> {
        let size = size_of(&self.rt, name);
        self.counted(size)
    }

    fn read_at(&mut self, name: &str, from: u64, buf: &mut [u8]) -> Result<usize, DeskError> {
        let count = read_locked(&mut self.locks, &self.rt, name, from, buf);
        self.counted(count)
    }

    fn create(&mut self, name: &str) -> Result<(), DeskError> {
        let done = make(&self.rt, name, self.syncs).map_err(fault);
        self.counted(done)
    }

    fn create_new(&mut self, name: &str) -> Result<(), DeskError> {
        let done = make_new(&self.rt, name, self.syncs, self.makes).map_err(fault);
        self.counted(done)
    }

    fn append(&mut self, name: &str, piece: &[u8]) -> Result<(), DeskError> {
        let done = add(&self.rt, name, piece);
        self.counted(done)
    }

    fn cut(&mut self, name: &str, size: u64) -> Result<(), DeskError> {
        let done = shorten(&self.rt, name, size);
        self.counted(done)
    }

    fn rename(&mut self, from: &str, to: &str) -> Result<(), DeskError> {
        let done = give_name(&self.rt, from, to, self.syncs, self.makes);
        self.counted(done)
    }

    fn remove(&mut self, name: &str) -> Result<(), DeskError> {
        let done = fs::remove_file(&self.rt, name).map_err(desk_error);
        self.counted(done)
    }

    fn sync(&mut self, name: &str) -> Result<(), DeskError> {
        let done = if self.syncs {
            sync_named(&self.rt, name)
        } else {
            Ok(())
        };
        self.counted(done)
    }

    ghost played = { λ d. ∣ tt ∣₁ };
}
