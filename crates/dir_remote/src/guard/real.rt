// Folders of this machine.
ghost use Rattle.std.specs.Prelude.{◌≡◌, None};

use crate::guard::place::{Names, Place, Seen, Want, What};
use ann_key::{NoMemory, Text};
use std::alloc::AllocGlobal;
use std::fs::{File, Metadata, OpenFile, OpenOptions};
use std::io::{ErrorKind, Write};
use std::path::{Component, Path, PathBuf};
use std::rt::{Clock, Env, Files};
use std::time::SystemTime;
use std::{env, fs, io};

// A store that goes on writes to its file more often than that.
const DAY_SECONDS: u64 = 86_400;

const SIGN: &str = ".annex-remote-dir";

const WORDS: &[u8] = b"\
This folder is kept by annex-remote-dir, a special remote of git-annex. This file shows that it
is there, and isn't an empty folder where a disk is to be mounted. Leave it here.
";

// An entry that was met in a folder.
#[derive(Drop)]
struct Entry {
    folder: Text,
    path: Text,
}

/// The folders of this machine.
#[derive(Drop)]
pub struct OsPlace<R> {
    rt: R,
    syncs: bool,
    // of the folder that was found full last
    entry: Option<Entry>,
}

impl<R: Files<File = File> + AllocGlobal + Clock + Env + Clone + Drop> OsPlace<R> {
    /// The folders of that runtime. Where it syncs, what is made is on the disk when the call answers.
    pub fn new(rt: R, syncs: bool) -> OsPlace<R>
        ensures { ⟦<OsPlace<R> as Place>⟧.steps result ≡ None }
    {
        OsPlace {
            rt,
            syncs,
            entry: None,
        }
    }
}

fn lacks_memory(error: &io::Error) -> bool {
    matches!(error.kind(), ErrorKind::OutOfMemory)
}

// What a fault of a look or a step means.
fn seen_by(error: io::Error) -> Result<Seen, NoMemory> {
    if lacks_memory(&error) {
        return Err(NoMemory);
    }
    match error.kind() {
        ErrorKind::NotFound => Ok(Seen::Missing),
        ErrorKind::NotADirectory => Ok(Seen::Blocked),
        _ => Ok(Seen::Failed),
    }
}

// The folder has its names on the disk then.
fn sync_folder(rt: &impl Files, folder: &str) -> io::Result<()> {
    let file = File::open(rt, folder)?;
    file.sync_all()
}

// The folder that the path is in.
fn sync_parent(rt: &impl Files, path: &str) -> io::Result<()> {
    match Path::new(path).parent() {
        Some(folder) if !folder.as_str().is_empty() => sync_folder(rt, folder.as_str()),
        _ => sync_folder(rt, "."),
    }
}

// The entry of the folder that is read first; none where it is empty.
fn first_entry<R: Files + AllocGlobal + Clone + Drop>(
    rt: &R,
    folder: &str,
) -> io::Result<Option<Entry>> {
    for entry in fs::read_dir(rt, folder)? {
        let entry = entry?;
        let name = entry.file_name();
        let path = format!(in rt.alloc(); "{folder}/{name}")?;
        let folder = String::from_str(rt.alloc(), folder)?;
        return Ok(Some(Entry {
            folder: Text::from_string(folder),
            path: Text::from_string(path),
        }));
    }
    Ok(None)
}

// Looks at the folder itself, and into it.
fn look_into<R: Files + AllocGlobal + Clone + Drop>(
    rt: &R,
    met: &mut Option<Entry>,
    folder: &str,
) -> Result<Seen, NoMemory> {
    match fs::metadata(rt, folder) {
        Ok(metadata) if !metadata.is_dir() => return Ok(Seen::Blocked),
        Ok(_) => {}
        Err(error) => return seen_by(error),
    }
    match first_entry(rt, folder) {
        Ok(Some(entry)) => {
            *met = Some(entry);
            Ok(Seen::Fits)
        }
        Ok(None) => Ok(Seen::Empty),
        Err(error) => seen_by(error),
    }
}

// A folder, or a link to one, that isn't empty: so it is as long as an entry that was met in it is there.
fn full<R: Files + AllocGlobal + Clone + Drop>(
    rt: &R,
    met: &mut Option<Entry>,
    folder: &str,
) -> Result<Seen, NoMemory> {
    match met {
        Some(entry) if entry.folder.view() == folder => {
            match fs::symlink_metadata(rt, entry.path.view()) {
                Ok(_) => Ok(Seen::Fits),
                Err(error) if lacks_memory(&error) => Err(NoMemory),
                Err(_) => look_into(rt, met, folder),
            }
        }
        _ => look_into(rt, met, folder),
    }
}

// What a look at the path says of a folder.
fn folder_by(looked: io::Result<Metadata>) -> Result<Seen, NoMemory> {
    match looked {
        Ok(metadata) if metadata.is_dir() => Ok(Seen::Fits),
        Ok(_) => Ok(Seen::Blocked),
        Err(error) => seen_by(error),
    }
}

// A folder and no link.
fn way(rt: &impl Files, path: &str) -> Result<Seen, NoMemory> {
    folder_by(fs::symlink_metadata(rt, path))
}

// A folder, which is made where its parent stands. Where it stood, `follows` says whether it may be a link to one.
fn made(rt: &impl Files, path: &str, syncs: bool, follows: bool) -> Result<Seen, NoMemory> {
    match fs::create_dir(rt, path) {
        Ok(()) if !syncs => Ok(Seen::Fits),
        Ok(()) => match sync_parent(rt, path) {
            Ok(()) => Ok(Seen::Fits),
            Err(_) => Ok(Seen::Failed),
        },
        Err(error) if matches!(error.kind(), ErrorKind::AlreadyExists) => {
            if follows {
                folder_by(fs::metadata(rt, path))
            } else {
                way(rt, path)
            }
        }
        Err(error) => seen_by(error),
    }
}

// All folders that the path goes through, each in its turn.
fn whole(rt: &impl Files, path: &str, syncs: bool) -> Result<Seen, NoMemory> {
    for (at, byte) in path.as_bytes().iter().enumerate() {
        if *byte == b'/' && at > 0 && path.is_char_boundary(at) {
            match made(rt, &path[..at], syncs, true)? {
                Seen::Fits => {}
                seen => return Ok(seen),
            }
        }
    }
    made(rt, path, syncs, true)
}

// Leaves the small file in the folder, where there is none.
fn sign<R: Files<File = File> + AllocGlobal>(rt: &R, folder: &str) -> io::Result<()> {
    let path = format!(in rt.alloc(); "{folder}/{SIGN}")?;
    let mut options = OpenOptions::new();
    options.write(true).create_new(true);
    match options.open(rt, path.as_str()) {
        Ok(file) => {
            let mut file = file;
            file.write_all(WORDS)?;
            file.sync_all()?;
            sync_folder(rt, folder)
        }
        Err(error) if matches!(error.kind(), ErrorKind::AlreadyExists) => Ok(()),
        Err(error) => Err(error),
    }
}

// A folder, or a link to one, which is made where its parent stands, with the small file in it.
fn founded<R: Files<File = File> + AllocGlobal>(rt: &R, path: &str) -> Result<Seen, NoMemory> {
    match made(rt, path, true, true)? {
        Seen::Fits => {}
        seen => return Ok(seen),
    }
    match sign(rt, path) {
        Ok(()) => Ok(Seen::Fits),
        Err(error) if lacks_memory(&error) => Err(NoMemory),
        Err(_) => Ok(Seen::Empty),
    }
}

fn is_old(metadata: &Metadata, now: SystemTime) -> bool {
    let Ok(modified) = metadata.modified() else {
        return false;
    };
    match now.duration_since(modified) {
        Ok(age) => metadata.is_file() && age.as_secs() >= DAY_SECONDS,
        Err(_) => false,
    }
}

fn names_of<R: Files + AllocGlobal + Clone + Drop>(
    rt: &R,
    folder: &str,
) -> Result<Vec<Text>, NoMemory> {
    let mut names = Vec::new(rt.alloc());
    let entries = match fs::read_dir(rt, folder) {
        Ok(entries) => entries,
        Err(error) if lacks_memory(&error) => return Err(NoMemory),
        Err(_) => return Ok(names),
    };
    for entry in entries {
        match entry {
            Ok(entry) => names.push(Text::copy(rt.alloc(), entry.file_name())?)?,
            Err(error) if lacks_memory(&error) => return Err(NoMemory),
            Err(_) => return Ok(names),
        }
    }
    Ok(names)
}

// The path from the root, in which `.` and `..` are left out: as git-annex makes one of its own directory remotes.
fn whole_path<R: Env + AllocGlobal>(rt: &R, path: &str) -> io::Result<PathBuf> {
    let mut whole = env::current_dir(rt)?;
    for part in Path::new(path).components() {
        match part {
            Component::ParentDir => {
                whole.pop();
            }
            Component::Normal(name) => whole.push(name)?,
            Component::RootDir | Component::CurDir => {}
        }
    }
    Ok(whole)
}

impl<R: Files<File = File> + AllocGlobal + Clock + Env + Clone + Drop> Place for OsPlace<R> {
    ghost steps = { λ p. None };

    fn stand(&mut self, want: Want, path: &str) -> Result<Seen, NoMemory> {
        match want {
            Want::Full => full(&self.rt, &mut self.entry, path),
            Want::Way => way(&self.rt, path),
            Want::Made => made(&self.rt, path, self.syncs, false),
            Want::Whole => whole(&self.rt, path, self.syncs),
            Want::Founded => founded(&self.rt, path),
        }
    }

    fn list(&mut self, folder: &str) -> Result<Names, NoMemory> {
        let names = names_of(&self.rt, folder)?;
        Ok(Names::new(names))
    }

    fn meet(&mut self, file: &str) -> Result<What, NoMemory> {
        let Ok(now) = SystemTime::now(&self.rt) else {
            return Ok(What::Else);
        };
        match fs::symlink_metadata(&self.rt, file) {
            Ok(metadata) if is_old(&metadata, now) => Ok(What::OldFile),
            Err(error) if lacks_memory(&error) => Err(NoMemory),
            _ => Ok(What::Else),
        }
    }

    fn spell(&mut self, path: &str) -> Result<Option<Text>, NoMemory> {
        match whole_path(&self.rt, path) {
            Ok(whole) => Ok(Some(Text::copy(self.rt.alloc(), whole.as_str())?)),
            Err(error) if lacks_memory(&error) => Err(NoMemory),
            Err(_) => Ok(None),
        }
    }

    fn remove(&mut self, file: &str) -> Result<bool, NoMemory> {
        match fs::remove_file(&self.rt, file) {
            Ok(()) => Ok(true),
            Err(error) if lacks_memory(&error) => Err(NoMemory),
            Err(_) => Ok(false),
        }
    }
}
