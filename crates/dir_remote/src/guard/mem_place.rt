// A folder in memory.
ghost use Rattle.std.specs.Prelude.{◌≡◌, ◌++◌, ◌∷◌, [], IfOk, IfSome, OnOk, OnErr, Some, bytes_eq, filter, length, map, not};
ghost use Rattle.dir_remote.specs.Guard.Gates.{under};
ghost use Rattle.dir_remote.specs.Guard.MemPlaces.{is_there, met_in, names_in, stood_in, without};
ghost use Rattle.dir_remote.specs.Guard.Steps.{stepped};
ghost use Rattle.dir_remote.specs.declared.guard.place.Step.TheVariants.{Stood, Listed, Met, Removed, Spelled};

use crate::guard::gates::below;
use crate::guard::place::{Names, Place, Seen, Step, Want, What};
use ann_key::{NoMemory, Text};
use std::alloc::Global;
use std::marker::Model;

/// A file in the folder, and whether it is old.
#[derive(Drop)]
pub struct MemFile {
    pub name: Text,
    pub path: Text,
    pub is_old: bool,
}

/// A folder in memory, with files in it and no folders, which tells its calls. No other folder is there, and programs are started in it.
#[derive(Drop)]
pub struct MemPlace {
    alloc: Global,
    folder: Text,
    files: Vec<MemFile>,
    steps: Vec<Step>,
}

impl Model for MemPlace {
    ghost use Rattle.dir_remote.specs.Guard.MemPlaces.{MemValue};

    ghost Value = { MemValue };

    ghost view = { λ p. record { folder = p.folder; files = p.files.items; steps = p.steps.items } };
}

// The names of the files.
fn names_of(alloc: Global, files: &[MemFile]) -> Result<Names, NoMemory>
    ensures { IfOk result (λ names. names ≡ map (λ file. file.name) files.now) }
{
    let mut names = Vec::new(alloc);
    for file in files {
        names.push(Text::copy(alloc, file.name.view())?)?;
    }
    Ok(Names::new(names))
}

// What has that path: the first file of it.
fn met_in(files: &[MemFile], path: &str) -> What
    ensures { result ≡ met_in files.now path.now }
{
    for file in files {
        if file.path.view() == path {
            return if file.is_old {
                What::OldFile
            } else {
                What::Else
            };
        }
    }
    What::Else
}

// Whether a file has that path.
fn is_there(files: &[MemFile], path: &str) -> bool
    ensures { result ≡ is_there files.now path.now }
{
    for file in files {
        if file.path.view() == path {
            return true;
        }
    }
    false
}

fn take_away(files: &mut Vec<MemFile>, path: &str)
    ensures { files.new.items ≡ without files.old.items path.now }
{
    files.retain(|file| file.path.view() != path);
}

impl MemPlace {
    /// The folder of that path, without files. It takes no memory.
    pub fn new(alloc: Global, folder: Text) -> MemPlace
        ensures { result ≡ record { folder = folder; files = []; steps = [] } }
    {
        MemPlace {
            alloc,
            folder,
            files: Vec::new(alloc),
            steps: Vec::new(alloc),
        }
    }

    /// Puts a file of that name into it, after those that it has. It is no call.
    pub fn put(&mut self, name: &str, is_old: bool) -> Result<(), NoMemory>
        ensures ok { OnOk result (self.new ≡ record self.old { files = self.old.files ++ record { name = name.now; path = under self.old.folder name.now; is_old = is_old } ∷ [] }) }
        ensures err { OnErr result (self.new ≡ self.old) }
    {
        let path = below(self.alloc, self.folder.view(), name)?;
        let name = Text::copy(self.alloc, name)?;
        self.files.push(MemFile { name, path, is_old })?;
        Ok(())
    }

    /// Its files, in the order in which they were put.
    pub fn files(&self) -> &[MemFile]
        ensures { result.now ≡ self.now.files }
    {
        self.files.as_slice()
    }

    /// Its calls so far, without those that found no memory.
    pub fn steps(&self) -> &[Step]
        ensures { result.now ≡ self.now.steps }
    {
        self.steps.as_slice()
    }
}

impl Place for MemPlace {
    ghost steps = { λ p. Some p.steps };

    fn stand(&mut self, want: Want, path: &str) -> Result<Seen, NoMemory>
        ensures steps { Some self.new.steps ≡ stepped (Some self.old.steps) (λ seen. Stood want path.now seen) result }
        ensures told { IfOk result (λ seen. seen ≡ stood_in self.old.folder path.now) }
        ensures stays { (self.new.folder ≡ self.old.folder) × (self.new.files ≡ self.old.files) }
    {
        let seen = if self.folder.view() == path {
            Seen::Fits
        } else {
            Seen::Missing
        };
        let path = Text::copy(self.alloc, path)?;
        self.steps.push(Step::Stood { want, path, seen })?;
        Ok(seen)
    }

    fn list(&mut self, folder: &str) -> Result<Names, NoMemory>
        ensures steps { Some self.new.steps ≡ stepped (Some self.old.steps) (λ names. Listed folder.now names) result }
        ensures told { IfOk result (λ names. names ≡ names_in self.old folder.now) }
        ensures stays { (self.new.folder ≡ self.old.folder) × (self.new.files ≡ self.old.files) }
    {
        let files: &[MemFile] = if self.folder.view() == folder {
            &self.files
        } else {
            &[]
        };
        let names = names_of(self.alloc, files)?;
        let told = names_of(self.alloc, files)?;
        let folder = Text::copy(self.alloc, folder)?;
        self.steps.push(Step::Listed {
            folder,
            names: told,
        })?;
        Ok(names)
    }

    fn meet(&mut self, file: &str) -> Result<What, NoMemory>
        ensures steps { Some self.new.steps ≡ stepped (Some self.old.steps) (λ what. Met file.now what) result }
        ensures told { IfOk result (λ what. what ≡ met_in self.old.files file.now) }
        ensures stays { (self.new.folder ≡ self.old.folder) × (self.new.files ≡ self.old.files) }
    {
        let what = met_in(&self.files, file);
        let file = Text::copy(self.alloc, file)?;
        self.steps.push(Step::Met { file, what })?;
        Ok(what)
    }

    fn spell(&mut self, path: &str) -> Result<Option<Text>, NoMemory>
        ensures steps { Some self.new.steps ≡ stepped (Some self.old.steps) (λ whole. Spelled path.now whole) result }
        ensures told { IfOk result (λ whole. whole ≡ Some (under self.old.folder path.now)) }
        ensures stays { (self.new.folder ≡ self.old.folder) × (self.new.files ≡ self.old.files) }
    {
        let whole = below(self.alloc, self.folder.view(), path)?;
        let told = Text::copy(self.alloc, whole.view())?;
        let path = Text::copy(self.alloc, path)?;
        self.steps.push(Step::Spelled {
            path,
            whole: Some(told),
        })?;
        Ok(Some(whole))
    }

    fn remove(&mut self, file: &str) -> Result<bool, NoMemory>
        ensures steps { Some self.new.steps ≡ stepped (Some self.old.steps) (λ done. Removed file.now done) result }
        ensures told { IfOk result (λ done. done ≡ is_there self.old.files file.now) }
        ensures gone { OnOk result (self.new.files ≡ without self.old.files file.now) }
        ensures stays { OnErr result (self.new.files ≡ self.old.files) }
        ensures folder { self.new.folder ≡ self.old.folder }
    {
        let done = is_there(&self.files, file);
        let told = Text::copy(self.alloc, file)?;
        self.steps.push(Step::Removed { file: told, done })?;
        take_away(&mut self.files, file);
        Ok(done)
    }
}
