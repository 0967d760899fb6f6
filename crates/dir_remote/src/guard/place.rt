// What a directory remote asks about its folders and the files that stores left behind.
ghost use Rattle.std.specs.Prelude.{◌≡◌, List, Option};
ghost use Rattle.dir_remote.specs.Guard.Steps.{stepped};
ghost use Rattle.dir_remote.specs.declared.guard.place.Step.TheVariants.{Stood, Listed, Met, Removed, Spelled};

use ann_key::{NoMemory, Text};
use std::marker::Model;

/// What is wanted of a folder.
#[derive(Clone, Copy)]
pub enum Want {
    /// It is a folder, or a link to one, and isn't empty: the disk that it is on is mounted.
    Full,
    /// It is a folder and no link, or it is missing.
    Way,
    /// It is a folder and no link, and is made where it is missing and the folder that it is in stands.
    Made,
    /// It is a folder, or a link to one, and is made with all folders that it is in.
    Whole,
    /// It is a folder, or a link to one, and is made where it is missing and the folder that it is in stands; and a small file
    /// is left in it, so that it isn't empty.
    Founded,
}

/// What was found of a folder that was asked for.
#[derive(Clone, Copy)]
pub enum Seen {
    /// It is as it is wanted.
    Fits,
    /// It is an empty folder.
    Empty,
    /// It isn't there.
    Missing,
    /// Something else has its name.
    Blocked,
    /// It can't be looked at or made.
    Failed,
}

/// What a name in a folder stands for.
#[derive(Clone, Copy)]
pub enum What {
    /// A file, and no link to one, that nobody has written to for a day.
    OldFile,
    Else,
}

/// The names in a folder.
#[derive(Drop)]
pub struct Names {
    items: Vec<Text>,
}

impl Model for Names {
    ghost use Rattle.std.specs.Prelude.{List, ℕ};

    ghost Value = { List (List ℕ) };

    ghost view = { λ n. n.items.items };
}

impl Names {
    /// The names of the vector. It takes no memory.
    pub fn new(items: Vec<Text>) -> Names
        ensures { result ≡ items.items }
    {
        Names { items }
    }

    /// The names, lent. It takes no memory.
    pub fn view(&self) -> &[Text]
        ensures { result.now ≡ self.now }
    {
        self.items.as_slice()
    }
}

/// A call of a place, and its answer.
#[derive(Drop)]
pub enum Step {
    Stood { want: Want, path: Text, seen: Seen },
    Listed { folder: Text, names: Names },
    Met { file: Text, what: What },
    /// Whether it is gone.
    Removed { file: Text, done: bool },
    /// From the root.
    Spelled { path: Text, whole: Option<Text> },
}

/// The folders of a directory remote.
pub trait Place {
    ghost use Rattle.dir_remote.specs.declared.guard.place.Step.{Step};

    // the calls so far, where it tells them; one for which no memory was found isn't among them
    ghost steps: { Self → Option (List Step) };

    /// Whether what has that path is as it is wanted, once it was made where that is wanted.
    fn stand(&mut self, want: Want, path: &str) -> Result<Seen, NoMemory>
        ensures steps { steps self.new ≡ stepped (steps self.old) (λ seen. Stood want path.now seen) result };

    /// The names in the folder; none where it can't be read.
    fn list(&mut self, folder: &str) -> Result<Names, NoMemory>
        ensures steps { steps self.new ≡ stepped (steps self.old) (λ names. Listed folder.now names) result };

    /// What has that path.
    fn meet(&mut self, file: &str) -> Result<What, NoMemory>
        ensures steps { steps self.new ≡ stepped (steps self.old) (λ what. Met file.now what) result };

    /// The same path from the root, where the folder is known in which the program was started. Nothing needs to be there.
    fn spell(&mut self, path: &str) -> Result<Option<Text>, NoMemory>
        ensures steps { steps self.new ≡ stepped (steps self.old) (λ whole. Spelled path.now whole) result };

    /// Takes the file away. Where that fails it stays.
    fn remove(&mut self, file: &str) -> Result<bool, NoMemory>
        ensures steps { steps self.new ≡ stepped (steps self.old) (λ done. Removed file.now done) result };
}
