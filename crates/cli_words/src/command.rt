use crate::settings::Settings;
use ann_key::Text;

/// What the words of a command line ask for.
#[derive(Drop)]
pub enum Command {
    /// Whether the remote that the program serves has the key's content.
    Check { program: Text, key: Text },
    /// What the remote that the program serves says of itself, and of the key where there is one.
    Info { program: Text, key: Option<Text> },
    /// Sets the remote up, and writes its kept file.
    Init(InitWords),
    /// Does the tasks of the input.
    Run(RunWords),
    /// Checks the text of a run, which is the input.
    Audit,
    /// Says what a run came to whose text may be cut off, and keeps it in the kept file where one is named.
    Recover { journal: Text, keep: Option<Text> },
    /// Does so many tasks, which the seed gives, over remotes in memory, and checks the journal.
    Rehearse { seed: u32, tasks: u32 },
    /// Does the same tasks in a closed world, one move at a time, and checks the journal.
    Walk { seed: u32, tasks: u32 },
    /// Prints a text.
    Show(Page),
}

/// A text that is printed on request.
#[derive(Clone, Copy, Debug, PartialEq, Eq)]
pub enum Page {
    /// What the program does.
    Overview,
    Check,
    Info,
    Init,
    Run,
    Audit,
    Recover,
    Rehearse,
    Version,
}

/// The words of `init`. The UUID is in lower case with hyphens.
#[derive(Drop)]
pub struct InitWords {
    pub program: Text,
    pub uuid: Text,
    /// The name of the kept file.
    pub keep: Text,
    pub settings: Settings,
}

/// The words of `run`. The UUID is in lower case with hyphens.
#[derive(Drop)]
pub struct RunWords {
    pub program: Text,
    pub uuid: Text,
    /// How many tasks may be done at a time.
    pub jobs: u32,
    /// The size of a chunk in bytes, 0 where files are stored whole.
    pub chunk: u64,
    /// The remote's name.
    pub name: Text,
    /// The repository's git directory.
    pub gitdir: Text,
    /// The name of the kept file, where one is kept.
    pub keep: Option<Text>,
    /// The name of the journal file, where one is written.
    pub journal: Option<Text>,
    /// The folder for files that the run makes.
    pub work: Text,
    /// How often a child may be started in the first place, all rounds together.
    pub starts: u32,
    /// How often a task may be run again whose child was lost.
    pub again: u32,
}
