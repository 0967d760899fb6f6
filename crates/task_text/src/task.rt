ghost use Rattle.std.specs.Prelude.{◌≡◌, IfOk};

use ann_key::{Key, NoMemory, Text};
use std::alloc::Global;
use std::marker::Model;

/// What a task does with its key.
#[derive(Clone, Copy, Debug, PartialEq, Eq)]
pub enum Work {
    Store,
    Get,
    Check,
    Drop,
    XStore,
    XGet,
    XCheck,
    XDrop,
    XRename,
}

/// One task. The file, the name of an exported file and the name that it gets are empty where the work has none.
#[derive(Drop)]
pub struct Task {
    pub work: Work,
    pub key: Key,
    pub file: Text,
    pub name: Text,
    pub onto: Text,
}

/// The tasks of a run, numbered from 1.
#[derive(Drop)]
pub struct Tasks {
    list: Vec<Task>,
}

impl Model for Tasks {
    ghost use Rattle.std.specs.Prelude.{List};
    ghost use Rattle.task_text.specs.declared.task.Task.{Task};

    ghost Value = { List Task };

    ghost view = { λ t. t.list.items };
}

impl Work {
    ghost use Rattle.task_text.specs.Works.{has_name, has_onto, names_file, word_of, work_of};

    const ALL: [Work; 9] = [
        Work::Store,
        Work::Get,
        Work::Check,
        Work::Drop,
        Work::XStore,
        Work::XGet,
        Work::XCheck,
        Work::XDrop,
        Work::XRename,
    ];

    /// The word that begins a task's line.
    pub fn word(self) -> &'static [u8]
        ensures { result.now ≡ word_of self }
    {
        match self {
            Work::Store => b"store",
            Work::Get => b"get",
            Work::Check => b"check",
            Work::Drop => b"drop",
            Work::XStore => b"xstore",
            Work::XGet => b"xget",
            Work::XCheck => b"xcheck",
            Work::XDrop => b"xdrop",
            Work::XRename => b"xrename",
        }
    }

    /// The work of this word.
    pub fn read(word: &[u8]) -> Option<Work>
        ensures { result ≡ work_of word.now }
    {
        Work::ALL.iter().copied().find(|work| work.word() == word)
    }

    /// Whether a task of this work names a file.
    pub fn names_file(self) -> bool
        ensures { result ≡ names_file self }
    {
        match self {
            Work::Store | Work::Get | Work::XStore | Work::XGet => true,
            Work::Check | Work::Drop | Work::XCheck | Work::XDrop | Work::XRename => false,
        }
    }

    /// Whether it has the name of an exported file.
    pub fn has_name(self) -> bool
        ensures { result ≡ has_name self }
    {
        match self {
            Work::Store | Work::Get | Work::Check | Work::Drop => false,
            Work::XStore | Work::XGet | Work::XCheck | Work::XDrop | Work::XRename => true,
        }
    }

    /// And the name that this file gets.
    pub fn has_onto(self) -> bool
        ensures { result ≡ has_onto self }
    {
        matches!(self, Work::XRename)
    }
}

impl Task {
    /// An equal task.
    pub fn copy(&self, alloc: Global) -> Result<Task, NoMemory>
        ensures { IfOk result (λ t. t ≡ self.now) }
    {
        let key = Key::copy(alloc, self.key.view())?;
        let file = Text::copy(alloc, self.file.view())?;
        let name = Text::copy(alloc, self.name.view())?;
        let onto = Text::copy(alloc, self.onto.view())?;
        Ok(Task {
            work: self.work,
            key,
            file,
            name,
            onto,
        })
    }
}

fn copy_all(alloc: Global, tasks: &[Task]) -> Result<Vec<Task>, NoMemory>
    ensures { IfOk result (λ v. v.items ≡ tasks.now) }
{
    let mut list = Vec::new(alloc);
    for task in tasks {
        list.push(task.copy(alloc)?)?;
    }
    Ok(list)
}

impl Tasks {
    /// These tasks. It takes no memory.
    pub fn new(list: Vec<Task>) -> Tasks
        ensures { result ≡ list.items }
    {
        Tasks { list }
    }

    /// The tasks, lent.
    pub fn view(&self) -> &[Task]
        ensures { result.now ≡ self.now }
    {
        self.list.as_slice()
    }

    /// Equal tasks.
    pub fn copy(&self, alloc: Global) -> Result<Tasks, NoMemory>
        ensures { IfOk result (λ t. t ≡ self.now) }
    {
        let list = copy_all(alloc, self.list.as_slice())?;
        Ok(Tasks { list })
    }
}
