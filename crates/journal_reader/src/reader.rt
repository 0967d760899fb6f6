// A reader of the text of a run.
use crate::error::JournalError;
use crate::place::Place;
use ann_key::{Bytes, NoMemory, Text};
use journal_look::Journal;
use std::alloc::Global;
use std::marker::Model;
use task_text::Task;

/// Takes the lines of a text one by one: contracts see what it awaits, how many lines it took, and what they tell.
#[derive(Drop)]
pub struct Reader {
    pub(crate) alloc: Global,
    pub(crate) place: Place,
    pub(crate) taken: u64,
    pub(crate) early: bool,
    pub(crate) uuid: Text,
    pub(crate) name: Text,
    pub(crate) gitdir: Text,
    pub(crate) stamp: u64,
    pub(crate) again: u32,
    pub(crate) tasks: Vec<Task>,
    pub(crate) kept: Vec<Bytes>,
    pub(crate) journal: Journal,
}

impl Model for Reader {
    ghost use Rattle.std.specs.Prelude.{IsTrue};
    ghost use Rattle.std.specs.List.{list_all};
    ghost use Rattle.journal_reader.specs.Readings.{Reading};
    ghost use Rattle.journal_reader.specs.RunTexts.{is_kept};

    ghost Value = { Reading };

    ghost view = { λ r. record {
      place = r.place;
      taken = r.taken;
      told = record {
        early = r.early;
        uuid = r.uuid;
        name = r.name;
        gitdir = r.gitdir;
        stamp = r.stamp;
        again = r.again;
        tasks = r.tasks.items;
        kept = r.kept.items;
        entries = r.journal.entries;
      };
    } };

    ghost invariant = { λ r. IsTrue (list_all is_kept r.kept.items) };
}

impl Reader {
    ghost use Rattle.std.specs.Prelude.{◌≡◌, ℕ, Err, OnOk, IfErr, IsTrue};
    ghost use Rattle.journal_reader.specs.Readings.{start, Follows, IsFault, Took, is_open};
    ghost use Rattle.journal_reader.specs.declared.error.JournalError.TheVariants.{BadLine};
    ghost use Rattle.journal_reader.specs.declared.place.Place.TheVariants.{Refused};

    /// A reader that awaits the first line. It takes no memory.
    pub fn new(alloc: Global) -> Reader
        ensures { result ≡ start }
    {
        Reader {
            alloc,
            place: Place::Head,
            taken: 0,
            early: false,
            uuid: Text::from_string(String::new(alloc)),
            name: Text::from_string(String::new(alloc)),
            gitdir: Text::from_string(String::new(alloc)),
            stamp: 0,
            again: 0,
            tasks: Vec::new(alloc),
            kept: Vec::new(alloc),
            journal: Journal::new(alloc),
        }
    }

    /// Takes the next line, without its byte 10, where it can follow those before it. After a line was refused each call answers
    /// the same, without memory.
    pub fn push(&mut self, line: &[u8]) -> Result<(), JournalError>
        ensures taken { OnOk result (Follows self.old line.now self.new) }
        ensures fault { IfErr result (λ error. IsFault self.old line.now self.new error) }
        ensures refused { (bad : ℕ) → self.old.place ≡ Refused bad → (result ≡ Err (BadLine bad)) × (self.new ≡ self.old) }
    {
        if let Place::Refused { line } = self.place {
            return Err(JournalError::BadLine { line });
        }
        self.take_or_refuse(line)
    }

    fn take_or_refuse(&mut self, line: &[u8]) -> Result<(), JournalError>
        requires { IsTrue (is_open self.old.place) }
        ensures taken { OnOk result (Follows self.old line.now self.new) }
        ensures fault { IfErr result (λ error. IsFault self.old line.now self.new error) }
    {
        let Some(number) = self.taken.checked_add(1) else {
            return Err(JournalError::NoMemory);
        };
        if self.take(line)? {
            self.taken = number;
            Ok(())
        } else {
            self.place = Place::Refused { line: number };
            Err(JournalError::BadLine { line: number })
        }
    }

    // Whether the line was taken; its number isn't counted yet.
    fn take(&mut self, line: &[u8]) -> Result<bool, NoMemory>
        ensures { Took self.old line.now self.new result }
    {
        match self.place {
            Place::Head => Ok(self.take_head(line)),
            Place::Uuid => self.take_uuid(line),
            Place::Name => self.take_name(line),
            Place::Gitdir => self.take_gitdir(line),
            Place::Stamp => self.take_stamp(line),
            Place::Again => self.take_again(line),
            Place::Given => self.take_given(line),
            Place::Entries => self.take_entry_or_end(line),
            Place::Over | Place::Refused { .. } => Ok(false),
        }
    }
}
