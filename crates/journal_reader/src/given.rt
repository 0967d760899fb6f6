// Taking the lines of tasks and of what is kept.
use crate::kinds::{Kind, kind_of};
use crate::place::Place;
use crate::reader::Reader;
use ann_key::{Bytes, NoMemory, has_byte};
use kept_file::text::{comes_before, is_written_line};
use task_text::{TaskError, read_task};

impl Reader {
    ghost use Rattle.std.specs.Prelude.{◌≡◌, IfOk, codes};
    ghost use Rattle.journal_text.specs.Lines.JournalTexts.{worded};
    ghost use Rattle.journal_reader.specs.Readings.{Took};
    ghost use Rattle.journal_reader.specs.RunTexts.{is_kept, may_be_kept};

    pub(crate) fn take_given(&mut self, line: &[u8]) -> Result<bool, NoMemory>
        requires { self.old.place ≡ Place.Given }
        ensures { Took self.old line.now self.new result }
    {
        match kind_of(line) {
            Kind::Begin => {
                self.place = Place::Entries;
                Ok(true)
            }
            Kind::Task(text) => self.take_task(text),
            Kind::Keep(text) => self.take_kept(text),
            Kind::Other => Ok(false),
        }
    }

    fn take_task(&mut self, text: &[u8]) -> Result<bool, NoMemory>
        requires { self.old.place ≡ Place.Given }
        ensures { Took self.old (worded (codes "task") text.now) self.new result }
    {
        if !self.kept.is_empty() || self.tasks.len() >= 65_536 {
            return Ok(false);
        }
        match read_task(self.alloc, text) {
            Ok(task) => {
                self.tasks.push(task)?;
                Ok(true)
            }
            Err(TaskError::NoMemory) => Err(NoMemory),
            Err(_) => Ok(false),
        }
    }

    fn take_kept(&mut self, text: &[u8]) -> Result<bool, NoMemory>
        requires { self.old.place ≡ Place.Given }
        ensures { Took self.old (worded (codes "keep") text.now) self.new result }
    {
        if !self.may_be_kept(text)? {
            return Ok(false);
        }
        let line = Bytes::copy(self.alloc, text)?;
        self.kept.push(line)?;
        Ok(true)
    }

    fn may_be_kept(&self, text: &[u8]) -> Result<bool, NoMemory>
        ensures { IfOk result (λ b. b ≡ may_be_kept self.now.told.kept text.now) }
    {
        if !self.is_kept(text)? {
            return Ok(false);
        }
        match self.kept.as_slice().last() {
            Some(last) => comes_before(self.alloc, last.view(), text),
            None => Ok(true),
        }
    }

    fn is_kept(&self, text: &[u8]) -> Result<bool, NoMemory>
        ensures { IfOk result (λ b. b ≡ is_kept text.now) }
    {
        let written = is_written_line(self.alloc, text)?;
        Ok(written && !has_byte(text, b'\n'))
    }
}
