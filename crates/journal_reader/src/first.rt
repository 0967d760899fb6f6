// Taking the first lines.
ghost use Rattle.std.specs.Prelude.{◌≡◌};
ghost use Rattle.journal_reader.specs.Readings.{after_stamp};

use crate::fields::{again_of, stamp_of, text_behind, uuid_behind, written};
use crate::place::Place;
use crate::reader::Reader;
use ann_key::{NoMemory, Text};

impl Reader {
    ghost use Rattle.std.specs.Prelude.{◌≡◌};
    ghost use Rattle.journal_reader.specs.Readings.{Took};

    pub(crate) fn take_head(&mut self, line: &[u8]) -> bool
        requires { self.old.place ≡ Place.Head }
        ensures { Took self.old line.now self.new (Ok result) }
    {
        let early = line == b"annex-journal 1".as_slice();
        if early || line == b"annex-journal 2".as_slice() {
            self.early = early;
            self.place = Place::Uuid;
            true
        } else {
            false
        }
    }

    pub(crate) fn take_uuid(&mut self, line: &[u8]) -> Result<bool, NoMemory>
        requires { self.old.place ≡ Place.Uuid }
        ensures { Took self.old line.now self.new result }
    {
        let Some(uuid) = uuid_behind(line, b"uuid") else {
            return Ok(false);
        };
        self.uuid = written(self.alloc, uuid)?;
        self.place = Place::Name;
        Ok(true)
    }

    pub(crate) fn take_name(&mut self, line: &[u8]) -> Result<bool, NoMemory>
        requires { self.old.place ≡ Place.Name }
        ensures { Took self.old line.now self.new result }
    {
        let Some(name) = text_behind(line, b"name") else {
            return Ok(false);
        };
        self.name = Text::copy(self.alloc, name)?;
        self.place = Place::Gitdir;
        Ok(true)
    }

    pub(crate) fn take_gitdir(&mut self, line: &[u8]) -> Result<bool, NoMemory>
        requires { self.old.place ≡ Place.Gitdir }
        ensures { Took self.old line.now self.new result }
    {
        let Some(gitdir) = text_behind(line, b"gitdir") else {
            return Ok(false);
        };
        self.gitdir = Text::copy(self.alloc, gitdir)?;
        self.place = Place::Stamp;
        Ok(true)
    }

    pub(crate) fn take_stamp(&mut self, line: &[u8]) -> Result<bool, NoMemory>
        requires { self.old.place ≡ Place.Stamp }
        ensures { Took self.old line.now self.new result }
    {
        let Some(stamp) = stamp_of(self.alloc, line)? else {
            return Ok(false);
        };
        self.stamp = stamp;
        self.place = after_stamp(self.early);
        Ok(true)
    }

    pub(crate) fn take_again(&mut self, line: &[u8]) -> Result<bool, NoMemory>
        requires { self.old.place ≡ Place.Again }
        ensures { Took self.old line.now self.new result }
    {
        let Some(again) = again_of(self.alloc, line)? else {
            return Ok(false);
        };
        self.again = again;
        self.place = Place::Given;
        Ok(true)
    }
}

fn after_stamp(early: bool) -> Place
    ensures { result ≡ after_stamp early }
{
    if early { Place::Given } else { Place::Again }
}
