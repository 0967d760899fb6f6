// What desks share: a desk in memory, or a map of files.
ghost use Rattle.std.specs.Prelude.{◌≡◌, ◌+◌, ◌<◌, ◌^◌, length, IfOk};
ghost use Rattle.std.specs.Io.{ReadsAtMost};
ghost use Rattle.ann_outside.specs.declared.file_desk.DeskError.{DeskError};

use crate::files::FileMap;
use ann_outside::{Desk, DeskError, MemDesk};

/// The files that desks share.
#[derive(Drop)]
pub(crate) enum Shelf {
    /// Of a desk, whose calls may be to fail.
    Desk(MemDesk),
    /// Of a map, of whose calls none fails but for what it is asked.
    Map(FileMap),
}

// A file that is shorter than asked stays as it is.
fn cut_if_long(desk: &mut MemDesk, name: &str, size: u64) -> Result<(), DeskError> {
    if let Some(bytes) = desk.content(name) {
        if (bytes.view().len() as u64) < size {
            return Err(DeskError::Failed);
        }
    }
    desk.cut(name, size)
}

impl Shelf {
    /// Forgets the calls of the desk.
    fn forget(&mut self) {
        match self {
            Shelf::Desk(desk) => desk.forget_log(),
            Shelf::Map(_) => {}
        }
    }

    pub(crate) fn size(&mut self, name: &str) -> Result<u64, DeskError> {
        let size = match self {
            Shelf::Desk(desk) => desk.size(name),
            Shelf::Map(map) => map.size(name),
        };
        self.forget();
        size
    }

    pub(crate) fn read_at(
        &mut self,
        name: &str,
        from: u64,
        buf: &mut [u8],
    ) -> Result<usize, DeskError>
        requires { 0 < length buf.old }
        ensures bound { ReadsAtMost result buf.new }
        ensures place { IfOk result (λ n. from + n < 2 ^ 64) }
    {
        let count = match self {
            Shelf::Desk(desk) => desk.read_at(name, from, buf),
            Shelf::Map(map) => map.read_at(name, from, buf),
        };
        self.forget();
        count
    }

    pub(crate) fn create(&mut self, name: &str) -> Result<(), DeskError>
        ensures { result ≡ Err DeskError.Missing → ⊥ }
    {
        let done = match self {
            Shelf::Desk(desk) => desk.create(name),
            Shelf::Map(map) => map.create(name),
        };
        self.forget();
        done
    }

    pub(crate) fn create_new(&mut self, name: &str) -> Result<(), DeskError>
        ensures { result ≡ Err DeskError.Missing → ⊥ }
    {
        let done = match self {
            Shelf::Desk(desk) => desk.create_new(name),
            Shelf::Map(map) => map.create_new(name),
        };
        self.forget();
        done
    }

    pub(crate) fn append(&mut self, name: &str, piece: &[u8]) -> Result<(), DeskError> {
        let done = match self {
            Shelf::Desk(desk) => desk.append(name, piece),
            Shelf::Map(map) => map.append(name, piece),
        };
        self.forget();
        done
    }

    /// A file that is shorter stays as it is, and is a fault.
    pub(crate) fn cut(&mut self, name: &str, size: u64) -> Result<(), DeskError> {
        let done = match self {
            Shelf::Desk(desk) => cut_if_long(desk, name, size),
            Shelf::Map(map) => map.cut(name, size),
        };
        self.forget();
        done
    }

    pub(crate) fn rename(&mut self, from: &str, to: &str) -> Result<(), DeskError> {
        let done = match self {
            Shelf::Desk(desk) => desk.rename(from, to),
            Shelf::Map(map) => map.rename(from, to),
        };
        self.forget();
        done
    }

    pub(crate) fn remove(&mut self, name: &str) -> Result<(), DeskError> {
        let done = match self {
            Shelf::Desk(desk) => desk.remove(name),
            Shelf::Map(map) => map.remove(name),
        };
        self.forget();
        done
    }

    pub(crate) fn sync(&mut self, name: &str) -> Result<(), DeskError> {
        match self {
            Shelf::Desk(desk) => desk.sync(name),
            Shelf::Map(map) => map.sync(name),
        }
    }
}
