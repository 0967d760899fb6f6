ghost use Rattle.std.specs.Prelude.{◌≡◌, ◌+◌, ◌<◌, ◌≤◌, [], ◌∷◌, ◌++◌, length, option_copied, slice_get, slice_index_or, slice_range, take, OnErr, OnOk};
ghost use Rattle.journal_scan.specs.Tables.Lines.{total};

use ann_key::NoMemory;
use std::alloc::Global;
use std::marker::Model;

/// Lines, one after the other. Contracts see the list of them, for how many lines in all there is room, and for how many bytes of
/// lines in all.
#[derive(Drop)]
pub struct LineStore {
    // The bytes of all lines.
    bytes: Vec<u8>,
    // Where each line ends. It begins where the one before it ends.
    ends: Vec<usize>,
    // For how many ends, and for how many bytes, room was taken.
    room: usize,
    space: usize,
}

impl Model for LineStore {
    ghost use Rattle.std.specs.Prelude.{vec_capacity};
    ghost use Rattle.journal_scan.specs.Tables.Lines.{IsStored, LineStoreValue, lines_from};

    ghost Value = { LineStoreValue };

    ghost view = { λ s. record { lines = lines_from s.bytes.items 0 s.ends.items; room = s.room; space = s.space } };

    ghost invariant = { λ s. IsStored s.bytes.items s.ends.items s.room s.space (vec_capacity s.ends) (vec_capacity s.bytes) };
}

impl LineStore {
    /// A store without lines, and without room. It takes no memory.
    pub fn new(alloc: Global) -> LineStore
        ensures { result ≡ record { lines = []; room = 0; space = 0 } }
    {
        LineStore {
            bytes: Vec::new(alloc),
            ends: Vec::new(alloc),
            room: 0,
            space: 0,
        }
    }

    /// How many lines there are. It takes no memory.
    pub fn len(&self) -> u64
        ensures { result ≡ length self.now.lines }
    {
        self.ends.as_slice().len() as u64
    }

    /// Takes room for so many more lines, of so many bytes in all.
    pub fn take_room(&mut self, lines: usize, bytes: usize) -> Result<(), NoMemory>
        ensures lines { self.new.lines ≡ self.old.lines }
        ensures for_lines { OnOk result (length self.new.lines + lines ≤ self.new.room) }
        ensures for_bytes { OnOk result (total self.new.lines + bytes ≤ self.new.space) }
        ensures room { self.old.room ≤ self.new.room }
        ensures space { self.old.space ≤ self.new.space }
        ensures err { OnErr result (self.new ≡ self.old) }
    {
        self.ends.reserve(lines)?;
        self.bytes.reserve(bytes)?;
        self.room = self.ends.capacity();
        self.space = self.bytes.capacity();
        Ok(())
    }

    /// Appends the line, for which there is room. It takes no memory.
    pub fn push_within(&mut self, line: &[u8])
        requires room { length self.old.lines < self.old.room }
        requires space { total self.old.lines + length line.now ≤ self.old.space }
        ensures lines { self.new.lines ≡ self.old.lines ++ line.now ∷ [] }
        ensures room { self.new.room ≡ self.old.room }
        ensures space { self.new.space ≡ self.old.space }
    {
        match self.bytes.extend_from_slice(line) {
            Ok(()) => {}
            Err(_) => unreachable!(),
        }
        let end = self.bytes.as_slice().len();
        match self.ends.push(end) {
            Ok(()) => {}
            Err(_) => unreachable!(),
        }
    }

    /// Appends the line.
    pub fn push(&mut self, line: &[u8]) -> Result<(), NoMemory>
        ensures ok { OnOk result (self.new.lines ≡ self.old.lines ++ line.now ∷ []) }
        ensures err { OnErr result (self.new ≡ self.old) }
        ensures room { self.old.room ≤ self.new.room }
        ensures space { self.old.space ≤ self.new.space }
    {
        self.take_room(1, line.len())?;
        self.push_within(line);
        Ok(())
    }

    /// The line of that number, from 0; None exactly past the last. It takes no memory.
    pub fn line(&self, n: u64) -> Option<&[u8]>
        ensures { option_copied result ≡ slice_get self.now.lines n }
    {
        let at = n as usize;
        let ends = self.ends.as_slice();
        if at < ends.len() {
            let bytes = self.bytes.as_slice();
            Some(part(bytes, end_of(ends, at), end_of(ends, at + 1)))
        } else {
            None
        }
    }

    /// Keeps the first so many lines, and all room. It takes no memory.
    pub fn cut(&mut self, lines: u64)
        requires { lines ≤ length self.old.lines }
        ensures lines { self.new.lines ≡ take lines self.old.lines }
        ensures room { self.new.room ≡ self.old.room }
        ensures space { self.new.space ≡ self.old.space }
    {
        let kept = lines as usize;
        let end = end_of(self.ends.as_slice(), kept);
        self.ends.truncate(kept);
        self.bytes.truncate(end);
    }
}

// Where the first so many lines end.
fn end_of(ends: &[usize], lines: usize) -> usize
    requires { lines ≤ length ends.now }
    ensures { result ≡ slice_index_or (0 ∷ ends.now) lines 0 }
{
    if lines == 0 { 0 } else { ends[lines - 1] }
}

fn part(bytes: &[u8], start: usize, end: usize) -> &[u8]
    requires rising { start ≤ end }
    requires within { end ≤ length bytes.now }
    ensures { result.now ≡ slice_range bytes.entry.now start end }
{
    &bytes[start..end]
}
