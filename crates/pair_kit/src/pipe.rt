// Bytes on their way from one side to the other, and bytes that wait at a side.
ghost use Rattle.std.specs.Prelude.{◌≡◌, ◌≤◌, ◌++◌, ◌∷◌, [], take, drop, length, true, false, MatchOption, OnOk, vec_len};
ghost use Rattle.annex_model.specs.Lines.{has_newline};
ghost use Rattle.wire_line.specs.HeldBytes.{first_line, after_line};

use ann_key::NoMemory;
use memchr::memchr;
use std::alloc::Global;
use std::marker::Model;

/// Bytes in order, which come in at the end and go out at the front. Contracts see the bytes.
#[derive(Drop)]
pub(crate) struct Pipe {
    bytes: Vec<u8>,
}

impl Model for Pipe {
    ghost use Rattle.std.specs.Prelude.{List, ℕ};

    ghost Value = { List ℕ };

    ghost view = { λ p. p.bytes.items };
}

// The bytes up to the first byte 10, where there is one.
fn line_of(bytes: &[u8]) -> Option<&[u8]>
    ensures { MatchOption result (has_newline bytes.entry.now ≡ false) (λ line. (has_newline bytes.entry.now ≡ true) × (line.now ≡ first_line bytes.entry.now)) }
{
    match memchr(10, bytes) {
        Some(end) => Some(&bytes[..end]),
        None => None,
    }
}

fn drop_front(bytes: &mut Vec<u8>, n: usize)
    requires { n ≤ vec_len bytes.old }
    ensures { bytes.new.items ≡ drop n bytes.old.items }
{
    let left = bytes.len() - n;
    bytes.copy_within(n.., 0);
    bytes.truncate(left);
}

fn drop_line_of(bytes: &mut Vec<u8>)
    ensures { has_newline bytes.old.items ≡ true → bytes.new.items ≡ after_line bytes.old.items }
{
    if let Some(end) = memchr(10, bytes.as_slice()) {
        drop_front(bytes, end + 1);
    }
}

// Moves the first bytes after those of another.
fn move_front(from: &mut Vec<u8>, to: &mut Vec<u8>, n: usize) -> Result<(), NoMemory>
    requires { n ≤ vec_len from.old }
    ensures { OnOk result ((from.new.items ≡ drop n from.old.items) × (to.new.items ≡ to.old.items ++ take n from.old.items)) }
{
    to.extend_from_slice(&from[..n])?;
    drop_front(from, n);
    Ok(())
}

impl Pipe {
    /// No bytes. It takes no memory.
    pub(crate) fn new(alloc: Global) -> Pipe
        ensures { result ≡ [] }
    {
        Pipe {
            bytes: Vec::new(alloc),
        }
    }

    /// How many bytes there are.
    pub(crate) fn len(&self) -> usize
        ensures { result ≡ length self.now }
    {
        self.bytes.len()
    }

    /// The first line, without its byte 10, where there is a whole one.
    pub(crate) fn line(&self) -> Option<&[u8]>
        ensures { MatchOption result (has_newline self.now ≡ false) (λ line. (has_newline self.now ≡ true) × (line.now ≡ first_line self.now)) }
    {
        line_of(self.bytes.as_slice())
    }

    /// Appends the line and byte 10.
    pub(crate) fn push_line(&mut self, line: &[u8]) -> Result<(), NoMemory>
        ensures { OnOk result (self.new ≡ self.old ++ line.now ++ 10 ∷ []) }
    {
        self.bytes.extend_from_slice(line)?;
        self.bytes.push(10)?;
        Ok(())
    }

    /// Moves the first bytes to the end of another.
    pub(crate) fn give(&mut self, to: &mut Pipe, n: usize) -> Result<(), NoMemory>
        requires { n ≤ length self.old }
        ensures { OnOk result ((self.new ≡ drop n self.old) × (to.new ≡ to.old ++ take n self.old)) }
    {
        move_front(&mut self.bytes, &mut to.bytes, n)
    }

    /// Takes the first line and its byte 10 away, where there is a whole one.
    pub(crate) fn drop_line(&mut self)
        ensures { has_newline self.old ≡ true → self.new ≡ after_line self.old }
    {
        drop_line_of(&mut self.bytes);
    }
}
