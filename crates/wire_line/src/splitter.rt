ghost use Rattle.std.specs.Prelude.{◌≡◌, ◌+◌, ◌≤◌, ◌==◌, [], ◌∷◌, ◌++◌, drop, length, IsOk, IsTrue, OnErr, OnOk};
ghost use Rattle.std.specs.List.{position_or_len};
ghost use Rattle.std.specs.Vec.{vec_capacity, vec_len};
ghost use Rattle.wire_line.specs.HeldBytes.{after_line, first_line, has_line, KeepsFew, MovesFew, TakesLine, TakesPiece};
ghost use Rattle.wire_line.specs.Nexts.{IsNext, NextOfLines};

use ann_key::{Bytes, NoMemory};
use memchr::memchr;
use std::alloc::Global;
use std::marker::Model;

/// What stands first in a splitter.
#[derive(Clone, Copy, Debug)]
pub enum Next<'a> {
    /// A line, without its byte 10.
    Line(&'a [u8]),
    /// More than the limit, with no line's end in it.
    Long,
    /// No whole line yet.
    More,
}

/// Bytes that came in pieces, of which whole lines are taken from the front.
#[derive(Drop)]
pub struct Splitter {
    limit: usize,
    bytes: Vec<u8>,
    // The bytes before this place are dropped lines.
    start: usize,
    // Where the first held line ends: the place of its byte 10, or the end of the bytes. A byte that was
    // looked at once is never searched again.
    end: usize,
}

impl Model for Splitter {
    ghost use Rattle.std.specs.Prelude.{◌≡◌, ◌≤◌, ◌+◌, ◌-◌, ◌==◌, drop};
    ghost use Rattle.std.specs.List.{position_or_len};
    ghost use Rattle.std.specs.Vec.{vec_capacity, vec_len};
    ghost use Rattle.wire_line.specs.HeldBytes.{HeldBytes};

    ghost Value = { HeldBytes };

    ghost view = { λ s. record { limit = s.limit; bytes = drop s.start s.bytes.items; room = vec_capacity s.bytes - vec_len s.bytes; dropped = s.start } };

    ghost invariant = { λ s. (s.start ≤ vec_len s.bytes) × (s.end ≡ s.start + position_or_len (λ b. b == 10) (drop s.start s.bytes.items)) };
}

impl Splitter {
    /// A splitter that holds nothing and has no room. It takes no memory.
    pub fn new(alloc: Global, limit: usize) -> Splitter
        ensures bytes { result.bytes ≡ [] }
        ensures limit { result.limit ≡ limit }
        ensures dropped { result.dropped ≡ 0 }
    {
        Splitter {
            limit,
            bytes: Vec::new(alloc),
            start: 0,
            end: 0,
        }
    }

    /// Appends the piece. A piece within the room takes no memory.
    pub fn push(&mut self, piece: &[u8]) -> Result<(), NoMemory>
        ensures ok { OnOk result (self.new.bytes ≡ self.old.bytes ++ piece.now) }
        ensures cut { OnOk result (TakesPiece self.old.bytes piece.now self.new.bytes) }
        ensures err { OnErr result (self.new.bytes ≡ self.old.bytes) }
        ensures limit { self.new.limit ≡ self.old.limit }
        ensures fits { length piece.now ≤ self.old.room → IsOk result }
        ensures room { self.old.room ≤ self.new.room + length piece.now }
        ensures err_room { OnErr result (self.old.room ≤ self.new.room) }
        ensures moves { MovesFew self.old self.new }
        ensures keeps { KeepsFew self.old self.new (length piece.now) }
    {
        self.compact(piece.len());
        let held = self.bytes.len();
        self.bytes.extend_from_slice(piece)?;
        if self.end == held {
            self.end += end_of(piece);
        }
        Ok(())
    }

    /// Makes room for `n` more bytes.
    pub fn reserve(&mut self, n: usize) -> Result<(), NoMemory>
        ensures ok { OnOk result (n ≤ self.new.room) }
        ensures bytes { self.new.bytes ≡ self.old.bytes }
        ensures limit { self.new.limit ≡ self.old.limit }
        ensures fits { n ≤ self.old.room → IsOk result }
        ensures room { self.old.room ≤ self.new.room }
        ensures moves { MovesFew self.old self.new }
        ensures keeps { KeepsFew self.old self.new n }
    {
        self.compact(n);
        self.bytes.reserve(n)?;
        Ok(())
    }

    /// What stands first. It takes no memory.
    pub fn first(&self) -> Next<'_>
        ensures next { IsNext self.now.limit self.now.bytes result }
        ensures of_lines { NextOfLines self.now.limit self.now.bytes result }
    {
        first_of(&self.bytes[self.start..], self.end - self.start, self.limit)
    }

    /// Takes the first line and its byte 10 away. It takes no memory.
    pub fn drop_line(&mut self)
        requires { IsTrue (has_line self.old.limit self.old.bytes) }
        ensures bytes { self.new.bytes ≡ after_line self.old.bytes }
        ensures line { self.old.bytes ≡ first_line self.old.bytes ++ 10 ∷ self.new.bytes }
        ensures cut { TakesLine self.old.bytes (first_line self.old.bytes) self.new.bytes }
        ensures limit { self.new.limit ≡ self.old.limit }
        ensures room { self.old.room ≤ self.new.room }
        ensures dropped { self.new.dropped ≡ self.old.dropped + length (first_line self.old.bytes) + 1 }
    {
        let bytes = self.bytes.as_slice();
        let start = self.end + 1;
        let end = end_from(bytes, start);
        self.start = start;
        self.end = end;
    }

    /// What is held. It takes no memory.
    pub fn rest(self) -> Bytes
        ensures { result ≡ self.bytes }
    {
        let Splitter {
            limit: _,
            mut bytes,
            start,
            end: _,
        } = self;
        drop_front(&mut bytes, start);
        Bytes::from_vec(bytes)
    }

    // Moves the held bytes to the front, where `wanted` more don't fit after them. It waits until at
    // least as many bytes are dropped as are moved, so that the moves cost no more than the pushes.
    fn compact(&mut self, wanted: usize)
        ensures bytes { self.new.bytes ≡ self.old.bytes }
        ensures limit { self.new.limit ≡ self.old.limit }
        ensures room { self.old.room ≤ self.new.room }
        ensures moves { MovesFew self.old self.new }
        ensures keeps { KeepsFew self.old self.new wanted }
    {
        let spare = self.bytes.capacity() - self.bytes.len();
        if spare < wanted && self.bytes.len() - self.start <= self.start {
            drop_front(&mut self.bytes, self.start);
            self.end -= self.start;
            self.start = 0;
        }
    }
}

// Where the first byte 10 stands, or the length where there is none.
fn end_of(bytes: &[u8]) -> usize
    ensures value { result ≡ position_or_len (λ b. b == 10) bytes.now }
    ensures bound { result ≤ length bytes.now }
{
    match memchr(10, bytes) {
        Some(at) => at,
        None => bytes.len(),
    }
}

// The same of the bytes from a place on, as a place among all.
fn end_from(bytes: &[u8], start: usize) -> usize
    requires { start ≤ length bytes.now }
    ensures { result ≡ start + position_or_len (λ b. b == 10) (drop start bytes.now) }
{
    start + end_of(&bytes[start..])
}

// What stands first, where the first line has that length.
fn first_of(held: &[u8], line: usize, limit: usize) -> Next<'_>
    requires { line ≡ position_or_len (λ b. b == 10) held.now }
    ensures next { IsNext limit held.now result }
    ensures of_lines { NextOfLines limit held.now result }
{
    if line > limit {
        Next::Long
    } else if line < held.len() {
        Next::Line(&held[..line])
    } else {
        Next::More
    }
}

fn drop_front(bytes: &mut Vec<u8>, n: usize)
    requires { n ≤ vec_len bytes.old }
    ensures items { bytes.new.items ≡ drop n bytes.old.items }
    ensures capacity { vec_capacity bytes.new ≡ vec_capacity bytes.old }
{
    let left = bytes.len() - n;
    bytes.copy_within(n.., 0);
    bytes.truncate(left);
}
