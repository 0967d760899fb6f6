// A voice in memory, as the child of a host: it hears what its source gives, and what it says waits to be read.
ghost use Rattle.std.specs.Prelude.{◌≡◌, ◌+◌, ◌≤◌, ◌<◌, false, length, true, [], IfOk, None, Some, take};
ghost use Rattle.std.specs.Io.KnownBytes.{Appends};
ghost use Rattle.kit_memory.specs.Children.{read_of, IsChild, IsReadOut, Steps};

use crate::feed::{Feed, turn_over};
use ann_key::NoMemory;
use ann_outside::{MemSink, Sink};
use kit_serve::{End, LONGEST_LINE, Voice, write_version};
use std::alloc::Global;
use std::marker::Model;
use wire_line::Splitter;

/// A voice that hears what the source gives. What it says waits until it is read.
#[derive(Drop)]
pub struct Child<S: Feed, V: Voice> {
    voice: V,
    source: S,
    splitter: Splitter,
    said: MemSink,
    // How much of what it said was read.
    read: usize,
    end: Option<End>,
}

impl<S: Feed, V: Voice> Model for Child<S, V> {
    ghost use Rattle.std.specs.Prelude.{◌≡◌, true};
    ghost use Rattle.kit_serve.specs.Limits.{longest_line};
    ghost use Rattle.kit_memory.specs.Children.{ChildValue, IsChild};

    ghost Value = { ChildValue S V };

    ghost view = { λ c. record {
      source = c.source;
      voice = c.voice;
      held = c.splitter.bytes;
      said = (⟦<MemSink as Sink>⟧.told c.said).taken;
      read = c.read;
      end = c.end;
    } };

    ghost invariant = { λ c. (c.splitter.limit ≡ longest_line) × ((⟦<MemSink as Sink>⟧.told c.said).is_open ≡ true)
        × IsChild S.heard S.is_at_end V.spoke V.is_over V.is_foul V.lacks (record {
          source = c.source;
          voice = c.voice;
          held = c.splitter.bytes;
          said = (⟦<MemSink as Sink>⟧.told c.said).taken;
          read = c.read;
          end = c.end;
        }) };
}

// Copies as much as fits, and answers how much.
fn copied(left: &[u8], buf: &mut [u8]) -> usize
    ensures bound { result ≤ length buf.new }
    ensures left { result ≤ length left.now }
    ensures bytes { take result buf.new ≡ take result left.now }
    ensures some { result ≡ 0 → 0 < length buf.new → length left.now ≡ 0 }
{
    let n = left.len().min(buf.len());
    buf[..n].copy_from_slice(&left[..n]);
    n
}

impl<S: Feed, V: Voice> Child<S, V> {
    /// A child that has said its version.
    #[tactic(auto, using(crate::proofs::Children::child_begins))]
    pub(super) fn new(alloc: Global, voice: V, source: S) -> Result<Child<S, V>, NoMemory>
    where
        S: Drop,
        V: Drop,
        requires heard { S.heard source ≡ [] }
        requires live { V.is_over voice ≡ false }
        requires begins { V.spoke voice voice [] [] }
        ensures source { IfOk result (λ c. c.source ≡ source) }
        ensures read { IfOk result (λ c. read_of c ≡ Some []) }
    {
        let mut said = MemSink::new(alloc, usize::MAX, Vec::new(alloc));
        if write_version(&mut said).is_err() {
            return Err(NoMemory);
        }
        Ok(Child {
            voice,
            source,
            splitter: Splitter::new(alloc, LONGEST_LINE),
            said,
            read: 0,
            end: None,
        })
    }

    /// What it heard and said, as a fact.
    pub(super) fn stands(&self)
        ensures { IsChild S.heard S.is_at_end V.spoke V.is_over V.is_foul V.lacks self.now }
    {
        let _read = self.read;
    }

    /// Whether it has to hear more before anything can be read of it.
    pub(super) fn is_silent(&self) -> bool
        ensures silent { result ≡ true → self.now.end ≡ None }
        ensures ended { result ≡ false → IsReadOut self.now → self.now.end ≡ None → ⊥ }
    {
        self.read == self.said.taken().len() && self.end.is_none()
    }

    /// It answers the next line, or hears more.
    pub(super) fn go_on(&mut self)
        requires { self.old.end ≡ None }
        ensures read { read_of self.new ≡ read_of self.old }
        ensures source { Steps S.stays self.old.source self.new.source }
    {
        match turn_over(
            &mut self.voice,
            &mut self.splitter,
            &mut self.source,
            &mut self.said,
        ) {
            Ok(()) => {}
            Err(end) => self.end = Some(end),
        }
    }

    /// Moves what it said and nobody has read to the front of `buf`, as much as fits, and answers how much.
    pub(super) fn say(&mut self, buf: &mut [u8]) -> usize
        ensures bound { result ≤ length buf.new }
        ensures same { (self.new.end ≡ self.old.end) × (self.new.source ≡ self.old.source) × (self.new.said ≡ self.old.said) }
        ensures read { Appends (read_of self.old) (read_of self.new) (take result buf.new) }
        ensures some { result ≡ 0 → 0 < length buf.new → IsReadOut self.old × IsReadOut self.new }
    {
        let n = copied(&self.said.taken()[self.read..], buf);
        self.read += n;
        n
    }

    /// What it hears.
    pub(super) fn source(self) -> S
    where
        V: Drop,
        ensures { result ≡ self.source }
    {
        let Child {
            voice: _,
            source,
            splitter: _,
            said: _,
            read: _,
            end: _,
        } = self;
        source
    }
}
