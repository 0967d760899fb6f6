// A pipe in memory: what is written to its one half is heard by its other half.
//
// A ring lies between the halves. Its end is an item of its own, after which none is put; so whoever took it knows that all was heard.
ghost use Rattle.std.specs.Prelude.{◌≡◌, ◌++◌, [], ◌≤◌, ◌<◌, ◌+◌, ℕ, List, false, length, take, true, IfOk, None, Some};
ghost use Rattle.std.specs.Io.{WritesAtMost};
ghost use Rattle.std.specs.Io.KnownBytes.{WriteAppends};
ghost use Rattle.ann_outside.specs.Causes.{HasCause, StaysUntold};
ghost use Rattle.rtrb.specs.Ring.{sent, known_free, received, IsPair, SameProducer, SameConsumer, ProducerLooked};
ghost use Rattle.kit_memory.specs.Pipes.{bytes_in, has_end, is_stream};

use crate::feed::Feed;
use ann_key::NoMemory;
use ann_outside::{Failed, Sink};
use rtrb::{Consumer, Producer, Protocol, RingBuffer};
use std::alloc::Global;
use std::sync::{Arc, Condvar, Mutex, Wait};

/// How much a pipe holds: two of the longest lines. Its end has a place besides.
const PIPE_SIZE: usize = 262_146;

/// Nothing is put after the end.
#[derive(Clone, Copy)]
pub struct TillEnd;

impl Protocol<Option<u8>> for TillEnd {
    ghost allows = { λ before x. has_end before ≡ false };
}

type Entrance = Producer<Option<u8>, Global, TillEnd>;

type Exit = Consumer<Option<u8>, Global, TillEnd>;

// How often something was put or taken.
#[derive(Drop)]
struct Moves {
    count: u64,
}

// By it the one half waits for the other.
#[derive(Drop)]
struct Gate {
    moves: Mutex<Moves>,
    moved: Condvar,
}

impl Gate {
    // Something was put or taken.
    fn tell<T: Wait>(&self, rt: &T) {
        {
            let mut moves = self.moves.lock(rt);
            moves.count = moves.count.wrapping_add(1);
        }
        self.moved.notify_all();
    }

    fn count<T: Wait>(&self, rt: &T) -> u64 {
        self.moves.lock(rt).count
    }

    // Waits until more was put or taken than was seen.
    fn wait_past<T: Wait>(&self, rt: &T, seen: u64) {
        let _moves = self
            .moved
            .wait_while(rt, self.moves.lock(rt), |moves| moves.count == seen);
    }
}

/// The half of a pipe that is written to. No write fails: one to a full pipe waits until something was heard.
#[derive(Drop)]
pub struct PipeInlet<'a, T> {
    rt: &'a T,
    gate: Arc<Gate, Global>,
    ring: Entrance,
    is_open: bool,
    ghost stream: { is_stream is_open (sent ring) ≡ true },
    ghost room: { is_open ≡ true → 0 < known_free ring },
}

/// The half of a pipe that is heard.
#[derive(Drop)]
pub struct PipeOutlet<'a, T> {
    rt: &'a T,
    gate: Arc<Gate, Global>,
    ring: Exit,
    is_at_end: bool,
    ghost end: { is_at_end ≡ has_end (received ring) },
}

/// The halves of a pipe that nothing was written to.
pub(super) fn pipe<'a, T: Wait>(
    rt: &'a T,
    alloc: Global,
) -> Result<(PipeInlet<'a, T>, PipeOutlet<'a, T>), NoMemory>
    ensures inlet { IfOk result (λ halves. (halves.0.is_open ≡ true) × (sent halves.0.ring ≡ [])) }
    ensures outlet { IfOk result (λ halves. received halves.1.ring ≡ []) }
    ensures pair { IfOk result (λ halves. IsPair halves.0.ring halves.1.ring) }
{
    let gate = Gate {
        moves: Mutex::new(Moves { count: 0 }),
        moved: Condvar::new(),
    };
    let one = Arc::new(alloc, gate)?;
    let two = Arc::try_clone(&one)?;
    let (entrance, exit) = RingBuffer::with_protocol::<Global, TillEnd>(alloc, PIPE_SIZE + 1)?;
    let inlet = PipeInlet {
        rt,
        gate: one,
        ring: entrance,
        is_open: true,
    };
    let outlet = PipeOutlet {
        rt,
        gate: two,
        ring: exit,
        is_at_end: false,
    };
    Ok((inlet, outlet))
}

// Waits until a byte has room beside the end, and answers how many have.
fn room<T: Wait>(rt: &T, gate: &Gate, ring: &mut Entrance) -> usize
    ensures some { 0 < result }
    ensures room { result < known_free ring.new }
    ensures ring { ProducerLooked ring.old ring.new }
{
    for _ in rt.forever() {
        let seen = gate.count(rt);
        let free = ring.slots();
        if free > 1 {
            return free - 1;
        }
        gate.wait_past(rt, seen);
    }
    unreachable!()
}

// Puts the bytes.
fn put_all(ring: &mut Entrance, bytes: &[u8])
    requires room { length bytes.now < known_free ring.old }
    requires open { has_end (sent ring.old) ≡ false }
    ensures ring { SameProducer ring.old ring.new }
    ensures bytes { bytes_in (sent ring.new) ≡ bytes_in (sent ring.old) ++ bytes.now }
    ensures open { has_end (sent ring.new) ≡ false }
    ensures room { 0 < known_free ring.new }
{
    for byte in bytes {
        ring.push_reserved(Some(*byte));
    }
}

// Moves what is there to the front of `buf`, as much as fits, and answers how much, and whether it came to the end.
fn take_some(ring: &mut Exit, buf: &mut [u8]) -> (usize, bool)
    requires open { has_end (received ring.old) ≡ false }
    ensures bound { (result.0 ≤ length buf.new) × (length buf.new ≡ length buf.old) }
    ensures bytes { bytes_in (received ring.new) ≡ bytes_in (received ring.old) ++ take result.0 buf.new }
    ensures end { result.1 ≡ has_end (received ring.new) }
    ensures ring { SameConsumer ring.old ring.new }
{
    for at in 0..buf.len() {
        match ring.pop() {
            Ok(Some(byte)) => buf[at] = byte,
            Ok(None) => return (at, true),
            Err(_) => return (at, false),
        }
    }
    (buf.len(), false)
}

// The same, but waits until there is something.
fn await_some<T: Wait>(rt: &T, gate: &Gate, ring: &mut Exit, buf: &mut [u8]) -> (usize, bool)
    requires open { has_end (received ring.old) ≡ false }
    requires some { 0 < length buf.old }
    ensures bound { result.0 ≤ length buf.new }
    ensures bytes { bytes_in (received ring.new) ≡ bytes_in (received ring.old) ++ take result.0 buf.new }
    ensures end { result.1 ≡ has_end (received ring.new) }
    ensures some { result.0 ≡ 0 → result.1 ≡ true }
    ensures ring { SameConsumer ring.old ring.new }
{
    for _ in rt.forever() {
        let seen = gate.count(rt);
        let (n, is_at_end) = take_some(ring, buf);
        if n > 0 || is_at_end {
            gate.tell(rt);
            return (n, is_at_end);
        }
        gate.wait_past(rt, seen);
    }
    unreachable!()
}

impl<'a, T: Wait> Sink for PipeInlet<'a, T> {
    ghost told = { λ s. record { faults = 0; taken = Some (bytes_in (sent s.ring)); is_open = s.is_open; number = None } };

    fn write(&mut self, piece: &[u8]) -> Result<usize, Failed>
        requires { (⟦<PipeInlet<'a, T> as Sink>⟧.told self.old).is_open ≡ true }
        ensures bound { WritesAtMost result piece.now }
        ensures some { 0 < length piece.now → IfOk result (λ n. 0 < n) }
        ensures bytes { WriteAppends (⟦<PipeInlet<'a, T> as Sink>⟧.told self.old).taken (⟦<PipeInlet<'a, T> as Sink>⟧.told self.new).taken result piece.now }
        ensures silent { StaysUntold (⟦<PipeInlet<'a, T> as Sink>⟧.told self.old).taken (⟦<PipeInlet<'a, T> as Sink>⟧.told self.new).taken }
        ensures cause { HasCause (⟦<PipeInlet<'a, T> as Sink>⟧.told self.old).faults (⟦<PipeInlet<'a, T> as Sink>⟧.told self.new).faults result }
        ensures stays { ((⟦<PipeInlet<'a, T> as Sink>⟧.told self.new).is_open ≡ true) × ((⟦<PipeInlet<'a, T> as Sink>⟧.told self.new).number ≡ (⟦<PipeInlet<'a, T> as Sink>⟧.told self.old).number) }
        ensures pipe { SameProducer self.old.ring self.new.ring }
    {
        let rt = self.rt;
        let room = room(rt, &self.gate, &mut self.ring);
        let n = piece.len().min(room);
        put_all(&mut self.ring, &piece[..n]);
        self.gate.tell(rt);
        Ok(n)
    }

    fn flush(&mut self) -> Result<(), Failed>
        requires { (⟦<PipeInlet<'a, T> as Sink>⟧.told self.old).is_open ≡ true }
        ensures bytes { (⟦<PipeInlet<'a, T> as Sink>⟧.told self.new).taken ≡ (⟦<PipeInlet<'a, T> as Sink>⟧.told self.old).taken }
        ensures cause { HasCause (⟦<PipeInlet<'a, T> as Sink>⟧.told self.old).faults (⟦<PipeInlet<'a, T> as Sink>⟧.told self.new).faults result }
        ensures stays { ((⟦<PipeInlet<'a, T> as Sink>⟧.told self.new).is_open ≡ true) × ((⟦<PipeInlet<'a, T> as Sink>⟧.told self.new).number ≡ (⟦<PipeInlet<'a, T> as Sink>⟧.told self.old).number) }
        ensures pipe { SameProducer self.old.ring self.new.ring }
    {
        Ok(())
    }

    fn close(&mut self)
        requires { (⟦<PipeInlet<'a, T> as Sink>⟧.told self.old).is_open ≡ true }
        ensures closed { (⟦<PipeInlet<'a, T> as Sink>⟧.told self.new).is_open ≡ false }
        ensures bytes { (⟦<PipeInlet<'a, T> as Sink>⟧.told self.new).taken ≡ (⟦<PipeInlet<'a, T> as Sink>⟧.told self.old).taken }
        ensures counts { ((⟦<PipeInlet<'a, T> as Sink>⟧.told self.new).faults ≡ (⟦<PipeInlet<'a, T> as Sink>⟧.told self.old).faults)
            × ((⟦<PipeInlet<'a, T> as Sink>⟧.told self.new).number ≡ (⟦<PipeInlet<'a, T> as Sink>⟧.told self.old).number) }
        ensures pipe { SameProducer self.old.ring self.new.ring }
    {
        let rt = self.rt;
        self.ring.push_reserved(None);
        self.is_open = false;
        self.gate.tell(rt);
    }
}

impl<'a, T: Wait> Feed for PipeOutlet<'a, T> {
    ghost stays = { λ old new. SameConsumer old.ring new.ring };

    ghost heard = { λ s. bytes_in (received s.ring) };

    ghost is_at_end = { λ s. s.is_at_end };

    fn listen_to(&mut self, buf: &mut [u8]) -> usize {
        if self.is_at_end {
            return 0;
        }
        let rt = self.rt;
        let (n, is_at_end) = await_some(rt, &self.gate, &mut self.ring, buf);
        self.is_at_end = is_at_end;
        n
    }
}

impl<'a, T: Wait> PipeOutlet<'a, T> {
    // Who holds both halves knows that what was heard, and then what wasn't, is what was written; all of it once the end was heard.
    pub(super) fn settle(&mut self, inlet: &mut PipeInlet<'a, T>)
        requires { IsPair inlet.old.ring self.old.ring }
        ensures heard { (rest : List ℕ) × (bytes_in (sent inlet.new.ring) ≡ bytes_in (received self.new.ring) ++ rest) × (self.new.is_at_end ≡ true → rest ≡ []) }
        ensures same { (received self.new.ring ≡ received self.old.ring) × (sent inlet.new.ring ≡ sent inlet.old.ring) }
    {
        self.ring.slots_beside(&mut inlet.ring);
    }
}
