// The roles of a kit, each with its pass, in a thread or not.
ghost use Rattle.std.specs.Prelude.{◌≡◌, bytes_eq, codes, take};
ghost use Rattle.kit_async.specs.Turns.{is_tagged, is_transfer};

use crate::timed::Timed;
use crate::work::{Turn, Why, listen, read_turn, speak, toil, work_turn, write_turn};
use ann_outside::{Sink, Source};
use kit_async_core::KitCore;
use kit_async_model::hearing::text_in;
use kit_serve::kit::Remote;
use std::alloc::Global;
use std::sync::Wait;
use threads::roles::Role;
use threads::{Hall, Pass};
use wire_line::{Next, Splitter};

// Whether the line has a tag.
fn is_tagged(line: &[u8]) -> bool
    ensures { result ≡ is_tagged line.now }
{
    matches!(line, [b'J', b' ', ..])
}

// Whether these are the first bytes of a request to send or to fetch a content.
fn begins_transfer(text: &[u8]) -> bool
    ensures { result ≡ bytes_eq (take 9 text.now) (codes "TRANSFER ") }
{
    matches!(
        text,
        [b'T', b'R', b'A', b'N', b'S', b'F', b'E', b'R', b' ', ..]
    )
}

// Whether the line has a tag, and asks to send or to fetch a content.
fn is_transfer(line: &[u8]) -> bool
    ensures { result ≡ is_transfer line.now }
{
    is_tagged(line) && begins_transfer(text_in(true, line))
}

/// What reads, and why it ended by itself, if it did.
#[derive(Drop)]
pub(crate) struct Reader<'a, S: Source, R: Wait> {
    pub(crate) rt: &'a R,
    pub(crate) alloc: Global,
    pub(crate) hall: &'a Hall<KitCore>,
    pub(crate) pass: Pass<KitCore>,
    pub(crate) source: S,
    pub(crate) splitter: Splitter,
    pub(crate) why: Option<Why>,
}

impl<'a, S: Timed, R: Wait> Role for Reader<'a, S, R> {
    ghost use Rattle.kit_async.specs.Turns.{ReaderCan, ReaderRuns};

    ghost can_run = { ReaderCan S.told };

    ghost ran = { ReaderRuns S.told };

    fn run(self) -> Self {
        if self.why.is_some() {
            return self;
        }
        let Reader {
            rt,
            alloc,
            hall,
            mut pass,
            mut source,
            mut splitter,
            why: _,
        } = self;
        let why = listen(rt, alloc, hall, &mut pass, &mut source, &mut splitter);
        Reader {
            rt,
            alloc,
            hall,
            pass,
            source,
            splitter,
            why,
        }
    }
}

impl<'a, S: Source, R: Wait> Reader<'a, S, R> {
    ghost use Rattle.std.specs.Prelude.{◌≡◌};
    ghost use Rattle.kit_serve.specs.Limits.{longest_line};
    ghost use Rattle.wire_line.specs.HeldBytes.{has_line};
    ghost use Rattle.kit_async.specs.Turns.{ReaderCan, ReaderGoes, holds, is_tagged, is_transfer};

    /// Whether a line stands first in what is held.
    pub(crate) fn holds_line(&self) -> bool
        requires { self.now.splitter.limit ≡ longest_line }
        ensures { result ≡ has_line longest_line self.now.splitter.bytes }
    {
        match self.splitter.first() {
            Next::Line(_) => true,
            Next::Long => false,
            Next::More => false,
        }
    }

    /// Whether a line that has a tag stands first there.
    pub(crate) fn holds_tagged(&self) -> bool
        requires { self.now.splitter.limit ≡ longest_line }
        ensures { result ≡ holds is_tagged self.now.splitter.bytes }
    {
        match self.splitter.first() {
            Next::Line(line) => is_tagged(line),
            Next::Long => false,
            Next::More => false,
        }
    }

    /// Whether a request to send or to fetch a content stands first there, which has a tag.
    pub(crate) fn holds_transfer(&self) -> bool
        requires { self.now.splitter.limit ≡ longest_line }
        ensures { result ≡ holds is_transfer self.now.splitter.bytes }
    {
        match self.splitter.first() {
            Next::Line(line) => is_transfer(line),
            Next::Long => false,
            Next::More => false,
        }
    }

    /// One turn, by the thread that calls it, and whether something was done. Nothing is, once it ended by itself.
    pub(crate) fn turn(&mut self) -> bool
        requires can { ReaderCan S.told self.old }
        ensures went { ReaderGoes S.told self.old self.new }
        ensures can { ReaderCan S.told self.new }
        ensures hall { self.new.hall.now ≡ self.old.hall.now }
    {
        if self.why.is_some() {
            return false;
        }
        let (rt, alloc, hall) = (self.rt, self.alloc, self.hall);
        let turn = read_turn(
            rt,
            alloc,
            hall,
            &mut self.pass,
            &mut self.source,
            &mut self.splitter,
        );
        self.why = turn.why();
        turn.went()
    }
}

/// What writes, and why it ended by itself, if it did.
#[derive(Drop)]
pub(crate) struct Writer<'a, W: Sink, R: Wait> {
    pub(crate) rt: &'a R,
    pub(crate) hall: &'a Hall<KitCore>,
    pub(crate) pass: Pass<KitCore>,
    pub(crate) sink: W,
    pub(crate) why: Option<Why>,
}

impl<'a, W: Sink, R: Wait> Role for Writer<'a, W, R> {
    ghost use Rattle.kit_async.specs.Turns.{WriterCan, WriterRuns};

    ghost can_run = { WriterCan W.told };

    ghost ran = { WriterRuns W.told };

    fn run(self) -> Self {
        if self.why.is_some() {
            return self;
        }
        let Writer {
            rt,
            hall,
            mut pass,
            mut sink,
            why: _,
        } = self;
        let why = speak(rt, hall, &mut pass, &mut sink);
        Writer {
            rt,
            hall,
            pass,
            sink,
            why,
        }
    }
}

impl<'a, W: Sink, R: Wait> Writer<'a, W, R> {
    ghost use Rattle.std.specs.Prelude.{◌≡◌, true};
    ghost use Rattle.threads.specs.Passes.{seen_of};
    ghost use Rattle.kit_async.specs.Work.Passes.{is_rest};
    ghost use Rattle.kit_async.specs.Work.Writing.{AllWritten};
    ghost use Rattle.kit_async.specs.Turns.{WriterCan, WriterGoes};

    /// One turn, by the thread that calls it. Nothing is done, once it ended by itself.
    pub(crate) fn turn(&mut self) -> Turn
        requires can { WriterCan W.told self.old }
        ensures went { WriterGoes W.told self.old self.new }
        ensures can { WriterCan W.told self.new }
        ensures hall { self.new.hall.now ≡ self.old.hall.now }
        ensures waits { is_rest result ≡ true → AllWritten (seen_of self.new.pass) }
    {
        if self.why.is_some() {
            return Turn::Over(self.why);
        }
        let (rt, hall) = (self.rt, self.hall);
        let turn = write_turn(rt, hall, &mut self.pass, &mut self.sink);
        self.why = turn.why();
        turn
    }
}

/// What calls the remote of that number.
#[derive(Drop)]
pub(crate) struct Worker<'a, K: Remote, R: Wait> {
    pub(crate) rt: &'a R,
    pub(crate) hall: &'a Hall<KitCore>,
    pub(crate) pass: Pass<KitCore>,
    pub(crate) number: u32,
    pub(crate) remote: K,
}

impl<'a, K: Remote, R: Wait> Role for Worker<'a, K, R> {
    ghost use Rattle.std.specs.Prelude.{◌≡◌, ◌+◌};
    ghost use Rattle.kit_async.specs.Work.Passes.{Stands};
    ghost use Rattle.kit_async.specs.Turns.{WorkerGoes};

    ghost can_run = { λ s. Stands s.hall.now (s.number + 3) s.pass };

    ghost ran = { WorkerGoes K.Remote };

    fn run(self) -> Self {
        let Worker {
            rt,
            hall,
            mut pass,
            number,
            mut remote,
        } = self;
        toil(rt, hall, &mut pass, number, &mut remote);
        Worker {
            rt,
            hall,
            pass,
            number,
            remote,
        }
    }
}

impl<'a, K: Remote, R: Wait> Worker<'a, K, R> {
    ghost use Rattle.std.specs.Prelude.{◌+◌};
    ghost use Rattle.kit_async.specs.Work.Passes.{Stands};
    ghost use Rattle.kit_async.specs.Turns.{WorkerGoes};

    /// One turn, by the thread that calls it, unless the turns before did something; and what came of all.
    pub(crate) fn turn(&mut self, before: Turn) -> Turn
        requires { Stands self.old.hall.now (self.old.number + 3) self.old.pass }
        ensures { WorkerGoes K.Remote self.old self.new }
    {
        if before.went() {
            return before;
        }
        let (rt, hall, number) = (self.rt, self.hall, self.number);
        let turn = work_turn(rt, hall, &mut self.pass, number, &mut self.remote);
        before.and(turn)
    }
}
