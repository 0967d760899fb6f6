// What a remote says of its own accord while it works on a request.
ghost use Rattle.std.specs.Prelude.{◌≡◌, ◌<◌, [], not, None, Some, true, false, IfErr, IfOk, IsTrue, length};
ghost use Rattle.std.specs.Io.{WritesAtMost};
ghost use Rattle.std.specs.Io.KnownBytes.{WriteAppends};
ghost use Rattle.ann_key.specs.KeyRefs.{text_of};
ghost use Rattle.annex_model.specs.Lines.{has_newline};
ghost use Rattle.annex_model.specs.Messages.{is_sent_key, is_word};
ghost use Rattle.ann_outside.specs.Causes.{HasCause, StaysUntold};
ghost use Rattle.kit_serve.specs.LineSinks.{ends_line, kept_back};
ghost use Rattle.kit_serve.specs.Telling.{Says};

use crate::line_sink::LineSink;
use crate::streams::Mouth;
use ann_key::{KeyRef, NoMemory};
use ann_outside::{Failed, Sink};
use std::alloc::Global;
use std::sync::{Arc, Mutex, Wait};

/// Why something wasn't said.
#[derive(Clone, Copy, Debug, PartialEq, Eq)]
pub enum NotTold {
    /// No memory was found. Nothing was written.
    NoMemory,
    /// Writing failed, now or before. Nothing more is written.
    Failed,
}

/// The half of a shared sink that a remote keeps. Each of its calls says one whole line, at once: it waits for the sink where the
/// other half is writing.
#[derive(Drop)]
pub struct Teller<'a, T, W: Mouth> {
    rt: &'a T,
    alloc: Global,
    lines: Arc<Mutex<LineSink<W>>, Global>,
}

/// The half of a shared sink that a remote is served to. What is written to it goes to the sink when it is flushed and the last
/// line has its end, all of it together. Closing it lets go neither of the sink nor of the other half.
#[derive(Drop)]
pub struct SharedSink<'a, T, W: Mouth> {
    rt: &'a T,
    lines: Arc<Mutex<LineSink<W>>, Global>,
    // What was written and isn't handed on.
    held: Vec<u8>,
    faults: u64,
    is_open: bool,
}

/// Two halves of one sink: one for `serve`, and one for the remote that is served. Both may be used at the same time.
pub fn share<'a, T: Wait, W: Sink + Drop>(
    rt: &'a T,
    alloc: Global,
    sink: W,
) -> Result<(SharedSink<'a, T, W>, Teller<'a, T, W>), NoMemory>
    requires { (W.told sink).is_open ≡ true }
    ensures open { IfOk result (λ halves. (⟦<SharedSink<'a, T, W> as Sink>⟧.told halves.0).is_open ≡ true) }
{
    let one = Arc::new(alloc, Mutex::new(LineSink::new(sink)))?;
    let two = Arc::try_clone(&one)?;
    let half = SharedSink {
        rt,
        lines: one,
        held: Vec::new(alloc),
        faults: 0,
        is_open: true,
    };
    let teller = Teller {
        rt,
        alloc,
        lines: two,
    };
    Ok((half, teller))
}

// Counts a fault where the outcome is one, and hands the outcome on.
fn counted<V>(faults: &mut u64, outcome: Result<V, Failed>) -> Result<V, Failed>
    ensures same { result ≡ outcome }
    ensures cause { HasCause faults.old faults.new result }
{
    if outcome.is_err() {
        *faults = faults.saturating_add(1);
    }
    outcome
}

// Whether the last line has its end.
fn ends_line(bytes: &[u8]) -> bool
    ensures { result ≡ ends_line bytes.now }
{
    match bytes.last() {
        Some(byte) => *byte == b'\n',
        None => true,
    }
}

// Adds all of the piece.
fn hold(held: &mut Vec<u8>, piece: &[u8]) -> Result<usize, Failed>
    ensures all { IfOk result (λ n. n ≡ length piece.now) }
    ensures held { WriteAppends (Some held.old.items) (Some held.new.items) result piece.now }
{
    match held.extend_from_slice(piece) {
        Ok(()) => Ok(piece.len()),
        Err(_) => Err(Failed),
    }
}

// Says what is held, and holds nothing more.
fn say_held<W: Mouth>(lines: &mut LineSink<W>, held: &mut Vec<u8>) -> Result<(), Failed>
    requires { IsTrue (ends_line held.old.items) }
    ensures says { Says W.told lines.old lines.new held.old.items result }
    ensures held { held.new.items ≡ [] }
{
    let done = lines.say(held);
    held.clear();
    done
}

impl<'a, T: Wait, W: Mouth> SharedSink<'a, T, W> {
    // Says what is held, if its last line has its end.
    fn pass_on(&mut self) -> Result<(), Failed>
        ensures held { self.new.held.items ≡ kept_back self.old.held.items }
        ensures waits { ends_line self.old.held.items ≡ false → IfErr result (λ _. ⊥) }
        ensures rest { self.new ≡ record self.old { held = self.new.held } }
    {
        if !ends_line(&self.held) {
            return Ok(());
        }
        let mut lines = self.lines.lock(self.rt);
        say_held(&mut lines, &mut self.held)
    }
}

impl<'a, T: Wait, W: Mouth> Sink for SharedSink<'a, T, W> {
    ghost told = { λ s. record { faults = s.faults; taken = None; is_open = s.is_open; number = None } };

    fn write(&mut self, piece: &[u8]) -> Result<usize, Failed>
        requires { (⟦<SharedSink<'a, T, W> as Sink>⟧.told self.old).is_open ≡ true }
        ensures bound { WritesAtMost result piece.now }
        ensures some { 0 < length piece.now → IfOk result (λ n. 0 < n) }
        ensures bytes { WriteAppends (⟦<SharedSink<'a, T, W> as Sink>⟧.told self.old).taken (⟦<SharedSink<'a, T, W> as Sink>⟧.told self.new).taken result piece.now }
        ensures silent { StaysUntold (⟦<SharedSink<'a, T, W> as Sink>⟧.told self.old).taken (⟦<SharedSink<'a, T, W> as Sink>⟧.told self.new).taken }
        ensures cause { HasCause (⟦<SharedSink<'a, T, W> as Sink>⟧.told self.old).faults (⟦<SharedSink<'a, T, W> as Sink>⟧.told self.new).faults result }
        ensures stays { ((⟦<SharedSink<'a, T, W> as Sink>⟧.told self.new).is_open ≡ true)
            × ((⟦<SharedSink<'a, T, W> as Sink>⟧.told self.new).number ≡ (⟦<SharedSink<'a, T, W> as Sink>⟧.told self.old).number) }
        ensures held { WriteAppends (Some self.old.held.items) (Some self.new.held.items) result piece.now }
    {
        let done = hold(&mut self.held, piece);
        counted(&mut self.faults, done)
    }

    fn flush(&mut self) -> Result<(), Failed>
        requires { (⟦<SharedSink<'a, T, W> as Sink>⟧.told self.old).is_open ≡ true }
        ensures bytes { (⟦<SharedSink<'a, T, W> as Sink>⟧.told self.new).taken ≡ (⟦<SharedSink<'a, T, W> as Sink>⟧.told self.old).taken }
        ensures cause { HasCause (⟦<SharedSink<'a, T, W> as Sink>⟧.told self.old).faults (⟦<SharedSink<'a, T, W> as Sink>⟧.told self.new).faults result }
        ensures open { (⟦<SharedSink<'a, T, W> as Sink>⟧.told self.new).is_open ≡ true }
        ensures number { (⟦<SharedSink<'a, T, W> as Sink>⟧.told self.new).number ≡ (⟦<SharedSink<'a, T, W> as Sink>⟧.told self.old).number }
        ensures held { self.new.held.items ≡ kept_back self.old.held.items }
    {
        let done = self.pass_on();
        counted(&mut self.faults, done)
    }

    fn close(&mut self) {
        self.is_open = false;
    }
}

impl<'a, T: Wait, W: Mouth> Teller<'a, T, W> {
    /// Says PROGRESS: so many bytes of the content are transferred.
    pub fn progress(&self, bytes: u64) -> Result<(), NotTold> {
        self.lines.lock(self.rt).progress(self.alloc, bytes)
    }

    /// Says DEBUG, with the text's first line.
    pub fn debug(&self, text: &[u8]) -> Result<(), NotTold> {
        self.lines.lock(self.rt).debug(self.alloc, text)
    }

    /// Says INFO, with the text's first line.
    pub fn info(&self, text: &[u8]) -> Result<(), NotTold> {
        self.lines.lock(self.rt).info(self.alloc, text)
    }

    /// Says SETSTATE: the key's state is the value's first line.
    pub fn set_state(&self, key: KeyRef<'_>, value: &[u8]) -> Result<(), NotTold>
        requires { IsTrue (is_sent_key (text_of key)) }
    {
        self.lines.lock(self.rt).set_state(self.alloc, key, value)
    }

    /// Says SETURLPRESENT: the key's content can be fetched from the URL, which is the text's first line.
    pub fn set_url_present(&self, key: KeyRef<'_>, url: &[u8]) -> Result<(), NotTold>
        requires { IsTrue (is_sent_key (text_of key)) }
    {
        self.lines
            .lock(self.rt)
            .set_url_present(self.alloc, key, url)
    }

    /// Says SETCONFIG: the setting's value is the value's first line. The name holds neither a space nor a line end.
    pub fn set_config(&self, name: &[u8], value: &[u8]) -> Result<(), NotTold>
        requires word { IsTrue (is_word name.now) }
        requires line { IsTrue (not (has_newline name.now)) }
    {
        self.lines.lock(self.rt).set_config(self.alloc, name, value)
    }
}
