// A sink to which whole lines alone go.
ghost use Rattle.std.specs.Prelude.{◌≡◌, ◌==◌, ℕ, not, take, true, false, IfOk, IsTrue, OnOk};
ghost use Rattle.std.specs.List.{before_first};
ghost use Rattle.std.specs.Io.KnownBytes.{Appends};
ghost use Rattle.ann_key.specs.KeyRefs.{text_of};
ghost use Rattle.ann_outside.specs.Causes.{HasCause, StaysUntold};
ghost use Rattle.annex_model.specs.Lines.{has_newline};
ghost use Rattle.annex_model.specs.Messages.{IsSayable, remote_line, Progress, Debug, Info, Setstate, Seturlpresent, Setconfig, is_sent_key, is_word};
ghost use Rattle.wire_msg.specs.Shown.{remote_shown};
ghost use Rattle.kit_serve.specs.LineSinks.{ends_line};
ghost use Rattle.kit_serve.specs.Telling.{Says, Tells, line_of};

use crate::kit::first_line;
use crate::streams::Mouth;
use crate::telling::NotTold;
use ann_key::{Bytes, KeyRef, NoMemory};
use ann_outside::{Failed, Sink, write_all};
use std::alloc::Global;
use std::marker::Model;
use std::snapshot::Snapshot;
use wire_msg::{RemoteMsg, write_remote};

/// A sink to which whole lines alone go, and at once. Where writing failed it takes nothing more, so no line follows a piece of
/// another.
///
/// Contracts see of it the sink, the same as it was at first, and whether it takes nothing more.
#[derive(Drop)]
pub struct LineSink<W: Mouth> {
    sink: W,
    begun: Snapshot<W>,
    is_over: bool,
}

impl<W: Mouth> Model for LineSink<W> {
    ghost use Rattle.std.specs.Prelude.{◌≡◌, true, false};
    ghost use Rattle.kit_serve.specs.LineSinks.{LineSinkValue, TookLines};

    ghost Value = { LineSinkValue W };

    ghost view = { λ s. record { sink = s.sink; begun = s.begun.value; is_over = s.is_over } };

    ghost invariant = { λ s. s.is_over ≡ false → ((W.told s.sink).is_open ≡ true) × (W.is_flushed s.sink ≡ true) × TookLines (W.told s.begun.value).taken (W.told s.sink).taken };
}

// Writes the bytes and hands them on. After `Failed` the sink has taken the first of them.
fn put<W: Mouth>(sink: &mut W, bytes: &[u8]) -> Result<(), Failed>
    requires { (W.told sink.old).is_open ≡ true }
    ensures ok { OnOk result (Appends (W.told sink.old).taken (W.told sink.new).taken bytes.now) }
    ensures prefix { (n : ℕ) × Appends (W.told sink.old).taken (W.told sink.new).taken (take n bytes.now) }
    ensures flushed { OnOk result (W.is_flushed sink.new ≡ true) }
    ensures silent { StaysUntold (W.told sink.old).taken (W.told sink.new).taken }
    ensures cause { HasCause (W.told sink.old).faults (W.told sink.new).faults result }
    ensures stays { ((W.told sink.new).is_open ≡ true) × ((W.told sink.new).number ≡ (W.told sink.old).number) }
{
    write_all(sink, bytes)?;
    sink.hand_on()
}

// The message as a line with its end.
fn told_line(alloc: Global, message: &RemoteMsg<'_>) -> Result<Bytes, NoMemory>
    requires sayable { IsSayable (remote_shown message.now) }
    ensures line { IfOk result (λ b. b ≡ line_of (remote_shown message.now)) }
{
    let mut line = write_remote(alloc, message)?.into_vec();
    line.push(b'\n')?;
    Ok(Bytes::from_vec(line))
}

impl<W: Mouth> LineSink<W> {
    /// That sink, which took no line yet.
    pub fn new(sink: W) -> LineSink<W>
        requires open { (W.told sink).is_open ≡ true }
        requires flushed { W.is_flushed sink ≡ true }
        ensures { result ≡ record { sink = sink; begun = sink; is_over = false } }
    {
        LineSink {
            begun: Snapshot::of(&sink),
            sink,
            is_over: false,
        }
    }

    /// Writes whole lines and hands them on. After `Failed` the sink took the first bytes of them, and takes nothing more.
    pub fn say(&mut self, lines: &[u8]) -> Result<(), Failed>
        requires { IsTrue (ends_line lines.now) }
        ensures says { Says W.told self.old self.new lines.now result }
        ensures flushed { OnOk result (W.is_flushed self.new.sink ≡ true) }
        ensures begun { self.new.begun ≡ self.old.begun }
    {
        if self.is_over {
            return Err(Failed);
        }
        let done = put(&mut self.sink, lines);
        self.is_over = done.is_err();
        done
    }

    // Says the message, as one line.
    fn tell(&mut self, alloc: Global, message: &RemoteMsg<'_>) -> Result<(), NotTold>
        requires sayable { IsSayable (remote_shown message.now) }
        requires line { has_newline (remote_line (remote_shown message.now)) ≡ false }
        ensures tells { Tells W.told self.old self.new (remote_shown message.now) result }
        ensures begun { self.new.begun ≡ self.old.begun }
    {
        let Ok(line) = told_line(alloc, message) else {
            return Err(NotTold::NoMemory);
        };
        match self.say(line.view()) {
            Ok(()) => Ok(()),
            Err(Failed) => Err(NotTold::Failed),
        }
    }

    /// Says PROGRESS: so many bytes of the content are transferred.
    pub fn progress(&mut self, alloc: Global, bytes: u64) -> Result<(), NotTold>
        ensures tells { Tells W.told self.old self.new (Progress bytes) result }
        ensures begun { self.new.begun ≡ self.old.begun }
    {
        self.tell(alloc, &RemoteMsg::Progress(bytes))
    }

    /// Says DEBUG, with the text's first line.
    pub fn debug(&mut self, alloc: Global, text: &[u8]) -> Result<(), NotTold>
        ensures tells { Tells W.told self.old self.new (Debug (before_first (λ b. b == 10) text.now)) result }
        ensures begun { self.new.begun ≡ self.old.begun }
    {
        self.tell(alloc, &RemoteMsg::Debug(first_line(text)))
    }

    /// Says INFO, with the text's first line.
    pub fn info(&mut self, alloc: Global, text: &[u8]) -> Result<(), NotTold>
        ensures tells { Tells W.told self.old self.new (Info (before_first (λ b. b == 10) text.now)) result }
        ensures begun { self.new.begun ≡ self.old.begun }
    {
        self.tell(alloc, &RemoteMsg::Info(first_line(text)))
    }

    /// Says SETSTATE: the key's state is the value's first line.
    pub fn set_state(&mut self, alloc: Global, key: KeyRef<'_>, value: &[u8]) -> Result<(), NotTold>
        requires { IsTrue (is_sent_key (text_of key)) }
        ensures tells { Tells W.told self.old self.new (Setstate (text_of key.entry) (before_first (λ b. b == 10) value.now)) result }
        ensures begun { self.new.begun ≡ self.old.begun }
    {
        self.tell(alloc, &RemoteMsg::Setstate(key, first_line(value)))
    }

    /// Says SETURLPRESENT: the key's content can be fetched from the URL, which is the text's first line.
    pub fn set_url_present(
        &mut self,
        alloc: Global,
        key: KeyRef<'_>,
        url: &[u8],
    ) -> Result<(), NotTold>
        requires { IsTrue (is_sent_key (text_of key)) }
        ensures tells { Tells W.told self.old self.new (Seturlpresent (text_of key.entry) (before_first (λ b. b == 10) url.now)) result }
        ensures begun { self.new.begun ≡ self.old.begun }
    {
        self.tell(alloc, &RemoteMsg::Seturlpresent(key, first_line(url)))
    }

    /// Says SETCONFIG: the setting's value is the value's first line. The name holds neither a space nor a line end.
    pub fn set_config(&mut self, alloc: Global, name: &[u8], value: &[u8]) -> Result<(), NotTold>
        requires word { IsTrue (is_word name.now) }
        requires line { IsTrue (not (has_newline name.now)) }
        ensures tells { Tells W.told self.old self.new (Setconfig name.now (before_first (λ b. b == 10) value.now)) result }
        ensures begun { self.new.begun ≡ self.old.begun }
    {
        self.tell(alloc, &RemoteMsg::Setconfig(name, first_line(value)))
    }

    /// The sink. It takes no memory.
    pub fn close(self) -> W
        ensures { result ≡ self.sink }
    {
        let LineSink {
            sink,
            begun: _,
            is_over: _,
        } = self;
        sink
    }
}
