// What writes the lines that are said.
ghost use Rattle.std.specs.Prelude.{◌≡◌, ◌++◌, ◌∷◌, [], ℕ, take, true, false, OnOk, IsErr};
ghost use Rattle.std.specs.Io.KnownBytes.{Appends};
ghost use Rattle.ann_outside.specs.Causes.{StaysUntold};
ghost use Rattle.kit_serve.specs.Turns.{Leaves, sink_half};
ghost use Rattle.threads.specs.Passes.{seen_of};
ghost use Rattle.kit_async.specs.Work.Passes.{Stands, is_rest, why_of};
ghost use Rattle.kit_async.specs.Work.Writing.{AllWritten, IsNextLine, WriterRan, mouth_of};

use crate::work::turn::{Turn, enter, stop_for};
use crate::work::why::Why;
use ann_key::Bytes;
use ann_outside::{Failed, Sink};
use kit_async_core::KitCore;
use kit_async_model::{Event, Reply};
use kit_serve::write_line;
use std::sync::Wait;
use threads::{Hall, Pass};

// Writes the line and hands it on. After `Failed` the sink has taken the first bytes of it.
fn put<W: Sink>(sink: &mut W, line: &[u8]) -> Result<(), Failed>
    requires { (W.told sink.old).is_open ≡ true }
    ensures ok { OnOk result (Appends (W.told sink.old).taken (W.told sink.new).taken (line.now ++ 10 ∷ [])) }
    ensures prefix { (n : ℕ) × Appends (W.told sink.old).taken (W.told sink.new).taken (take n (line.now ++ 10 ∷ [])) }
    ensures silent { StaysUntold (W.told sink.old).taken (W.told sink.new).taken }
    ensures sink { Leaves (sink_half (W.told sink.old)) (sink_half (W.told sink.new)) (IsErr result) }
{
    write_line(sink, line)?;
    sink.flush()
}

// Writes the line, and then tells the core that it is written.
fn write<W: Sink, R: Wait>(
    rt: &R,
    hall: &Hall<KitCore>,
    pass: &mut Pass<KitCore>,
    sink: &mut W,
    line: &Bytes,
) -> Turn
    requires stands { Stands hall.now 2 pass.old }
    requires open { (W.told sink.old).is_open ≡ true }
    requires line { IsNextLine (seen_of pass.old) line.now }
    ensures ran { WriterRan hall.now pass.old pass.new (mouth_of (W.told sink.old)) (mouth_of (W.told sink.new)) (why_of result) }
    ensures acts { is_rest result ≡ false }
{
    match put(sink, line.view()) {
        Ok(()) => {
            // There is room for it.
            let _ = enter(rt, hall, pass, Event::Wrote);
            Turn::Went
        }
        Err(Failed) => stop_for(rt, hall, pass, Why::WriteFault),
    }
}

/// Writes the next line, if one is said.
pub fn write_turn<W: Sink, R: Wait>(
    rt: &R,
    hall: &Hall<KitCore>,
    pass: &mut Pass<KitCore>,
    sink: &mut W,
) -> Turn
    requires stands { Stands hall.now 2 pass.old }
    requires open { (W.told sink.old).is_open ≡ true }
    ensures ran { WriterRan hall.now pass.old pass.new (mouth_of (W.told sink.old)) (mouth_of (W.told sink.new)) (why_of result) }
    ensures waits { is_rest result ≡ true → AllWritten (seen_of pass.new) }
{
    match enter(rt, hall, pass, Event::Next) {
        Some(Reply::Line(line)) => write(rt, hall, pass, sink, &line),
        Some(Reply::Wait) => Turn::Rests,
        Some(_) => Turn::Over(None),
        None => stop_for(rt, hall, pass, Why::Memory),
    }
}

/// Takes turns until there is nothing more to write, and tells why, where it ended by itself.
pub fn speak<W: Sink, R: Wait>(
    rt: &R,
    hall: &Hall<KitCore>,
    pass: &mut Pass<KitCore>,
    sink: &mut W,
) -> Option<Why>
    requires stands { Stands hall.now 2 pass.old }
    requires open { (W.told sink.old).is_open ≡ true }
    ensures ran { WriterRan hall.now pass.old pass.new (mouth_of (W.told sink.old)) (mouth_of (W.told sink.new)) result }
{
    for _ in rt.forever() {
        match write_turn(rt, hall, pass, sink) {
            Turn::Went => {}
            Turn::Rests => hall.rest(rt, pass),
            Turn::Over(why) => return why,
        }
    }
    unreachable!()
}
