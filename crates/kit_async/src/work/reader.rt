// What reads the host's lines, and tells them to the core.
ghost use Rattle.std.specs.Prelude.{◌≡◌, ℕ, List, true, false, Some, None, IfOk, IsTrue};
ghost use Rattle.annex_model.specs.Lines.{has_newline};
ghost use Rattle.wire_line.specs.HeldBytes.{first_line, has_line, TakesLine};
ghost use Rattle.kit_serve.specs.Limits.{longest_line};
ghost use Rattle.kit_async.specs.Work.Passes.{Stands, why_of};
ghost use Rattle.kit_async.specs.declared.work.turn.Turn.TheVariants.{Over};
ghost use Rattle.kit_async.specs.Work.Reading.{Hears, IsFirst, IsQuiet, ReaderRan, ear_of, is_taken, why_ended};

use crate::timed::Timed;
use crate::work::turn::{Turn, enter, stop_for};
use crate::work::why::Why;
use ann_key::{Bytes, NoMemory};
use ann_outside::Source;
use kit_async_core::KitCore;
use kit_async_model::{Event, Reply};
use kit_serve::{End, fill};
use std::alloc::Global;
use std::sync::Wait;
use threads::{Hall, Pass};
use wire_line::{Next, Splitter};

/// What stands first in what is held.
#[derive(Drop)]
pub enum First {
    Line(Bytes),
    Long,
    More,
}

fn first_of(alloc: Global, splitter: &Splitter) -> Result<First, NoMemory>
    requires { splitter.now.limit ≡ longest_line }
    ensures { IfOk result (IsFirst splitter.now.bytes) }
{
    match splitter.first() {
        Next::Line(line) => {
            let line = Bytes::copy(alloc, line)?;
            Ok(First::Line(line))
        }
        Next::Long => Ok(First::Long),
        Next::More => Ok(First::More),
    }
}

// Whether the core took the line.
fn is_taken(reply: &Reply) -> bool
    ensures { result ≡ is_taken reply.now }
{
    matches!(reply, Reply::Done | Reply::Last)
}

// What is done next, once the core answered a line so.
fn turn_by(reply: &Reply) -> Turn
    ensures { why_of result ≡ None }
{
    match reply {
        Reply::Done => Turn::Went,
        Reply::Wait => Turn::Rests,
        _ => Turn::Over(None),
    }
}

// A line that was taken is held no more.
fn drop_taken(splitter: &mut Splitter, taken: bool)
    requires { IsTrue (has_line splitter.old.limit splitter.old.bytes) }
    ensures taken { taken ≡ true → TakesLine splitter.old.bytes (first_line splitter.old.bytes) splitter.new.bytes }
    ensures kept { taken ≡ false → splitter.new.bytes ≡ splitter.old.bytes }
    ensures limit { splitter.new.limit ≡ splitter.old.limit }
{
    if taken {
        splitter.drop_line();
    }
}

// The line that stands first is told to the core. It stays held where the core can't hear it yet.
fn hear<R: Wait>(
    rt: &R,
    hall: &Hall<KitCore>,
    pass: &mut Pass<KitCore>,
    splitter: &mut Splitter,
    line: Bytes,
) -> Turn
    requires stands { Stands hall.now 1 pass.old }
    requires limit { splitter.old.limit ≡ longest_line }
    requires line { IsTrue (has_line longest_line splitter.old.bytes) × (line ≡ first_line splitter.old.bytes) }
    ensures heard { Hears hall.now pass.old pass.new splitter.old.bytes splitter.new.bytes }
    ensures quiet { IsQuiet (why_of result) }
    ensures limit { splitter.new.limit ≡ longest_line }
{
    let Some(reply) = enter(rt, hall, pass, Event::Hear(line)) else {
        return stop_for(rt, hall, pass, Why::Memory);
    };
    drop_taken(splitter, is_taken(&reply));
    turn_by(&reply)
}

// No more is heard, for this reason. Where there is no memory to note it, the kit is broken off.
fn close<R: Wait>(rt: &R, hall: &Hall<KitCore>, pass: &mut Pass<KitCore>, why: Why) -> Turn
    requires { Stands hall.now 1 pass.old }
    ensures heard { (held : List ℕ) → Hears hall.now pass.old pass.new held held }
    ensures ends { result ≡ Over (Some why) }
{
    let Some(_reply) = enter(rt, hall, pass, Event::Close) else {
        return stop_for(rt, hall, pass, why);
    };
    Turn::Over(Some(why))
}

// Why no more is read, by what a read came to.
fn why_ended(end: End) -> Why
    ensures { result ≡ why_ended end }
{
    match end {
        End::Eof => Why::Eof,
        End::ReadFault => Why::ReadFault,
        End::Bad | End::WriteFault | End::Memory => Why::Memory,
    }
}

// No more is read, for what a read came to.
fn end_read<R: Wait>(rt: &R, hall: &Hall<KitCore>, pass: &mut Pass<KitCore>, end: End) -> Turn
    requires { Stands hall.now 1 pass.old }
    ensures heard { (held : List ℕ) → Hears hall.now pass.old pass.new held held }
    ensures ends { result ≡ Over (Some (why_ended end)) }
{
    let why = why_ended(end);
    match why {
        Why::Memory => stop_for(rt, hall, pass, why),
        _ => close(rt, hall, pass, why),
    }
}

// One read.
fn read<S: Source, R: Wait>(
    rt: &R,
    hall: &Hall<KitCore>,
    pass: &mut Pass<KitCore>,
    source: &mut S,
    splitter: &mut Splitter,
) -> Turn
    requires stands { Stands hall.now 1 pass.old }
    requires open { (S.told source.old).is_open ≡ true }
    requires limit { splitter.old.limit ≡ longest_line }
    requires none { has_newline splitter.old.bytes ≡ false }
    ensures ran { ReaderRan hall.now pass.old pass.new (ear_of (S.told source.old) splitter.old.bytes) (ear_of (S.told source.new) splitter.new.bytes) (why_of result) }
    ensures limit { splitter.new.limit ≡ longest_line }
{
    match fill(splitter, source) {
        Ok(()) => Turn::Went,
        Err(end) => end_read(rt, hall, pass, end),
    }
}

/// Tells the core the line that stands first in what is held, or reads once.
pub fn read_turn<S: Source, R: Wait>(
    rt: &R,
    alloc: Global,
    hall: &Hall<KitCore>,
    pass: &mut Pass<KitCore>,
    source: &mut S,
    splitter: &mut Splitter,
) -> Turn
    requires stands { Stands hall.now 1 pass.old }
    requires open { (S.told source.old).is_open ≡ true }
    requires limit { splitter.old.limit ≡ longest_line }
    ensures ran { ReaderRan hall.now pass.old pass.new (ear_of (S.told source.old) splitter.old.bytes) (ear_of (S.told source.new) splitter.new.bytes) (why_of result) }
    ensures limit { splitter.new.limit ≡ longest_line }
{
    match first_of(alloc, splitter) {
        Ok(First::Line(line)) => hear(rt, hall, pass, splitter, line),
        Ok(First::Long) => close(rt, hall, pass, Why::Long),
        Ok(First::More) => read(rt, hall, pass, source, splitter),
        Err(NoMemory) => stop_for(rt, hall, pass, Why::Memory),
    }
}

// Whether nothing is held that could be told, and nothing has come that could be read.
fn would_wait<S: Timed>(source: &mut S, splitter: &Splitter) -> bool
    requires { (S.told source.old).is_open ≡ true }
    ensures { S.told source.new ≡ S.told source.old }
{
    matches!(splitter.first(), Next::More) && !source.has_come()
}

// Where nothing has come: whether anything would still be heard. A kit that is broken off hears nothing more, but a host that waits
// for its answers neither writes nor ends its input, so a read would wait for ever.
fn look<R: Wait>(rt: &R, hall: &Hall<KitCore>, pass: &mut Pass<KitCore>) -> Turn
    requires { Stands hall.now 1 pass.old }
    ensures heard { (held : List ℕ) → Hears hall.now pass.old pass.new held held }
    ensures quiet { IsQuiet (why_of result) }
{
    // No remote has the reader's number: nothing is taken up, and the answer says only whether the kit is broken off.
    match enter(rt, hall, pass, Event::Take) {
        Some(Reply::Broken) => Turn::Over(None),
        Some(_) => Turn::Went,
        None => stop_for(rt, hall, pass, Why::Memory),
    }
}

// The same as `read_turn`, but nothing is read where a read would wait.
fn timed_turn<S: Timed, R: Wait>(
    rt: &R,
    alloc: Global,
    hall: &Hall<KitCore>,
    pass: &mut Pass<KitCore>,
    source: &mut S,
    splitter: &mut Splitter,
) -> Turn
    requires stands { Stands hall.now 1 pass.old }
    requires open { (S.told source.old).is_open ≡ true }
    requires limit { splitter.old.limit ≡ longest_line }
    ensures ran { ReaderRan hall.now pass.old pass.new (ear_of (S.told source.old) splitter.old.bytes) (ear_of (S.told source.new) splitter.new.bytes) (why_of result) }
    ensures limit { splitter.new.limit ≡ longest_line }
{
    if would_wait(source, splitter) {
        look(rt, hall, pass)
    } else {
        read_turn(rt, alloc, hall, pass, source, splitter)
    }
}

/// Takes turns until there is nothing more to hear, and tells why, where it ended by itself. It reads only where a read would not wait,
/// as the source says, and else looks whether the kit is broken off.
pub fn listen<S: Timed, R: Wait>(
    rt: &R,
    alloc: Global,
    hall: &Hall<KitCore>,
    pass: &mut Pass<KitCore>,
    source: &mut S,
    splitter: &mut Splitter,
) -> Option<Why>
    requires stands { Stands hall.now 1 pass.old }
    requires open { (S.told source.old).is_open ≡ true }
    requires limit { splitter.old.limit ≡ longest_line }
    ensures ran { ReaderRan hall.now pass.old pass.new (ear_of (S.told source.old) splitter.old.bytes) (ear_of (S.told source.new) splitter.new.bytes) result }
    ensures limit { splitter.new.limit ≡ longest_line }
{
    for _ in rt.forever() {
        match timed_turn(rt, alloc, hall, pass, source, splitter) {
            Turn::Went => {}
            Turn::Rests => hall.rest(rt, pass),
            Turn::Over(why) => return why,
        }
    }
    unreachable!()
}
