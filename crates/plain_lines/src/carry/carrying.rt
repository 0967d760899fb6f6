ghost use Rattle.std.specs.Prelude.{◌≡◌, Some, true, Err, OnOk, IfErr};
ghost use Rattle.plain_lines.specs.Carry.Carries.{longest_line, told_of, Carries, ComesTo, GoesOn};
ghost use Rattle.plain_lines.specs.Carry.Turns.{end_of, LeavesSink, LeavesSource, Passes, ReadsOn};
ghost use Rattle.plain_lines.specs.declared.carry.end.End.TheVariants.{Long, WriteFault};

use crate::carry::end::End;
use crate::carry::way::Way;
use crate::carry::writing::write_line;
use ann_key::NoMemory;
use ann_outside::{Failed, Sink, Source};
use std::alloc::Global;
use wire_line::{Next, Splitter};

/// The longest line that is carried, in bytes.
pub const LONGEST_LINE: usize = 1_048_576;

/// How much is read at once, in bytes.
pub const READ_SIZE: usize = 4096;

// What is passed on of the line is written, and handed on at once.
fn pass_line<V: Way, W: Sink>(way: &mut V, sink: &mut W, line: &[u8]) -> Result<(), End>
    requires { (W.told sink.old).is_open ≡ true }
    ensures passes { Passes V.passes (W.told sink.old).taken (W.told sink.new).taken line.now result }
    ensures sink { LeavesSink (W.told sink.old) (W.told sink.new) (end_of result) }
{
    match way.pass(line) {
        Ok(Some(passed)) => match write_line(sink, passed.view()) {
            Ok(()) => Ok(()),
            Err(Failed) => Err(End::WriteFault),
        },
        Ok(None) => Ok(()),
        Err(NoMemory) => Err(End::Memory),
    }
}

// Room is taken before the read for all that it may give, so that no byte is lost.
fn fill<S: Source>(splitter: &mut Splitter, source: &mut S) -> Result<(), End>
    requires { (S.told source.old).is_open ≡ true }
    ensures reads { ReadsOn (S.told source.old).given (S.told source.new).given splitter.old.bytes splitter.new.bytes }
    ensures kept { IfErr result (λ _. splitter.new.bytes ≡ splitter.old.bytes) }
    ensures others { (result ≡ Err Long → ⊥) × (result ≡ Err WriteFault → ⊥) }
    ensures source { LeavesSource (S.told source.old) (S.told source.new) (end_of result) }
    ensures limit { splitter.new.limit ≡ splitter.old.limit }
{
    if splitter.reserve(READ_SIZE).is_err() {
        return Err(End::Memory);
    }
    let mut buf = [0u8; READ_SIZE];
    match source.read(&mut buf) {
        Ok(0) => Err(End::Eof),
        Ok(n) => match splitter.push(&buf[..n]) {
            Ok(()) => Ok(()),
            Err(NoMemory) => unreachable!(),
        },
        Err(Failed) => Err(End::ReadFault),
    }
}

// One line, or one read.
fn turn<V: Way, S: Source, W: Sink>(
    way: &mut V,
    splitter: &mut Splitter,
    source: &mut S,
    sink: &mut W,
) -> Result<(), End>
    requires open { ((S.told source.old).is_open ≡ true) × ((W.told sink.old).is_open ≡ true) }
    requires limit { splitter.old.limit ≡ longest_line }
    ensures goes { OnOk result (GoesOn V.passes (told_of (S.told source.old) (W.told sink.old)) (told_of (S.told source.new) (W.told sink.new)) splitter.old.bytes splitter.new.bytes) }
    ensures ended { IfErr result (ComesTo V.passes (told_of (S.told source.old) (W.told sink.old)) (told_of (S.told source.new) (W.told sink.new)) splitter.old.bytes) }
    ensures source { LeavesSource (S.told source.old) (S.told source.new) (end_of result) }
    ensures sink { LeavesSink (W.told sink.old) (W.told sink.new) (end_of result) }
    ensures limit { splitter.new.limit ≡ longest_line }
{
    match splitter.first() {
        Next::Line(line) => {
            let passed = pass_line(way, sink, line);
            splitter.drop_line();
            passed
        }
        Next::Long => Err(End::Long),
        Next::More => fill(splitter, source),
    }
}

// Takes turns until the end.
fn take_turns<V: Way, S: Source, W: Sink>(
    way: &mut V,
    splitter: &mut Splitter,
    source: &mut S,
    sink: &mut W,
) -> End
    requires open { ((S.told source.old).is_open ≡ true) × ((W.told sink.old).is_open ≡ true) }
    requires limit { splitter.old.limit ≡ longest_line }
    ensures ended { ComesTo V.passes (told_of (S.told source.old) (W.told sink.old)) (told_of (S.told source.new) (W.told sink.new)) splitter.old.bytes result }
    ensures source { LeavesSource (S.told source.old) (S.told source.new) (Some result) }
    ensures sink { LeavesSink (W.told sink.old) (W.told sink.new) (Some result) }
{
    for _ in 0..u64::MAX {
        match turn(way, splitter, source, sink) {
            Ok(()) => {}
            Err(end) => return end,
        }
    }
    End::Memory
}

/// Carries lines from the source to the sink until one of them ends it: each whole line at once, as the way passes it on.
/// Source and sink stay open. What follows the last byte 10 of the source isn't carried.
pub fn carry<V: Way, S: Source, W: Sink>(
    alloc: Global,
    way: &mut V,
    source: &mut S,
    sink: &mut W,
) -> End
    requires source { (S.told source.old).is_open ≡ true }
    requires sink { (W.told sink.old).is_open ≡ true }
    ensures carries { Carries V.passes (told_of (S.told source.old) (W.told sink.old)) (told_of (S.told source.new) (W.told sink.new)) result }
    ensures source { LeavesSource (S.told source.old) (S.told source.new) (Some result) }
    ensures sink { LeavesSink (W.told sink.old) (W.told sink.new) (Some result) }
{
    let mut splitter = Splitter::new(alloc, LONGEST_LINE);
    take_turns(way, &mut splitter, source, sink)
}
