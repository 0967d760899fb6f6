ghost use Rattle.std.specs.Prelude.{◌≡◌, ◌+◌, [], ℕ, List, true, false, Some, Err, OnOk, IfErr, IfSome};
ghost use Rattle.annex_model.specs.Lines.{has_newline};
ghost use Rattle.kit_serve.specs.Kit.Descriptions.{untold};
ghost use Rattle.kit_serve.specs.Kit.Stages.{Follows};
ghost use Rattle.kit_serve.specs.Limits.{longest_line, read_size};
ghost use Rattle.kit_serve.specs.declared.end.End.TheVariants.{Eof, Bad, ReadFault, WriteFault, Memory};
ghost use Rattle.kit_serve.specs.Sessions.{Serves, told_of};
ghost use Rattle.kit_serve.specs.Turns.{end_of, sink_half, source_half, Leaves, LeavesSource, MayTurn, ReadsOn, ReadsOnce, Turned, streams_of};
ghost use Rattle.kit_serve.specs.Voices.{bytes_of, Bytes, Hears, Talking, Talked};

use crate::describer::{Describer, SelfDescribed, Undescribed};
use crate::end::End;
use crate::kit::{Describe, Remote};
use crate::streams::{Ear, Mouth};
use crate::voice::{KitVoice, Voice};
use crate::writing::{write_lines, write_version};
use ann_key::NoMemory;
use ann_outside::{Failed, Sink, Source};
use std::alloc::Global;
use wire_line::{Next, Splitter};

/// The longest line that a host may say, in bytes.
pub const LONGEST_LINE: usize = 131_072;

/// How much is read of the host at once, in bytes.
pub const READ_SIZE: usize = 4096;

/// How a remote was served, and the remote.
#[derive(Drop)]
pub struct Served<R> {
    /// The exit status of a program that did nothing else: 0 where the host's lines came to an end; 1 where a line of it is longer than
    /// 131,072 bytes, has no place where it stands, or spells no message while a value is awaited; 4 and 5 where reading or writing
    /// failed; 7 where no memory was found.
    pub status: u8,
    pub remote: R,
}

/// What the voice says to one line is written and handed on.
pub fn hear<V: Voice, W: Mouth>(voice: &mut V, sink: &mut W, line: &[u8]) -> Result<(), End>
    requires open { (W.told sink.old).is_open ≡ true }
    requires line { has_newline line.now ≡ false }
    requires live { V.is_over voice.old ≡ false }
    requires flushed { W.is_flushed sink.old ≡ true }
    ensures heard { Hears V.spoke V.is_over V.is_foul V.lacks voice.old voice.new (W.told sink.old).taken (W.told sink.new).taken line.now result }
    ensures flushed { (end_of result ≡ Some WriteFault → ⊥) → W.is_flushed sink.new ≡ true }
    ensures sink { Leaves (sink_half (W.told sink.old)) (sink_half (W.told sink.new)) (end_of result ≡ Some WriteFault) }
{
    match voice.answer(line) {
        Ok(Some(step)) => {
            if write_lines(sink, &step.say).is_err() {
                Err(End::WriteFault)
            } else if step.over {
                Err(End::Bad)
            } else {
                Ok(())
            }
        }
        Ok(None) => Err(End::Bad),
        Err(NoMemory) => Err(End::Memory),
    }
}

/// One read. Room is taken before it for all that it may give, so that no byte is lost.
pub fn fill<S: Ear>(splitter: &mut Splitter, source: &mut S) -> Result<(), End>
    requires { (S.told source.old).is_open ≡ true }
    ensures reads { ReadsOn (S.told source.old).given (S.told source.new).given splitter.old.bytes splitter.new.bytes result }
    ensures once { ReadsOnce (S.rooms source.old) (S.rooms source.new) }
    ensures kept { IfErr result (λ _. splitter.new.bytes ≡ splitter.old.bytes) }
    ensures others { (result ≡ Err Bad → ⊥) × (result ≡ Err WriteFault → ⊥) }
    ensures source { LeavesSource (S.told source.old) (S.told source.new) (end_of result) }
    ensures limit { splitter.new.limit ≡ splitter.old.limit }
{
    if splitter.reserve(READ_SIZE).is_err() {
        return Err(End::Memory);
    }
    let mut buf = [0u8; READ_SIZE];
    match source.listen(&mut buf) {
        Ok(0) => Err(End::Eof),
        Ok(n) => match splitter.push(&buf[..n]) {
            Ok(()) => Ok(()),
            Err(NoMemory) => unreachable!(),
        },
        Err(Failed) => Err(End::ReadFault),
    }
}

/// Answers the line that the splitter holds first, and hands the answer on; where it holds no whole line, reads once, at most
/// 4,096 bytes. So all that a host is owed for its lines so far was written and handed on before the next read.
pub fn turn<V: Voice, S: Ear, W: Mouth>(
    voice: &mut V,
    splitter: &mut Splitter,
    source: &mut S,
    sink: &mut W,
) -> Result<(), End>
    requires may { MayTurn (S.told source.old) (W.told sink.old) (W.is_flushed sink.old) (V.is_over voice.old) splitter.old.limit }
    ensures goes { OnOk result ((begun : V) (old : Bytes) (turns : ℕ) → Talking V.spoke begun old (bytes_of (S.told source.old) (W.told sink.old)) voice.old splitter.old.bytes turns
        → Talking V.spoke begun old (bytes_of (S.told source.new) (W.told sink.new)) voice.new splitter.new.bytes (turns + 1)) }
    ensures ended { IfErr result (λ end. (begun : V) (old : Bytes) (turns : ℕ)
        → Talking V.spoke begun old (bytes_of (S.told source.old) (W.told sink.old)) voice.old splitter.old.bytes turns
        → Talked V.spoke V.is_over V.is_foul V.lacks begun old (bytes_of (S.told source.new) (W.told sink.new)) voice.new end) }
    ensures turned { Turned (streams_of (S.rooms source.old) (S.told source.old) (W.told sink.old) (W.is_flushed sink.old))
        (streams_of (S.rooms source.new) (S.told source.new) (W.told sink.new) (W.is_flushed sink.new)) splitter.old.bytes }
    ensures next { ((end_of result ≡ Some WriteFault → ⊥) → W.is_flushed sink.new ≡ true) × OnOk result (V.is_over voice.new ≡ false) × (splitter.new.limit ≡ longest_line) }
    ensures source { LeavesSource (S.told source.old) (S.told source.new) (end_of result) }
    ensures sink { Leaves (sink_half (W.told sink.old)) (sink_half (W.told sink.new)) (end_of result ≡ Some WriteFault) }
{
    match splitter.first() {
        Next::Line(line) => {
            let heard = hear(voice, sink, line);
            splitter.drop_line();
            heard
        }
        Next::Long => Err(End::Bad),
        Next::More => fill(splitter, source),
    }
}

// Takes turns until the end.
fn converse<V: Voice, S: Ear, W: Mouth>(
    voice: &mut V,
    splitter: &mut Splitter,
    source: &mut S,
    sink: &mut W,
) -> End
    requires may { MayTurn (S.told source.old) (W.told sink.old) (W.is_flushed sink.old) (V.is_over voice.old) splitter.old.limit }
    ensures ended { (begun : V) (old : Bytes) → Talking V.spoke begun old (bytes_of (S.told source.old) (W.told sink.old)) voice.old splitter.old.bytes 0
        → Talked V.spoke V.is_over V.is_foul V.lacks begun old (bytes_of (S.told source.new) (W.told sink.new)) voice.new result }
    ensures flushed { (result ≡ WriteFault → ⊥) → W.is_flushed sink.new ≡ true }
    ensures source { LeavesSource (S.told source.old) (S.told source.new) (Some result) }
    ensures sink { Leaves (sink_half (W.told sink.old)) (sink_half (W.told sink.new)) (result ≡ WriteFault) }
{
    for _ in 0..u64::MAX {
        match turn(voice, splitter, source, sink) {
            Ok(()) => {}
            Err(end) => return end,
        }
    }
    End::Memory
}

/// Says the version, and then takes turns until the end.
pub fn talk<V: Voice, S: Ear, W: Mouth>(
    alloc: Global,
    voice: &mut V,
    source: &mut S,
    sink: &mut W,
) -> End
    requires open { ((S.told source.old).is_open ≡ true) × ((W.told sink.old).is_open ≡ true) }
    requires live { V.is_over voice.old ≡ false }
    requires begins { V.spoke voice.old voice.old [] [] }
    ensures ended { Talked V.spoke V.is_over V.is_foul V.lacks voice.old (bytes_of (S.told source.old) (W.told sink.old)) (bytes_of (S.told source.new) (W.told sink.new)) voice.new result }
    ensures flushed { (result ≡ WriteFault → ⊥) → W.is_flushed sink.new ≡ true }
    ensures source { LeavesSource (S.told source.old) (S.told source.new) (Some result) }
    ensures sink { Leaves (sink_half (W.told sink.old)) (sink_half (W.told sink.new)) (result ≡ WriteFault) }
{
    match write_version(sink) {
        Ok(()) => {
            let mut splitter = Splitter::new(alloc, LONGEST_LINE);
            converse(voice, &mut splitter, source, sink)
        }
        Err(Failed) => End::WriteFault,
    }
}

// Serves the remote with the answers aside of that describer.
fn serve_by<R: Remote, D: Describer<R> + Drop, S: Source, W: Sink>(
    alloc: Global,
    voice: KitVoice<R, D>,
    source: &mut S,
    sink: &mut W,
) -> Served<R>
    requires fresh { (settings : List (List ℕ)) → Follows settings voice [] }
    requires open { ((S.told source.old).is_open ≡ true) × ((W.told sink.old).is_open ≡ true) }
    ensures serves { Serves D.description (R.settings voice.remote) (told_of (S.told source.old) (W.told sink.old) (R.calls voice.remote))
        (told_of (S.told source.new) (W.told sink.new) (R.calls result.remote)) result.status }
    ensures end { result.status ≡ 0 → IfSome (S.told source.new).left (λ bytes. bytes ≡ []) }
    ensures source { Leaves (source_half (S.told source.old)) (source_half (S.told source.new)) (result.status ≡ 4) }
    ensures sink { Leaves (sink_half (W.told sink.old)) (sink_half (W.told sink.new)) (result.status ≡ 5) }
    ensures settings { R.settings result.remote ≡ R.settings voice.remote }
{
    let mut voice = voice;
    let end = talk(alloc, &mut voice, source, sink);
    Served {
        status: end.status(),
        remote: voice.close(),
    }
}

/// Serves the remote to the host behind the source and the sink until one of them ends it, and hands the remote back.
///
/// It says `VERSION 1`, and then what a [`Kit`](crate::kit::Kit) says to the lines that the source gives. A line that spells no
/// message is answered by UNSUPPORTED-REQUEST, so that a host may ask for what the remote doesn't know; while a value is
/// awaited it ends it, as any request does. Source and sink stay open.
pub fn serve<R: Remote, S: Source, W: Sink>(
    alloc: Global,
    remote: R,
    source: &mut S,
    sink: &mut W,
) -> Served<R>
    requires source { (S.told source.old).is_open ≡ true }
    requires sink { (W.told sink.old).is_open ≡ true }
    ensures serves { Serves (λ (_ : R). untold) (R.settings remote) (told_of (S.told source.old) (W.told sink.old) (R.calls remote))
        (told_of (S.told source.new) (W.told sink.new) (R.calls result.remote)) result.status }
    ensures end { result.status ≡ 0 → IfSome (S.told source.new).left (λ bytes. bytes ≡ []) }
    ensures source { Leaves (source_half (S.told source.old)) (source_half (S.told source.new)) (result.status ≡ 4) }
    ensures sink { Leaves (sink_half (W.told sink.old)) (sink_half (W.told sink.new)) (result.status ≡ 5) }
    ensures settings { R.settings result.remote ≡ R.settings remote }
{
    let voice = KitVoice::new(alloc, remote, Undescribed);
    serve_by(alloc, voice, source, sink)
}

/// Serves a remote that says what it is. It differs from [`serve`] in this alone: LISTCONFIGS, GETCOST, GETAVAILABILITY, GETINFO and
/// WHEREIS are answered by its [`Describe`].
pub fn serve_described<R: Remote + Describe, S: Source, W: Sink>(
    alloc: Global,
    remote: R,
    source: &mut S,
    sink: &mut W,
) -> Served<R>
    requires source { (S.told source.old).is_open ≡ true }
    requires sink { (W.told sink.old).is_open ≡ true }
    ensures serves { Serves R.description (R.settings remote) (told_of (S.told source.old) (W.told sink.old) (R.calls remote))
        (told_of (S.told source.new) (W.told sink.new) (R.calls result.remote)) result.status }
    ensures end { result.status ≡ 0 → IfSome (S.told source.new).left (λ bytes. bytes ≡ []) }
    ensures source { Leaves (source_half (S.told source.old)) (source_half (S.told source.new)) (result.status ≡ 4) }
    ensures sink { Leaves (sink_half (W.told sink.old)) (sink_half (W.told sink.new)) (result.status ≡ 5) }
    ensures settings { R.settings result.remote ≡ R.settings remote }
{
    let voice = KitVoice::new(alloc, remote, SelfDescribed);
    serve_by(alloc, voice, source, sink)
}
