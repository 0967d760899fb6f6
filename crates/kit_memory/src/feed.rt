// What a kit in memory hears, and one turn over it.
ghost use Rattle.std.specs.Prelude.{◌≡◌, ◌≤◌, ◌<◌, ◌+◌, ◌++◌, ℕ, List, Bool, length, take, true, false, Some, Err, OnOk, IfErr};
ghost use Rattle.kit_memory.specs.Children.{Grows, Steps};
ghost use Rattle.kit_serve.specs.Limits.{longest_line};
ghost use Rattle.kit_serve.specs.declared.end.End.TheVariants.{Eof, Bad, WriteFault};
ghost use Rattle.kit_serve.specs.Turns.{end_of, ReadsOn};
ghost use Rattle.kit_serve.specs.Voices.{Bytes, Talking, Talked};

use ann_key::NoMemory;
use kit_serve::{End, Mouth, READ_SIZE, Voice, hear};
use wire_line::{Next, Splitter};

/// Bytes that are heard until their end.
pub trait Feed {
    // from the one to the other it is the same feed
    ghost stays: { Self → Self → Type 0 };

    // what was heard
    ghost heard: { Self → List ℕ };

    // and there is no more of it
    ghost is_at_end: { Self → Bool };

    /// Moves bytes to the front of `buf` and answers how many; waits until there are some, or the end. 0 is the end.
    fn listen_to(&mut self, buf: &mut [u8]) -> usize
        requires { 0 < length buf.old }
        ensures bound { result ≤ length buf.new }
        ensures heard { heard self.new ≡ heard self.old ++ take result buf.new }
        ensures end { result ≡ 0 → is_at_end self.new ≡ true }
        ensures stays { stays self.old self.new };
}

// Hears once. Room is taken before it for all that it may give, so that no byte is lost.
fn take_in<S: Feed>(splitter: &mut Splitter, source: &mut S) -> Result<(), End>
    ensures reads { ReadsOn (Some (S.heard source.old)) (Some (S.heard source.new)) splitter.old.bytes splitter.new.bytes result }
    ensures kept { IfErr result (λ _. splitter.new.bytes ≡ splitter.old.bytes) }
    ensures end { end_of result ≡ Some Eof → S.is_at_end source.new ≡ true }
    ensures others { (result ≡ Err Bad → ⊥) × (result ≡ Err WriteFault → ⊥) }
    ensures stays { Steps S.stays source.old source.new }
    ensures limit { splitter.new.limit ≡ splitter.old.limit }
{
    if splitter.reserve(READ_SIZE).is_err() {
        return Err(End::Memory);
    }
    let mut buf = [0u8; READ_SIZE];
    let n = source.listen_to(&mut buf);
    if n == 0 {
        return Err(End::Eof);
    }
    match splitter.push(&buf[..n]) {
        Ok(()) => Ok(()),
        Err(NoMemory) => unreachable!(),
    }
}

/// Answers the line that the splitter holds first; where it holds no whole line, hears more. It is `turn` over a feed, which says
/// that an end of what is heard is one.
pub fn turn_over<V: Voice, S: Feed, W: Mouth>(
    voice: &mut V,
    splitter: &mut Splitter,
    source: &mut S,
    sink: &mut W,
) -> Result<(), End>
    requires sink { ((W.told sink.old).is_open ≡ true) × (W.is_flushed sink.old ≡ true) }
    requires limit { splitter.old.limit ≡ longest_line }
    requires live { V.is_over voice.old ≡ false }
    ensures goes { OnOk result ((begun : V) (old : Bytes) (turns : ℕ)
        → Talking V.spoke begun old (record { given = Some (S.heard source.old); taken = (W.told sink.old).taken }) voice.old splitter.old.bytes turns
        → Talking V.spoke begun old (record { given = Some (S.heard source.new); taken = (W.told sink.new).taken }) voice.new splitter.new.bytes (turns + 1)) }
    ensures ended { IfErr result (λ end. (begun : V) (old : Bytes) (turns : ℕ)
        → Talking V.spoke begun old (record { given = Some (S.heard source.old); taken = (W.told sink.old).taken }) voice.old splitter.old.bytes turns
        → Talked V.spoke V.is_over V.is_foul V.lacks begun old (record { given = Some (S.heard source.new); taken = (W.told sink.new).taken }) voice.new end) }
    ensures end { end_of result ≡ Some Eof → S.is_at_end source.new ≡ true }
    ensures next { OnOk result (V.is_over voice.new ≡ false) × (splitter.new.limit ≡ longest_line) }
    ensures stays { Steps S.stays source.old source.new }
    ensures sink { Grows (W.told sink.old).taken (W.told sink.new).taken × ((W.told sink.new).is_open ≡ true) }
{
    match splitter.first() {
        Next::Line(line) => {
            let heard = hear(voice, sink, line);
            splitter.drop_line();
            heard
        }
        Next::Long => Err(End::Bad),
        Next::More => take_in(splitter, source),
    }
}
