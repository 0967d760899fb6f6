ghost use Rattle.std.specs.Prelude.{◌≡◌, ◌++◌, ◌∷◌, [], ℕ, codes, take, true, OnOk};
ghost use Rattle.std.specs.Io.KnownBytes.{Appends};
ghost use Rattle.annex_model.specs.Lines.{text};
ghost use Rattle.ann_outside.specs.Causes.{HasCause, StaysUntold};

use crate::kit::Lines;
use crate::streams::Mouth;
use ann_outside::{Failed, Sink, write_all};

/// Writes the line and its byte 10. After `Failed` the sink has taken the first bytes of them.
pub fn write_line<W: Sink>(sink: &mut W, line: &[u8]) -> Result<(), Failed>
    requires { (W.told sink.old).is_open ≡ true }
    ensures ok { OnOk result (Appends (W.told sink.old).taken (W.told sink.new).taken (line.now ++ 10 ∷ [])) }
    ensures prefix { (n : ℕ) × Appends (W.told sink.old).taken (W.told sink.new).taken (take n (line.now ++ 10 ∷ [])) }
    ensures silent { StaysUntold (W.told sink.old).taken (W.told sink.new).taken }
    ensures cause { HasCause (W.told sink.old).faults (W.told sink.new).faults result }
    ensures stays { ((W.told sink.new).is_open ≡ true) × ((W.told sink.new).number ≡ (W.told sink.old).number) }
{
    write_all(sink, line)?;
    write_all(sink, b"\n")
}

/// Writes the first line that a remote says, and hands it on. After `Failed` the sink has taken the first bytes of it.
pub fn write_version<W: Mouth>(sink: &mut W) -> Result<(), Failed>
    requires { (W.told sink.old).is_open ≡ true }
    ensures ok { OnOk result (Appends (W.told sink.old).taken (W.told sink.new).taken (codes "VERSION 1" ++ 10 ∷ [])) }
    ensures prefix { (n : ℕ) × Appends (W.told sink.old).taken (W.told sink.new).taken (take n (codes "VERSION 1" ++ 10 ∷ [])) }
    ensures flushed { OnOk result (W.is_flushed sink.new ≡ true) }
    ensures silent { StaysUntold (W.told sink.old).taken (W.told sink.new).taken }
    ensures cause { HasCause (W.told sink.old).faults (W.told sink.new).faults result }
    ensures stays { ((W.told sink.new).is_open ≡ true) × ((W.told sink.new).number ≡ (W.told sink.old).number) }
{
    write_line(sink, b"VERSION 1")?;
    sink.hand_on()
}

// Writes the lines, each with its byte 10, and hands them on. After `Failed` the sink has taken the first bytes of them.
pub(super) fn write_lines<W: Mouth>(sink: &mut W, lines: &Lines) -> Result<(), Failed>
    requires { (W.told sink.old).is_open ≡ true }
    ensures ok { OnOk result (Appends (W.told sink.old).taken (W.told sink.new).taken (text lines.now)) }
    ensures prefix { (n : ℕ) × Appends (W.told sink.old).taken (W.told sink.new).taken (take n (text lines.now)) }
    ensures flushed { OnOk result (W.is_flushed sink.new ≡ true) }
    ensures silent { StaysUntold (W.told sink.old).taken (W.told sink.new).taken }
    ensures cause { HasCause (W.told sink.old).faults (W.told sink.new).faults result }
    ensures stays { ((W.told sink.new).is_open ≡ true) × ((W.told sink.new).number ≡ (W.told sink.old).number) }
{
    for line in lines.view() {
        write_line(sink, line.view())?;
    }
    sink.hand_on()
}
