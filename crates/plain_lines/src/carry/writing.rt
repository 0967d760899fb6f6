ghost use Rattle.std.specs.Prelude.{◌≡◌, ◌≤◌, ◌++◌, ◌∷◌, [], ℕ, take, true, OnOk, OnErr};
ghost use Rattle.std.specs.Io.KnownBytes.{Appends};
ghost use Rattle.ann_outside.specs.Causes.{Rose, StaysUntold};

use ann_outside::{Failed, Sink, write_all};

// Writes the line and its byte 10. After `Failed` the sink has taken the first bytes of them.
fn write_whole<W: Sink>(sink: &mut W, line: &[u8]) -> Result<(), Failed>
    requires { (W.told sink.old).is_open ≡ true }
    ensures ok { OnOk result (Appends (W.told sink.old).taken (W.told sink.new).taken (line.now ++ 10 ∷ [])) }
    ensures prefix { (n : ℕ) × Appends (W.told sink.old).taken (W.told sink.new).taken (take n (line.now ++ 10 ∷ [])) }
    ensures silent { StaysUntold (W.told sink.old).taken (W.told sink.new).taken }
    ensures later { (W.told sink.old).faults ≤ (W.told sink.new).faults }
    ensures err { OnErr result (Rose (W.told sink.old).faults (W.told sink.new).faults) }
    ensures open { (W.told sink.new).is_open ≡ true }
{
    write_all(sink, line)?;
    write_all(sink, b"\n")
}

/// Writes the line and its byte 10, and hands them on. After `Failed` the sink has taken the first bytes of them.
pub(super) fn write_line<W: Sink>(sink: &mut W, line: &[u8]) -> Result<(), Failed>
    requires { (W.told sink.old).is_open ≡ true }
    ensures ok { OnOk result (Appends (W.told sink.old).taken (W.told sink.new).taken (line.now ++ 10 ∷ [])) }
    ensures prefix { (n : ℕ) × Appends (W.told sink.old).taken (W.told sink.new).taken (take n (line.now ++ 10 ∷ [])) }
    ensures silent { StaysUntold (W.told sink.old).taken (W.told sink.new).taken }
    ensures later { (W.told sink.old).faults ≤ (W.told sink.new).faults }
    ensures err { OnErr result (Rose (W.told sink.old).faults (W.told sink.new).faults) }
    ensures open { (W.told sink.new).is_open ≡ true }
{
    write_whole(sink, line)?;
    sink.flush()
}
