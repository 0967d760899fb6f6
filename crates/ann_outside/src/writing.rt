ghost use Rattle.std.specs.Prelude.{◌≡◌, ◌≤◌, ℕ, take, true, OnOk, OnErr};
ghost use Rattle.std.specs.Io.KnownBytes.{Appends};
ghost use Rattle.ann_outside.specs.Causes.{Rose, StaysUntold};

use super::{Failed, Sink};

/// Writes all the bytes, by as many calls as the sink wants. After `Failed` it has taken the first bytes of them, which may
/// be none or all.
pub fn write_all<S: Sink>(sink: &mut S, bytes: &[u8]) -> Result<(), Failed>
    requires { (S.told sink.old).is_open ≡ true }
    ensures ok { OnOk result (Appends (S.told sink.old).taken (S.told sink.new).taken bytes.now) }
    ensures prefix { (n : ℕ) × Appends (S.told sink.old).taken (S.told sink.new).taken (take n bytes.now) }
    ensures silent { StaysUntold (S.told sink.old).taken (S.told sink.new).taken }
    ensures later { (S.told sink.old).faults ≤ (S.told sink.new).faults }
    ensures done { OnOk result ((S.told sink.new).faults ≡ (S.told sink.old).faults) }
    ensures err { OnErr result (Rose (S.told sink.old).faults (S.told sink.new).faults) }
    ensures open { (S.told sink.new).is_open ≡ true }
    ensures number { (S.told sink.new).number ≡ (S.told sink.old).number }
{
    let mut at = 0;
    while at < bytes.len() {
        at += sink.write(&bytes[at..])?;
    }
    Ok(())
}
