// A source and a sink of which proofs can tell when they were read and handed on.
ghost use Rattle.std.specs.Prelude.{◌≡◌, ◌++◌, ◌∷◌, [], ℕ, List, Option, Bool, length, option_map, None, true, OnOk};
ghost use Rattle.std.specs.Io.{ReadsAtMost};
ghost use Rattle.std.specs.Io.KnownBytes.{ReadConsumes, WriteAppends};
ghost use Rattle.ann_outside.specs.Causes.{HasCause, StaysUntold};

use ann_outside::{Failed, Sink, Source};

/// A source of which proofs know how often it was read. Every source is one.
///
/// What is proved of code over any `Ear` holds of code that can't know whether its reads are told, so it reads as it says.
pub trait Ear: Source {
    // how much each read could take, where that is told
    ghost rooms: { Self → Option (List ℕ) };

    /// Reads once.
    fn listen(&mut self, buf: &mut [u8]) -> Result<usize, Failed>
        requires { (Self.told self.old).is_open ≡ true }
        ensures bound { ReadsAtMost result buf.new }
        ensures bytes { ReadConsumes (Self.told self.old).left (Self.told self.new).left result buf.new }
        ensures given { WriteAppends (Self.told self.old).given (Self.told self.new).given result buf.new }
        ensures silent { StaysUntold (Self.told self.old).given (Self.told self.new).given }
        ensures cause { HasCause (Self.told self.old).faults (Self.told self.new).faults result }
        ensures stays { ((Self.told self.new).is_open ≡ true) × ((Self.told self.new).number ≡ (Self.told self.old).number) }
        ensures rooms { rooms self.new ≡ option_map (λ told. told ++ length buf.new ∷ []) (rooms self.old) };
}

impl<S: Source> Ear for S {
    ghost rooms = { λ _. None };

    fn listen(&mut self, buf: &mut [u8]) -> Result<usize, Failed> {
        self.read(buf)
    }
}

/// A sink of which proofs know whether all that it took was handed on. Every sink is one.
pub trait Mouth: Sink {
    // nothing that it took is still kept back
    ghost is_flushed: { Self → Bool };

    /// Hands on all that was taken.
    fn hand_on(&mut self) -> Result<(), Failed>
        requires { (Self.told self.old).is_open ≡ true }
        ensures bytes { (Self.told self.new).taken ≡ (Self.told self.old).taken }
        ensures cause { HasCause (Self.told self.old).faults (Self.told self.new).faults result }
        ensures stays { ((Self.told self.new).is_open ≡ true) × ((Self.told self.new).number ≡ (Self.told self.old).number) }
        ensures flushed { OnOk result (is_flushed self.new ≡ true) };
}

impl<W: Sink> Mouth for W {
    ghost is_flushed = { λ _. true };

    fn hand_on(&mut self) -> Result<(), Failed> {
        self.flush()
    }
}
