ghost use Rattle.std.specs.Prelude.{◌≡◌, ℕ, List, ◌++◌, length, IfOk, OnErr, IsOk};
ghost use Rattle.threads.specs.Log.{Allowed};

use ann_key::NoMemory;

/// A value with a history: a list of entries that each [`act`](Held::act) makes longer by one group, which may be empty, and that nothing makes shorter.
///
/// What the value is must follow from its fixed part and its history, so far as its callers rest on it: the contracts of [`Hall`](crate::Hall) speak of these two alone.
pub trait Held {
    /// What a caller may ask for.
    type Op;

    /// What a caller is told.
    type Reply;

    /// An element of the history. No value of this type need be made.
    type Entry;

    /// What `fixed` says of a value; `()` where that is nothing.
    type Fixed;

    // The entries so far.
    ghost history: { Self → List Self.Entry };

    // The part that no `act` changes.
    ghost fixed: { Self → Self.Fixed };

    // Of the fixed part, the history before, the number, the operation, the group and the reply: whether an `act` may give them.
    ghost may: { Self.Fixed → List Self.Entry → ℕ → Self.Op → List Self.Entry → Self.Reply → Type 0 };

    // Of a number and an entry: whether an `act` by the number may append it.
    ghost made_by: { ℕ → Self.Entry → Type 0 };

    // The operations that never want memory.
    ghost is_free: { Self.Op → Type 0 };

    /// Does what is asked for, in the name of the number. At `NoMemory` the history and the fixed part are as before.
    fn act(&mut self, by: u32, op: Self::Op) -> Result<Self::Reply, NoMemory>
        ensures fixed { fixed self.new ≡ fixed self.old }
        ensures ok { IfOk result (λ r. (g : List Self.Entry) × (history self.new ≡ history self.old ++ g) × Allowed made_by may (fixed self.old) (history self.old) by op g r) }
        ensures err { OnErr result (history self.new ≡ history self.old) }
        ensures free { is_free op → IsOk result };

    /// How many entries the history has.
    fn len(&self) -> u64
        ensures { result ≡ length (history self.now) };

    /// The bells of the passes that the last `act` may concern, a bit for each: pass n hears bell n % 64. A pass that rests sleeps
    /// until its bell rings.
    fn bells(&self) -> u64;
}
