// The lines that a message is owed.
ghost use Rattle.std.specs.Prelude.{◌≡◌};

use ann_key::Bytes;
use std::marker::Model;

/// The lines that a message is owed, in their order and without byte 10.
#[derive(Drop)]
pub struct Replies {
    lines: Vec<Bytes>,
}

impl Model for Replies {
    ghost use Rattle.std.specs.Prelude.{List, ℕ};

    ghost Value = { List (List ℕ) };

    ghost view = { λ r. r.lines.items };
}

impl Replies {
    /// The lines of the vector. It takes no memory.
    pub fn new(lines: Vec<Bytes>) -> Replies
        ensures { result ≡ lines.items }
    {
        Replies { lines }
    }

    /// The lines, lent.
    pub fn view(&self) -> &[Bytes]
        ensures { result.now ≡ self.now }
    {
        self.lines.as_slice()
    }
}
