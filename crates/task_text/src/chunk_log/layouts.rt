// The layouts in which a remote has chunks of a key.
ghost use Rattle.std.specs.Prelude.{◌≡◌};

use std::marker::Model;

/// Pairs of a chunk size and a number of chunks.
#[derive(Drop)]
pub struct Layouts {
    items: Vec<(u64, u64)>,
}

impl Model for Layouts {
    ghost use Rattle.std.specs.Prelude.{List, ℕ};

    ghost Value = { List (ℕ × ℕ) };

    ghost view = { λ l. l.items.items };
}

impl Layouts {
    /// The pairs of the vector. It takes no memory.
    pub fn new(items: Vec<(u64, u64)>) -> Layouts
        ensures { result ≡ items.items }
    {
        Layouts { items }
    }

    /// The pairs, lent.
    pub fn view(&self) -> &[(u64, u64)]
        ensures { result.now ≡ self.now }
    {
        self.items.as_slice()
    }
}
