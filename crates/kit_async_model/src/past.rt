// A list that proofs alone see. Its functions do nothing at run time; their proofs are by hand, as nothing else sets a ghost field that
// holds data.
ghost use Rattle.std.specs.Prelude.{◌≡◌, List, [], ◌∷◌, ◌++◌};
ghost use Rattle.std.specs.Borrow.{ftrue};

use std::marker::{Model, PhantomData};

/// What came so far, of which nothing is in memory. Contracts read its `items`.
#[derive(Drop)]
pub struct Past<E> {
    of: PhantomData<E>,
    pub ghost items: { List E },
}

impl<E> Model for Past<E> {
    ghost also_owns = { λ _. ftrue };
}

// It owns nothing.
unsafe impl<E> Send for Past<E> {}

impl<E> Past<E> {
    /// That of the beginning.
    pub fn new() -> Past<E>
        ensures { result.items ≡ [] }
    {
        Past { of: PhantomData }
    }

    /// With one item more.
    pub fn and(&self, item: &E) -> Past<E>
        ensures { result.items ≡ self.now.items ++ item.now ∷ [] }
    {
        Past { of: PhantomData }
    }
}
