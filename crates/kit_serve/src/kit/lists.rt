// Lists of byte lists, each seen as one value.
ghost use Rattle.std.specs.Prelude.{◌≡◌, ◌↔◌, ◌++◌, ◌∷◌, [], length, slice_get, IsTrue, IfOk, OnOk, OnErr};
ghost use Rattle.std.specs.Option.{option_copied};

use crate::kit::describe::Pair;
use ann_key::{Bytes, NoMemory};
use std::alloc::Global;
use std::marker::Model;

/// The values of a remote's settings, in the order in which they were asked for.
#[derive(Drop)]
pub struct Values {
    items: Vec<Bytes>,
}

impl Model for Values {
    ghost use Rattle.std.specs.Prelude.{List, ℕ};

    ghost Value = { List (List ℕ) };

    ghost view = { λ v. v.items.items };
}

impl Values {
    /// The byte lists of the vector. It takes no memory.
    pub fn new(list: Vec<Bytes>) -> Values
        ensures { result ≡ list.items }
    {
        Values { items: list }
    }

    /// The byte lists, lent. It takes no memory.
    pub fn view(&self) -> &[Bytes]
        ensures { result.now ≡ self.now }
    {
        self.items.as_slice()
    }

    /// The first of them, if there is one. It takes no memory.
    pub fn first(&self) -> Option<&[u8]>
        ensures { option_copied result ≡ slice_get self.now 0 }
    {
        match self.items.first() {
            Some(value) => Some(value.view()),
            None => None,
        }
    }

    /// How many there are.
    pub fn len(&self) -> usize
        ensures { result ≡ length self.now }
    {
        self.items.len()
    }

    /// Whether there is none.
    pub fn is_empty(&self) -> bool
        ensures { IsTrue result ↔ (self.now ≡ []) }
    {
        self.items.is_empty()
    }

    /// Adds one more. At `NoMemory` they are as before.
    pub fn push(&mut self, value: Bytes) -> Result<(), NoMemory>
        ensures ok { OnOk result (self.new ≡ self.old ++ value ∷ []) }
        ensures err { OnErr result (self.new ≡ self.old) }
    {
        self.items.push(value)?;
        Ok(())
    }

    /// Equal values.
    pub fn copy(&self, alloc: Global) -> Result<Values, NoMemory>
        ensures { IfOk result (λ v. v ≡ self.now) }
    {
        let mut items = Vec::new(alloc);
        for value in self.items.as_slice() {
            let copy = Bytes::copy(alloc, value.view())?;
            items.push(copy)?;
        }
        Ok(Values { items })
    }
}

/// Lines, each without its byte 10.
#[derive(Drop)]
pub struct Lines {
    items: Vec<Bytes>,
}

impl Model for Lines {
    ghost use Rattle.std.specs.Prelude.{List, ℕ};

    ghost Value = { List (List ℕ) };

    ghost view = { λ l. l.items.items };
}

impl Lines {
    /// The byte lists of the vector. It takes no memory.
    pub fn new(list: Vec<Bytes>) -> Lines
        ensures { result ≡ list.items }
    {
        Lines { items: list }
    }

    /// The byte lists, lent. It takes no memory.
    pub fn view(&self) -> &[Bytes]
        ensures { result.now ≡ self.now }
    {
        self.items.as_slice()
    }
}

/// Names with a text each.
#[derive(Drop)]
pub struct Pairs {
    items: Vec<Pair>,
}

impl Model for Pairs {
    ghost use Rattle.std.specs.Prelude.{List};
    ghost use Rattle.kit_serve.specs.declared.kit.describe.Pair.{Pair};

    ghost Value = { List Pair };

    ghost view = { λ p. p.items.items };
}

impl Pairs {
    /// The pairs of the vector. It takes no memory.
    pub fn new(list: Vec<Pair>) -> Pairs
        ensures { result ≡ list.items }
    {
        Pairs { items: list }
    }

    /// The pairs, lent. It takes no memory.
    pub fn view(&self) -> &[Pair]
        ensures { result.now ≡ self.now }
    {
        self.items.as_slice()
    }

    /// Equal pairs.
    pub fn copy(&self, alloc: Global) -> Result<Pairs, NoMemory>
        ensures { IfOk result (λ p. p ≡ self.now) }
    {
        let mut items = Vec::new(alloc);
        for pair in self.items.as_slice() {
            let name = Bytes::copy(alloc, pair.name.view())?;
            let text = Bytes::copy(alloc, pair.text.view())?;
            items.push(Pair { name, text })?;
        }
        Ok(Pairs { items })
    }
}
