ghost use Rattle.std.specs.Prelude.{◌≡◌, ◌<◌, ◌++◌, ◌∷◌, [], length, IfOk, OnErr};
ghost use Rattle.thread_tests.specs.Hall.Tally.{total_of};

use ann_key::NoMemory;
use std::alloc::Global;
use std::marker::Model;
use threads::Held;

/// Adds numbers to a total, and keeps who added which. It is asked to add a number and then for the total, or for the total alone.
///
/// It keeps no more additions than its limit: beyond it answers as if there were no memory.
#[derive(Drop)]
pub struct Tally {
    total: u64,
    limit: u64,
    entries: Vec<(u32, u64)>,
    // whether the last act added something
    grew: bool,
}

impl Model for Tally {
    ghost use Rattle.std.specs.Prelude.{◌≡◌};
    ghost use Rattle.thread_tests.specs.Hall.Tally.{TallyValue, total_of};

    ghost Value = { TallyValue };

    ghost view = { λ t. record { limit = t.limit; entries = t.entries.items } };

    ghost invariant = { λ t. t.total ≡ total_of t.entries.items };
}

impl Tally {
    /// A tally to which nothing was added. It takes no memory yet.
    pub fn new(alloc: Global, limit: u64) -> Tally
        ensures { (result.limit ≡ limit) × (result.entries ≡ []) }
    {
        Tally {
            total: 0,
            limit,
            entries: Vec::new(alloc),
            grew: false,
        }
    }

    /// The numbers added up, which wraps past 64 bits.
    pub fn total(&self) -> u64
        ensures { result ≡ total_of self.now.entries }
    {
        self.total
    }

    /// Each addition in order: the number that made it, and what was added.
    pub fn entries(&self) -> &[(u32, u64)]
        ensures { result.now ≡ self.now.entries }
    {
        self.entries.as_slice()
    }

    fn add(&mut self, by: u32, number: u64) -> Result<(), NoMemory>
        ensures limit { self.new.limit ≡ self.old.limit }
        ensures ok { IfOk result (λ _. (length self.old.entries < self.old.limit) × (self.new.entries ≡ self.old.entries ++ (by, number) ∷ [])) }
        ensures err { OnErr result (self.new.entries ≡ self.old.entries) }
    {
        if self.entries.len() as u64 >= self.limit {
            return Err(NoMemory);
        }
        self.entries.reserve(1)?;
        self.entries.push_reserved((by, number));
        self.total = self.total.wrapping_add(number);
        self.grew = true;
        Ok(())
    }
}

impl Held for Tally {
    ghost use Rattle.thread_tests.specs.Hall.Tally.{Answers, IsTotal};
    ghost use Rattle.std.specs.Prelude.{◌≡◌};

    type Op = Option<u64>;

    type Reply = u64;

    type Entry = (u32, u64);

    type Fixed = u64;

    ghost history = { λ t. t.entries };

    ghost fixed = { λ t. t.limit };

    ghost may = { Answers };

    ghost made_by = { λ by e. e.0 ≡ by };

    ghost is_free = { IsTotal };

    fn act(&mut self, by: u32, op: Option<u64>) -> Result<u64, NoMemory> {
        match op {
            Some(number) => {
                self.add(by, number)?;
                Ok(self.total())
            }
            None => {
                self.grew = false;
                Ok(self.total())
            }
        }
    }

    fn len(&self) -> u64 {
        self.entries.len() as u64
    }

    // Passes that look and then rest would wake one another without end, if those that add nothing rang.
    fn bells(&self) -> u64 {
        if self.grew { u64::MAX } else { 0 }
    }
}
