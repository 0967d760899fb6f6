ghost use Rattle.std.specs.Prelude.{◌≡◌, ◌+◌, ◌-◌, ◌<◌, ◌≤◌, ◌==◌, ◌^◌, [], ◌∷◌, ◌++◌, filter, not, slice_get, IfOk, IfSome, IsTrue, OnErr, OnOk};
ghost use Rattle.std.specs.List.{All, list_any};
ghost use Rattle.std.specs.List.Sorted.{IsStrictlySortedBy};
ghost use Rattle.std.specs.Ordering.{nat_cmp};

use ann_key::NoMemory;
use std::alloc::Global;
use std::collections::BTreeSet;
use std::marker::Model;

/// The numbers of jobs that are asked one after the other, and settled in any order. Of those that are settled nothing is kept.
#[derive(Drop)]
pub struct Window {
    asked: u64,
    pending: BTreeSet<u64>,
}

impl Model for Window {
    ghost use Rattle.journal_scan.specs.Tables.Numbers.{AreNumbers, JobNumbers};

    ghost Value = { JobNumbers };

    ghost view = { λ w. record { asked = w.asked; pending = w.pending.keys } };

    ghost invariant = { λ w. AreNumbers w.asked w.pending.keys };
}

impl Window {
    /// A window in which no number was asked. It takes no memory.
    pub fn new(alloc: Global) -> Window
        ensures { result ≡ record { asked = 0; pending = [] } }
    {
        Window {
            asked: 0,
            pending: BTreeSet::new(alloc),
        }
    }

    /// Opens the next number, from 0.
    pub fn ask(&mut self) -> Result<u64, NoMemory>
        requires { self.old.asked < 2 ^ 64 - 1 }
        ensures number { IfOk result (λ job. job ≡ self.old.asked) }
        ensures asked { OnOk result (self.new.asked ≡ self.old.asked + 1) }
        ensures pending { OnOk result (self.new.pending ≡ self.old.pending ++ self.old.asked ∷ []) }
        ensures err { OnErr result (self.new ≡ self.old) }
    {
        let job = self.asked;
        self.pending.insert(job)?;
        self.asked = job + 1;
        Ok(job)
    }

    /// Closes an open number. It takes no memory.
    pub fn settle(&mut self, job: u64)
        requires { IsTrue (list_any (λ k. k == job) self.old.pending) }
        ensures asked { self.new.asked ≡ self.old.asked }
        ensures pending { self.new.pending ≡ filter (λ k. not (k == job)) self.old.pending }
    {
        self.pending.remove(&job);
    }

    /// How many numbers were asked. It takes no memory.
    pub fn asked(&self) -> u64
        ensures value { result ≡ self.now.asked }
        ensures below { All (λ k. k < self.now.asked) self.now.pending }
        ensures rising { IsStrictlySortedBy nat_cmp self.now.pending }
    {
        self.asked
    }

    /// Whether the number is open. It takes no memory.
    pub fn is_open(&self, job: u64) -> bool
        ensures { result ≡ list_any (λ k. k == job) self.now.pending }
    {
        self.pending.contains(&job)
    }

    /// The least open number; None exactly where none is open. It takes no memory.
    pub fn first(&self) -> Option<u64>
        ensures first { result ≡ slice_get self.now.pending 0 }
        ensures least { IfSome result (λ job. All (λ k. job ≤ k) self.now.pending) }
    {
        match self.pending.first() {
            Some(job) => Some(*job),
            None => None,
        }
    }
}
