// Desks in memory, handed out in order.
ghost use Rattle.std.specs.Prelude.{◌≡◌, [], Some, drop, IfOk, MatchResult};
ghost use Rattle.ann_outside.specs.Told.{IsNew};
ghost use Rattle.ann_outside.specs.Causes.{AddsOne, Stays};
ghost use Rattle.ann_outside.specs.Desks.{Made};

use super::super::{Desk, Desks};
use super::desk::MemDesk;
use ann_key::NoMemory;
use std::alloc::Global;

/// Desks in memory, which tell the numbers that were asked for and the files that each desk began with.
#[derive(Drop)]
pub struct MemDesks {
    alloc: Global,
    desks: Vec<MemDesk>,
    numbers: Vec<u32>,
}

impl MemDesks {
    ghost use Rattle.ann_outside.specs.MemDesks.{desks_left, files_next, fails_next_desk, IsBegun};

    /// Hands out desks with the files of these, in order, and then empty ones. The calls of a desk that is handed out
    /// are counted from 1 again: those fail whose numbers its pattern lists. It takes no memory.
    pub fn new(alloc: Global, desks: Vec<MemDesk>) -> MemDesks
        ensures made { ⟦<MemDesks as Desks>⟧.made result ≡ Some [] }
        ensures desks { desks_left result ≡ desks.items }
    {
        MemDesks {
            alloc,
            desks,
            numbers: Vec::new(alloc),
        }
    }

    // A copy of the next desk, on which no call was made.
    fn next(&self) -> Result<MemDesk, NoMemory>
        ensures { IfOk result (λ d. IsBegun d (files_next (desks_left self.now)) (fails_next_desk (desks_left self.now))) }
    {
        match self.desks.as_slice().get(self.numbers.len()) {
            Some(desk) => desk.begun(),
            None => MemDesk::new(self.alloc, Vec::new(self.alloc), Vec::new(self.alloc)),
        }
    }
}

impl Desks for MemDesks {
    ghost use Rattle.ann_outside.specs.MemDesks.{desks_left, files_next, fails_next_desk, made_from, IsBegun};

    type Desk = MemDesk;

    ghost made = { λ s. Some (made_from s.desks.items s.numbers.items) };

    fn desk(&mut self, number: u32) -> Result<MemDesk, NoMemory>
        ensures made { MatchResult result
            (λ d. AddsOne (⟦<MemDesks as Desks>⟧.made self.old) (⟦<MemDesks as Desks>⟧.made self.new) (record { number = number; files = (⟦<MemDesk as Desk>⟧.told d).files }))
            (λ _. Stays (⟦<MemDesks as Desks>⟧.made self.old) (⟦<MemDesks as Desks>⟧.made self.new)) }
        ensures fresh { IfOk result (λ d. IsNew (⟦<MemDesk as Desk>⟧.told d)) }
        ensures begun { IfOk result (λ d. IsBegun d (files_next (desks_left self.old)) (fails_next_desk (desks_left self.old))) }
        ensures later { MatchResult result (λ _. desks_left self.new ≡ drop 1 (desks_left self.old)) (λ _. desks_left self.new ≡ desks_left self.old) }
    {
        self.numbers.reserve(1)?;
        let desk = self.next()?;
        self.numbers.push_reserved(number);
        Ok(desk)
    }
}
