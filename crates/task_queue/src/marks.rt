// Marks by the numbers of tasks, among which the next one is found in few steps.
ghost use Rattle.std.specs.Prelude.{ℕ, ◌≡◌, ◌<◌, ◌≤◌, ◌/◌, ◌^◌, replicate, true, false, IfOk, IfSome, IsNone, IsTrue};
ghost use Rattle.std.specs.List.{slice_set};
ghost use Rattle.task_queue.specs.Groups.{is_set};
ghost use Rattle.task_queue.specs.Blocks.{AreInBlocks, IsNextMark};

use crate::lists::{is_set, put_flag};
use ann_key::NoMemory;
use std::alloc::Global;

/// How many marks make a block.
const BLOCK: usize = 256;

/// Which numbers are marked. A block whose flag is down has no mark.
#[derive(Drop)]
pub(super) struct Marks {
    pub flags: Vec<bool>,
    pub blocks: Vec<bool>,
}

/// No marks, with a place for each of the first numbers.
pub(super) fn none(alloc: Global, numbers: u32) -> Result<Marks, NoMemory>
    ensures flags { IfOk result (λ m. m.flags.items ≡ replicate numbers false) }
    ensures blocks { IfOk result (λ m. AreInBlocks m.flags.items m.blocks.items) }
{
    let numbers = numbers as usize;
    let mut flags = Vec::new(alloc);
    flags.resize(numbers, false)?;
    let mut blocks = Vec::new(alloc);
    blocks.resize(numbers / BLOCK + 1, false)?;
    Ok(Marks { flags, blocks })
}

/// Whether no number of the block is marked.
fn is_bare(flags: &[bool], block: usize) -> bool
    requires { block < 2 ^ 32 }
    ensures { IsTrue result → (t : ℕ) → t / 256 ≡ block → is_set flags.now t ≡ false }
{
    for place in block * BLOCK..(block + 1) * BLOCK {
        if is_set(flags, place) {
            return false;
        }
    }
    true
}

/// The next place after this one that may be marked.
fn place_after(blocks: &[bool], place: usize) -> usize
    requires { place < 2 ^ 32 }
    ensures after { place < result }
    ensures near { result < 2 ^ 33 }
    ensures bare { (t : ℕ) → place < t → t < result → is_set blocks.now (t / 256) ≡ false }
{
    let next = place + 1;
    let block = next / BLOCK;
    if is_set(blocks, block) {
        next
    } else {
        (block + 1) * BLOCK
    }
}

impl Marks {
    pub(super) fn mark(&mut self, number: u32)
        requires { AreInBlocks self.old.flags.items self.old.blocks.items }
        ensures flags { self.new.flags.items ≡ slice_set self.old.flags.items number true }
        ensures blocks { AreInBlocks self.new.flags.items self.new.blocks.items }
    {
        let place = number as usize;
        put_flag(&mut self.flags, place, true);
        put_flag(&mut self.blocks, place / BLOCK, true);
    }

    pub(super) fn unmark(&mut self, number: u32)
        requires { AreInBlocks self.old.flags.items self.old.blocks.items }
        ensures flags { self.new.flags.items ≡ slice_set self.old.flags.items number false }
        ensures blocks { AreInBlocks self.new.flags.items self.new.blocks.items }
    {
        let place = number as usize;
        put_flag(&mut self.flags, place, false);
        let block = place / BLOCK;
        if !is_bare(&self.flags, block) {
            return;
        }
        put_flag(&mut self.blocks, block, false);
    }

    /// The least number from that one on that is marked.
    pub(super) fn next(&self, from: u32) -> Option<u32>
        requires { AreInBlocks self.now.flags.items self.now.blocks.items }
        ensures some { IfSome result (IsNextMark self.now.flags.items from) }
        ensures none { IsNone result → (t : ℕ) → from ≤ t → is_set self.now.flags.items t ≡ false }
    {
        let mut place = from as usize;
        while place < self.flags.len() {
            if is_set(&self.flags, place) {
                return Some(place as u32);
            }
            place = place_after(&self.blocks, place);
        }
        None
    }
}
