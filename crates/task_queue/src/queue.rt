// The tasks of a run: which are claimed, which are busy, and which of the others may be free.
ghost use Rattle.std.specs.Prelude.{ℕ, ◌≡◌, ◌<◌, ◌≤◌, ◌+◌, ◌==◌, ◌^◌, ◌++◌, ◌∷◌, [], not, Bool, List, true, false, if◌then◌else◌, ◌&&◌};
ghost use Rattle.std.specs.Prelude.{length, filter, find, replicate, min, IfOk, option_copied, vec_capacity};
ghost use Rattle.std.specs.List.{slice_set};
ghost use Rattle.journal_model.specs.declared.entry.Entry.{Entry};
ghost use Rattle.journal_model.specs.declared.opening.Opening.{Opening};
ghost use Rattle.journal_model.specs.Legality.{both_conflict, least_free, task_of};
ghost use Rattle.journal_model.specs.Limits.{most_tasks};
ghost use Rattle.task_queue.specs.Groups.{is_set, number_at};
ghost use Rattle.task_queue.specs.Blocks.{AreInBlocks};
ghost use Rattle.task_queue.specs.Ways.{AreBare, AreReady};
ghost use Rattle.task_queue.specs.Woken.{AreWatched, AreWoken};

use crate::alike::By;
use crate::groups::{Groups, groups_of};
use crate::handing::{call_first, pass_on, reopen};
use crate::lists::{is_set, number_at, put_flag, put_number};
use crate::marks::{self, Marks};
use ann_key::NoMemory;
use journal_model::{Opening, What};
use journal_scan::conflicts::both_conflict;
use std::alloc::Global;

/// The tasks of a run, as far as a claim depends on them. Each list has a place for each number of a task, and for 0.
#[derive(Drop)]
pub struct Queue {
    claimed: Vec<bool>,
    // in the order of their claims
    busy: Vec<u32>,
    // by their keys
    keys: Groups,
    // by the files that they name
    files: Groups,
    // those that a claim looks at
    ready: Marks,
    // a busy task of neither of this one's groups that is in its way
    waits: Vec<u32>,
    // those that another one waited for
    watched: Vec<bool>,
}

fn flags(alloc: Global, numbers: usize) -> Result<Vec<bool>, NoMemory>
    ensures { IfOk result (λ flags. flags.items ≡ replicate numbers false) }
{
    let mut flags = Vec::new(alloc);
    flags.resize(numbers, false)?;
    Ok(flags)
}

/// No task is claimed. Number 0, which no task has, counts as claimed.
fn none_claimed(alloc: Global, numbers: usize) -> Result<Vec<bool>, NoMemory>
    ensures { IfOk result (λ claimed. claimed.items ≡ slice_set (replicate numbers false) 0 true) }
{
    let mut claimed = flags(alloc, numbers)?;
    put_flag(&mut claimed, 0, true);
    Ok(claimed)
}

/// The first task of each group is ready.
fn firsts_ready(alloc: Global, firsts: &[u32]) -> Result<Marks, NoMemory>
    requires { length firsts.now < 2 ^ 32 }
    ensures ready { IfOk result (λ ready. AreReady firsts.now ready.flags.items) }
    ensures in_blocks { IfOk result (λ ready. AreInBlocks ready.flags.items ready.blocks.items) }
{
    let mut ready = marks::none(alloc, firsts.len() as u32)?;
    for first in firsts {
        ready.mark(*first);
    }
    ready.unmark(0);
    Ok(ready)
}

fn no_waits(alloc: Global, numbers: usize) -> Result<Vec<u32>, NoMemory>
    ensures { IfOk result (λ waits. waits.items ≡ replicate numbers 0) }
{
    let mut waits = Vec::new(alloc);
    waits.resize(numbers, 0)?;
    Ok(waits)
}

fn find_in_way<'a>(opening: &Opening, busy: &'a [u32], task: u32) -> Option<&'a u32>
    ensures { option_copied result ≡ find (λ b. both_conflict (task_of opening.now b) (task_of opening.now task)) busy.entry.now }
{
    busy.iter().find(|b| both_conflict(opening, **b, task))
}

fn add(busy: &mut Vec<u32>, task: u32)
    requires { length busy.old.items < vec_capacity busy.old }
    ensures items { busy.new.items ≡ busy.old.items ++ task ∷ [] }
    ensures room { vec_capacity busy.old ≤ vec_capacity busy.new }
{
    let _fits = busy.push(task);
}

fn let_go(busy: &mut Vec<u32>, task: u32)
    ensures items { busy.new.items ≡ filter (λ b. not (b == task)) busy.old.items }
    ensures room { vec_capacity busy.new ≡ vec_capacity busy.old }
{
    busy.retain(|b| *b != task);
}

impl Queue {
    ghost use Rattle.task_queue.specs.Queues.{HasRoom, IsNext, IsOf, IsOrdered, IsQueued, IsSound, IsTurned, is_among};

    /// The queue of the opening's tasks, none of which is claimed. It takes all the memory that is ever needed.
    pub fn new(alloc: Global, opening: &Opening) -> Result<Queue, NoMemory>
        requires { length opening.now.tasks ≤ most_tasks }
        ensures { IfOk result (IsQueued opening.now []) }
    {
        let keys = groups_of(alloc, opening, By::Key)?;
        let files = groups_of(alloc, opening, By::File)?;
        let numbers = keys.of.len();
        let ready = firsts_ready(alloc, &keys.firsts)?;
        Ok(Queue {
            claimed: none_claimed(alloc, numbers)?,
            busy: Vec::with_capacity(alloc, numbers)?,
            keys,
            files,
            ready,
            waits: no_waits(alloc, numbers)?,
            watched: flags(alloc, numbers)?,
        })
    }

    /// A busy task that is in the task's way.
    fn in_way(&self, opening: &Opening, task: u32) -> Option<u32>
        ensures { result ≡ find (λ b. both_conflict (task_of opening.now b) (task_of opening.now task)) self.now.busy.items }
    {
        match find_in_way(opening, &self.busy, task) {
            Some(other) => Some(*other),
            None => None,
        }
    }

    /// A busy task is in the way of a ready one, which isn't looked at again before one that is in its way is let go.
    fn put_off(&mut self, task: u32, other: u32)
        requires ordered { IsOrdered self.old }
        requires within { task < length self.old.claimed.items }
        requires busy { is_among self.old.busy.items other ≡ true }
        ensures ordered { IsOrdered self.new }
        ensures fits { (o : Opening) → both_conflict (task_of o other) (task_of o task) ≡ true → IsOf o self.old → IsOf o self.new }
        ensures same { (self.new.claimed ≡ self.old.claimed) × (self.new.busy ≡ self.old.busy) }
        ensures bare { AreBare self.old.ready.flags.items task → AreBare self.new.ready.flags.items (task + 1) }
    {
        self.ready.unmark(task);
        let by_key = pass_on(&mut self.ready, &self.keys, &self.claimed, &self.busy, task);
        let by_file = pass_on(
            &mut self.ready,
            &self.files,
            &self.claimed,
            &self.busy,
            task,
        );
        if by_key || by_file {
            return;
        }
        put_number(&mut self.waits, task, other);
        put_flag(&mut self.watched, other as usize, true);
    }

    /// The first task that is free to be claimed. It takes no memory.
    pub fn first_free(&mut self, opening: &Opening) -> Option<u32>
        requires ordered { IsOrdered self.old }
        requires fits { IsOf opening.now self.old }
        ensures found { (past : List Entry) → IsQueued opening.now past self.old → result ≡ least_free opening.now past }
        ensures kept { (past : List Entry) → IsQueued opening.now past self.old → IsQueued opening.now past self.new }
    {
        let mut from = 1;
        while let Some(task) = self.ready.next(from) {
            let Some(other) = self.in_way(opening, task) else {
                return Some(task);
            };
            self.put_off(task, other);
            from = task + 1;
        }
        None
    }

    fn claim(&mut self, task: u32)
        requires ordered { IsOrdered self.old }
        requires room { HasRoom self.old }
        requires next { (0 < task) × (task < length self.old.claimed.items) × (is_set self.old.claimed.items task ≡ false) }
        ensures sound { IsSound self.old self.new }
        ensures claimed { self.new.claimed.items ≡ slice_set self.old.claimed.items task true }
        ensures busy { self.new.busy.items ≡ self.old.busy.items ++ task ∷ [] }
    {
        put_flag(&mut self.claimed, task as usize, true);
        self.ready.unmark(task);
        add(&mut self.busy, task);
    }

    /// A busy task is let go.
    fn release(&mut self, task: u32)
        requires ordered { IsOrdered self.old }
        requires room { HasRoom self.old }
        requires busy { is_among self.old.busy.items task ≡ true }
        ensures sound { IsSound self.old self.new }
        ensures claimed { self.new.claimed ≡ self.old.claimed }
        ensures busy { self.new.busy.items ≡ filter (λ b. not (b == task)) self.old.busy.items }
        ensures less { length self.new.busy.items < length self.old.busy.items }
    {
        wake_watchers(
            &mut self.ready,
            &self.waits,
            &self.watched,
            &self.claimed,
            task,
        );
        call_first(&mut self.ready, &mut self.keys, &self.claimed, task);
        call_first(&mut self.ready, &mut self.files, &self.claimed, task);
        let_go(&mut self.busy, task);
    }

    /// A busy task is let go, to be claimed again.
    fn renew(&mut self, task: u32)
        requires ordered { IsOrdered self.old }
        requires room { HasRoom self.old }
        requires busy { is_among self.old.busy.items task ≡ true }
        ensures sound { IsSound self.old self.new }
        ensures claimed { self.new.claimed.items ≡ slice_set self.old.claimed.items task false }
        ensures busy { self.new.busy.items ≡ filter (λ b. not (b == task)) self.old.busy.items }
    {
        self.release(task);
        put_flag(&mut self.claimed, task as usize, false);
        reopen(&mut self.keys, task);
        reopen(&mut self.files, task);
        self.ready.mark(task);
    }

    /// Notes an entry that comes next. It takes no memory.
    pub fn note(&mut self, what: &What)
        requires ordered { IsOrdered self.old }
        requires room { HasRoom self.old }
        requires next { IsNext what.now self.old }
        ensures { (o : Opening) (past after : List Entry) → IsTurned past what.now after → IsQueued o past self.old → IsQueued o after self.new }
    {
        match what {
            What::Claim { task, .. } => self.claim(*task),
            What::Answer { task, .. } => self.release(*task),
            What::Again { task, .. } => self.renew(*task),
            _ => {}
        }
    }
}

/// Marks the task, if it waits for the other one and isn't claimed.
fn wake_one(ready: &mut Marks, waits: &[u32], claimed: &[bool], task: u32, other: u32)
    requires { AreInBlocks ready.old.flags.items ready.old.blocks.items }
    ensures flags { ready.new.flags.items ≡ (if number_at waits.now task == other && not (is_set claimed.now task) then slice_set ready.old.flags.items task true else ready.old.flags.items) }
    ensures blocks { AreInBlocks ready.new.flags.items ready.new.blocks.items }
{
    if number_at(waits, task) != other || is_set(claimed, task as usize) {
        return;
    }
    ready.mark(task);
}

/// Marks the tasks that wait for that one and aren't claimed.
fn wake(ready: &mut Marks, waits: &[u32], claimed: &[bool], task: u32)
    requires few { length waits.now < 2 ^ 32 }
    requires blocks { AreInBlocks ready.old.flags.items ready.old.blocks.items }
    ensures woken { AreWoken waits.now claimed.now task (length waits.now) ready.old.flags.items ready.new.flags.items }
    ensures blocks { AreInBlocks ready.new.flags.items ready.new.blocks.items }
{
    for other in 0..waits.len() as u32 {
        wake_one(ready, waits, claimed, other, task);
    }
}

/// The same, where none may wait for it.
fn wake_watchers(ready: &mut Marks, waits: &[u32], watched: &[bool], claimed: &[bool], task: u32)
    requires few { length waits.now < 2 ^ 32 }
    requires some { 0 < task }
    requires watched { AreWatched waits.now watched.now }
    requires blocks { AreInBlocks ready.old.flags.items ready.old.blocks.items }
    ensures woken { AreWoken waits.now claimed.now task (length waits.now) ready.old.flags.items ready.new.flags.items }
    ensures blocks { AreInBlocks ready.new.flags.items ready.new.blocks.items }
{
    if !is_set(watched, task as usize) {
        return;
    }
    wake(ready, waits, claimed, task);
}
