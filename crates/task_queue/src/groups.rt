// Tasks that have the same key are a group, and so are those that name the same file: at most one of it is busy.
ghost use Rattle.std.specs.Prelude.{ℕ, ◌≡◌, ◌<◌, ◌≤◌, ◌+◌, ◌==◌, ◌^◌, [], Bool, List, length, true, false, IfOk, IsTrue};
ghost use Rattle.journal_model.specs.Legality.{task_of};
ghost use Rattle.journal_model.specs.Limits.{most_tasks};
ghost use Rattle.task_queue.specs.declared.alike.By.{By};
ghost use Rattle.task_queue.specs.Groups.{AreChained, AreFirsts, AreGroups, AreNext, AreWithin, IsFirst, badge_of, is_set, number_at, text_at};

use crate::alike::By;
use crate::lists::{is_set, number_at, put_number};
use ann_key::NoMemory;
use journal_model::Opening;
use journal_scan::conflicts::task_of;
use std::alloc::Global;
use std::cmp::Ordering;

/// Of each task the number of its group, and the next task of it; of each group from where on a task of it may be unclaimed.
#[derive(Drop)]
pub(super) struct Groups {
    pub of: Vec<u32>,
    pub next: Vec<u32>,
    pub firsts: Vec<u32>,
}

fn text_of(opening: &Opening, by: By, task: u32) -> &[u8]
    ensures { result.now ≡ text_at by (task_of opening.now task) }
{
    let Some(task) = task_of(opening, task) else {
        return b"";
    };
    match by {
        By::Key => task.key.view().text(),
        By::File => task.file.view().as_bytes(),
    }
}

fn by_text(opening: &Opening, by: By, one: u32, other: u32) -> Ordering {
    text_of(opening, by, one).cmp(text_of(opening, by, other))
}

/// Whether both have the same text. An empty one is none: it says nothing of two tasks that they name no file.
fn are_alike(opening: &Opening, by: By, one: u32, other: u32) -> bool
    ensures { IsTrue result → badge_of by opening.now one ≡ badge_of by opening.now other }
{
    let text = text_of(opening, by, one);
    if text.is_empty() {
        return false;
    }
    text == text_of(opening, by, other)
}

/// Each number from 0 to the last task's.
fn numbers_of(alloc: Global, opening: &Opening) -> Result<Vec<u32>, NoMemory>
    requires { length opening.now.tasks ≤ most_tasks }
    ensures { IfOk result (λ numbers. (by : By) → AreGroups by opening.now numbers.items × AreWithin numbers.items) }
{
    let mut numbers = Vec::new(alloc);
    for number in 0..opening.tasks.view().len() as u32 + 1 {
        numbers.push(number)?;
    }
    Ok(numbers)
}

/// The same numbers, so that those of tasks with the same text stand side by side.
fn sorted(alloc: Global, opening: &Opening, by: By) -> Result<Vec<u32>, NoMemory>
    requires { length opening.now.tasks ≤ most_tasks }
{
    let mut numbers = numbers_of(alloc, opening)?;
    numbers.sort_unstable_by(|one, other| by_text(opening, by, *one, *other));
    Ok(numbers)
}

/// Puts a task into the group of another one, if they have the same text.
fn join(opening: &Opening, by: By, groups: &mut Vec<u32>, one: u32, other: u32)
    ensures { AreGroups by opening.now groups.old.items × AreWithin groups.old.items → AreGroups by opening.now groups.new.items × AreWithin groups.new.items }
{
    if !are_alike(opening, by, one, other) {
        return;
    }
    let group = number_at(groups, one);
    put_number(groups, other, group);
}

/// Of each task the number of its group.
fn grouped(alloc: Global, opening: &Opening, by: By) -> Result<Vec<u32>, NoMemory>
    requires { length opening.now.tasks ≤ most_tasks }
    ensures { IfOk result (λ groups. AreGroups by opening.now groups.items × AreWithin groups.items) }
{
    let sorted = sorted(alloc, opening, by)?;
    let mut groups = numbers_of(alloc, opening)?;
    let mut before = 0;
    for task in &sorted {
        join(opening, by, &mut groups, before, *task);
        before = *task;
    }
    Ok(groups)
}

/// Chains a task before those that are chained.
fn chain(groups: &[u32], next: &mut Vec<u32>, firsts: &mut Vec<u32>, task: u32)
    requires within { AreWithin groups.now }
    requires some { task < length groups.now }
    requires chained { AreChained groups.now next.old.items firsts.old.items (task + 1) }
    ensures { AreChained groups.now next.new.items firsts.new.items task }
{
    let group = number_at(groups, task);
    put_number(next, task, number_at(firsts, group));
    put_number(firsts, group, task);
}

/// The groups of an opening, while no task is claimed.
pub(super) fn groups_of(alloc: Global, opening: &Opening, by: By) -> Result<Groups, NoMemory>
    requires { length opening.now.tasks ≤ most_tasks }
    ensures groups { IfOk result (λ g. AreGroups by opening.now g.of.items) }
    ensures within { IfOk result (λ g. AreWithin g.of.items) }
    ensures chained { IfOk result (λ g. AreChained g.of.items g.next.items g.firsts.items 0) }
{
    let of = grouped(alloc, opening, by)?;
    let none = of.len() as u32;
    let mut next = Vec::new(alloc);
    next.resize(of.len(), none)?;
    let mut firsts = Vec::new(alloc);
    firsts.resize(of.len(), none)?;
    let mut task = none;
    while task > 0 {
        task -= 1;
        chain(&of, &mut next, &mut firsts, task);
    }
    Ok(Groups { of, next, firsts })
}

/// The first task of its group from that one on that isn't claimed; past the last one if there is none.
pub(super) fn first_unclaimed(claimed: &[bool], groups: &Groups, from: u32) -> u32
    requires long { length claimed.now ≤ length groups.now.of.items }
    requires next { AreNext groups.now.of.items groups.now.next.items }
    ensures unclaimed { is_set claimed.now result ≡ false }
    ensures first { (group low : ℕ) → IsFirst groups.now.of.items claimed.now group low from → IsFirst groups.now.of.items claimed.now group low result }
{
    let mut task = from;
    'tasks: while is_set(claimed, task as usize) {
        task = number_at(&groups.next, task);
    }
    task
}

impl Groups {
    /// Whether the two tasks are of one group.
    pub(super) fn is_same(&self, one: u32, other: u32) -> bool
        ensures { result ≡ (number_at self.now.of.items one == number_at self.now.of.items other) }
    {
        number_at(&self.of, one) == number_at(&self.of, other)
    }
}
