// Which task of a group is ready in the place of another one.
ghost use Rattle.std.specs.Prelude.{◌≡◌, ◌<◌, ◌+◌, Bool, List, length, false};
ghost use Rattle.std.specs.List.{slice_set};
ghost use Rattle.task_queue.specs.Blocks.{AreInBlocks};
ghost use Rattle.task_queue.specs.Groups.{number_at};
ghost use Rattle.task_queue.specs.Held.{IsHandedOn, is_group_busy};
ghost use Rattle.task_queue.specs.Kept.{AreKept, CallsFirst};

use crate::groups::{Groups, first_unclaimed};
use crate::lists::{number_at, put_number};
use crate::marks::Marks;

fn is_group_busy(groups: &Groups, busy: &[u32], task: u32) -> bool
    ensures { result ≡ is_group_busy groups.now.of.items busy.now task }
{
    busy.iter().any(|b| groups.is_same(*b, task))
}

/// Whether a busy task is of its group. If none is, the next unclaimed one of the group is ready, since this one isn't any more.
pub(super) fn pass_on(
    ready: &mut Marks,
    groups: &Groups,
    claimed: &[bool],
    busy: &[u32],
    task: u32,
) -> bool
    requires kept { AreKept claimed.now groups.now }
    requires within { task < length claimed.now }
    requires blocks { AreInBlocks ready.old.flags.items ready.old.blocks.items }
    ensures held { result ≡ is_group_busy groups.now.of.items busy.now task }
    ensures passed { IsHandedOn groups.now.of.items claimed.now (number_at groups.now.of.items task) (task + 1) result ready.old.flags.items ready.new.flags.items }
    ensures blocks { AreInBlocks ready.new.flags.items ready.new.blocks.items }
{
    if is_group_busy(groups, busy, task) {
        return true;
    }
    let next = number_at(&groups.next, task);
    let next = first_unclaimed(claimed, groups, next);
    ready.mark(next);
    false
}

/// The first unclaimed task of the task's group is ready.
pub(super) fn call_first(ready: &mut Marks, groups: &mut Groups, claimed: &[bool], task: u32)
    requires kept { AreKept claimed.now groups.old }
    requires within { task < length claimed.now }
    requires blocks { AreInBlocks ready.old.flags.items ready.old.blocks.items }
    ensures called { CallsFirst claimed.now task groups.old groups.new ready.old.flags.items ready.new.flags.items }
    ensures blocks { AreInBlocks ready.new.flags.items ready.new.blocks.items }
{
    let group = number_at(&groups.of, task);
    let first = number_at(&groups.firsts, group);
    let first = first_unclaimed(claimed, groups, first);
    put_number(&mut groups.firsts, group, first);
    ready.mark(first);
}

/// A task of its group from this one on may be unclaimed.
pub(super) fn reopen(groups: &mut Groups, task: u32)
    ensures kept { (claimed : List Bool) → task < length claimed → AreKept claimed groups.old → AreKept (slice_set claimed task false) groups.new }
    ensures same { groups.new.of.items ≡ groups.old.of.items }
{
    let group = number_at(&groups.of, task);
    let first = number_at(&groups.firsts, group);
    put_number(&mut groups.firsts, group, first.min(task));
}
