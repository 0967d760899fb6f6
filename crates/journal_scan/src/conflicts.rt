// The tasks of an opening, and which of them are in each other's way.
ghost use Rattle.std.specs.Prelude.{◌≡◌, ◌++◌, ◌&&◌, not, option_copied, bytes_eq, codes};
ghost use Rattle.std.specs.List.{list_any};
ghost use Rattle.journal_model.specs.Legality.{clashes, conflicts, is_empty, share_name, task_names, task_of, both_conflict, changes_content, may_note};

use journal_model::Opening;
use task_text::{Task, Work};

fn same(one: &[u8], other: &[u8]) -> bool
    ensures { result ≡ bytes_eq one.now other.now }
{
    one == other
}

/// Whether the text is the other one followed by `.part`.
fn is_part_of(text: &[u8], other: &[u8]) -> bool
    ensures { result ≡ bytes_eq text.now (other.now ++ codes ".part") }
{
    if text.len() < 5 {
        return false;
    }
    let at = text.len() - 5;
    let begins = same(&text[..at], other);
    let ends = same(&text[at..], b".part");
    begins && ends
}

fn clashes(a: &[u8], b: &[u8]) -> bool
    ensures { result ≡ clashes a.now b.now }
{
    if a.is_empty() || b.is_empty() {
        return false;
    }
    a == b || is_part_of(a, b) || is_part_of(b, a)
}

/// Whether the task has the name. An empty one is none.
#[tactic(auto, using(crate::proofs::Naming::named))]
fn is_name_of(name: &[u8], task: &Task) -> bool
    ensures { result ≡ (not (is_empty name.now) && list_any (bytes_eq name.now) (task_names task.now)) }
{
    if name.is_empty() {
        return false;
    }
    name == task.name.view().as_bytes() || name == task.onto.view().as_bytes()
}

#[tactic(auto, using(crate::proofs::Naming::shared))]
fn share_name(one: &Task, other: &Task) -> bool
    ensures { result ≡ share_name one.now other.now }
{
    is_name_of(one.name.view().as_bytes(), other) || is_name_of(one.onto.view().as_bytes(), other)
}

fn conflicts(one: &Task, other: &Task) -> bool
    ensures { result ≡ conflicts one.now other.now }
{
    one.key.view().text() == other.key.view().text()
        || clashes(one.file.view().as_bytes(), other.file.view().as_bytes())
        || share_name(one, other)
}

/// The task of a number, counted from 1.
pub fn task_of(opening: &Opening, number: u32) -> Option<&Task>
    ensures { option_copied result ≡ task_of opening.now number }
{
    if number == 0 {
        None
    } else {
        opening.tasks.view().get(number as usize - 1)
    }
}

/// Whether the two tasks are in each other's way.
pub fn both_conflict(opening: &Opening, one: u32, other: u32) -> bool
    ensures { result ≡ both_conflict (task_of opening.now one) (task_of opening.now other) }
{
    let Some(one) = task_of(opening, one) else {
        return false;
    };
    let Some(other) = task_of(opening, other) else {
        return false;
    };
    conflicts(one, other)
}

/// Whether the task may note which chunks the remote has.
pub fn may_note(opening: &Opening, task: u32) -> bool
    ensures { result ≡ may_note (task_of opening.now task) }
{
    match task_of(opening, task) {
        Some(task) => changes_content(task.work),
        None => false,
    }
}

fn changes_content(work: Work) -> bool
    ensures { result ≡ changes_content work }
{
    matches!(work, Work::Store | Work::Drop)
}
