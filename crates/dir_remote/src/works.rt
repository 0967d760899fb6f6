// The work of a remote in a directory that is known.
ghost use Rattle.std.specs.Prelude.{false, is_some, IfSome, Some};
ghost use Rattle.ann_key.specs.KeyRefs.{text_of};
ghost use Rattle.dir_remote.specs.Answers.{IsCalm, Works, StoreDoes, RetrieveDoes, CheckDoes, RemoveDoes, is_of_transfer, is_of_check, is_of_removal};
ghost use Rattle.dir_remote.specs.Contents.{IsMark, LeavesInTransit};
ghost use Rattle.dir_remote.specs.Traces.{Each, IsCheckCall, IsRemoveCall, IsRetrieveCall, StoreTraces, Traced};

use crate::copying::{copy, give_up};
use crate::outcome::{Outcome, refusal};
use crate::places::{content_place, temporary_place};
use ann_key::{KeyRef, Text};
use ann_outside::{Desk, DeskError};
use std::alloc::Global;

// The content is put together beside the one that stands, and takes its place by a rename.
pub fn store<D: Desk>(
    alloc: Global,
    desk: &mut D,
    directory: &str,
    mark: &Option<Text>,
    key: KeyRef<'_>,
    file: &str,
) -> Outcome
    requires { IfSome mark.now IsMark }
    ensures works { Works is_of_transfer (StoreDoes directory.now (text_of key.entry) file.now) (text_of key.entry) (D.told desk.old) (D.told desk.new) result }
    ensures traced { Traced (StoreTraces mark.now directory.now (text_of key.entry) file.now result) (D.told desk.old).log (D.told desk.new).log }
    ensures spared { LeavesInTransit mark.now (Some directory.now) (text_of key.entry) (D.told desk.old).files (D.told desk.new).files }
    ensures calm { IsCalm (is_some mark.now) (D.told desk.old).counts (D.told desk.new).counts result }
{
    let content = match content_place(alloc, directory, key) {
        Ok(content) => content,
        Err(outcome) => return outcome,
    };
    let temporary = match temporary_place(alloc, directory, mark, key) {
        Ok(temporary) => temporary,
        Err(outcome) => return outcome,
    };
    let place = content.view();
    let beside = temporary.view();
    let alone = mark.is_some();
    if let Err(error) = copy(alloc, desk, file, beside, alone) {
        return refusal(error);
    }
    match desk.rename(beside, place) {
        Ok(()) => Outcome::Done,
        Err(error) => {
            let _ = give_up(desk, beside, alone, error);
            refusal(error)
        }
    }
}

// The content is looked for first: where it is missing nothing is made.
pub fn retrieve<D: Desk>(
    alloc: Global,
    desk: &mut D,
    directory: &str,
    key: KeyRef<'_>,
    file: &str,
) -> Outcome
    ensures works { Works is_of_transfer (RetrieveDoes directory.now (text_of key.entry) file.now) (text_of key.entry) (D.told desk.old) (D.told desk.new) result }
    ensures traced { Traced (Each (IsRetrieveCall directory.now (text_of key.entry) file.now)) (D.told desk.old).log (D.told desk.new).log }
    ensures calm { IsCalm false (D.told desk.old).counts (D.told desk.new).counts result }
{
    let content = match content_place(alloc, directory, key) {
        Ok(content) => content,
        Err(outcome) => return outcome,
    };
    let place = content.view();
    if let Err(error) = desk.size(place) {
        return refusal(error);
    }
    match copy(alloc, desk, place, file, false) {
        Ok(()) => Outcome::Done,
        Err(error) => refusal(error),
    }
}

// Whether there is a content.
pub fn check<D: Desk>(alloc: Global, desk: &mut D, directory: &str, key: KeyRef<'_>) -> Outcome
    ensures works { Works is_of_check (CheckDoes directory.now (text_of key.entry)) (text_of key.entry) (D.told desk.old) (D.told desk.new) result }
    ensures traced { Traced (Each (IsCheckCall directory.now (text_of key.entry))) (D.told desk.old).log (D.told desk.new).log }
    ensures calm { IsCalm false (D.told desk.old).counts (D.told desk.new).counts result }
{
    let content = match content_place(alloc, directory, key) {
        Ok(content) => content,
        Err(outcome) => return outcome,
    };
    let place = content.view();
    match desk.size(place) {
        Ok(_) => Outcome::Done,
        Err(DeskError::Missing) => Outcome::NotThere,
        Err(DeskError::Failed) => Outcome::DiskFailed,
        Err(DeskError::NoMemory) => Outcome::NoMemory,
    }
}

// Takes the content away, where there is one.
pub fn remove<D: Desk>(alloc: Global, desk: &mut D, directory: &str, key: KeyRef<'_>) -> Outcome
    ensures works { Works is_of_removal (RemoveDoes directory.now (text_of key.entry)) (text_of key.entry) (D.told desk.old) (D.told desk.new) result }
    ensures traced { Traced (Each (IsRemoveCall directory.now (text_of key.entry))) (D.told desk.old).log (D.told desk.new).log }
    ensures calm { IsCalm false (D.told desk.old).counts (D.told desk.new).counts result }
{
    let content = match content_place(alloc, directory, key) {
        Ok(content) => content,
        Err(outcome) => return outcome,
    };
    let place = content.view();
    match desk.remove(place) {
        Ok(()) => Outcome::Done,
        Err(DeskError::Missing) => Outcome::Done,
        Err(DeskError::Failed) => Outcome::DiskFailed,
        Err(DeskError::NoMemory) => Outcome::NoMemory,
    }
}
