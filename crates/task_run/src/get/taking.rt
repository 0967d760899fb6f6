// Taking in a file that was fetched whole.
ghost use Rattle.std.specs.Prelude.{◌≡◌, ◌≢◌, ◌<◌, [], true, Ok, is_some};
ghost use Rattle.ann_key.specs.KeyRefs.{parts_of};
ghost use Rattle.task_model.specs.Fetching.{Outcome, Moves, Fetches, discarded, settling, settled};
ghost use Rattle.task_model.specs.Ran.{change_answer, is_of_content, may_follow_refusal, HasQuietCauses};
ghost use Rattle.task_run.specs.Get.WholeFetches.{TakesWhole};
ghost use Rattle.journal_model.specs.declared.answer.Answer.TheVariants.{Got};
ghost use Rattle.ann_outside.specs.Calls.{logged};
ghost use Rattle.ann_outside.specs.declared.file_desk.Call.TheVariants.{Remove};

use ann_digest::{Checker, Fit};
use ann_key::{KeyRef, NoMemory};
use ann_outside::{Desk, DeskError};
use journal_model::{Answer, Verdict};
use std::alloc::Global;
use task_model::answers::{is_done, is_size, refused, undone_answer};
use task_model::copying::{Copied, copy_in};

// Removes part, where it is there, and gives the answer.
pub fn discard<D: Desk>(desk: &mut D, part: &str, answer: Answer) -> Result<Answer, NoMemory>
    requires content { is_of_content answer ≡ true }
    requires misfit { may_follow_refusal (Ok answer) ≡ true }
    ensures calls { (r : Outcome) × ((D.told desk.new).log ≡ logged (D.told desk.old).log (Remove part.now r)) × (result ≡ discarded answer r) }
    ensures causes { HasQuietCauses (D.told desk.old).counts (D.told desk.new).counts result }
{
    match desk.remove(part) {
        Ok(()) => Ok(answer),
        Err(DeskError::Missing) => Ok(answer),
        Err(error) => refused(error),
    }
}

// Keeps part as the file where its bytes fit, and else removes it.
pub fn settle<D: Desk>(desk: &mut D, fit: Fit, file: &str, part: &str) -> Result<Answer, NoMemory>
    ensures calls { (r : Outcome) × ((D.told desk.new).log ≡ logged (D.told desk.old).log (settling (record { file = file.now; part = part.now; fetch = [] }) fit r)) × (result ≡ settled fit r) }
    ensures causes { HasQuietCauses (D.told desk.old).counts (D.told desk.new).counts result }
{
    match fit {
        Fit::Fits => match desk.rename(part, file) {
            Ok(()) => Ok(Answer::Got),
            Err(error) => refused(error),
        },
        Fit::Size(bytes) => discard(desk, part, Answer::Size { bytes }),
        Fit::Hash(digest) => discard(desk, part, Answer::Hash { digest }),
    }
}

// Moves the fetched file, which has n bytes, to part, and settles what it is.
fn move_in<D: Desk>(
    alloc: Global,
    desk: &mut D,
    key: KeyRef<'_>,
    file: &str,
    part: &str,
    fetch: &str,
    n: u64,
) -> Result<Answer, NoMemory>
    requires { fetch.now ≢ part.now }
    ensures calls { Moves (record { file = file.now; part = part.now; fetch = fetch.now }) (parts_of key.entry) n (D.told desk.old).log (D.told desk.new).log result }
    ensures causes { HasQuietCauses (D.told desk.old).counts (D.told desk.new).counts result }
{
    match desk.create(part) {
        Ok(()) => {
            let mut checker = Checker::new(key);
            match copy_in(alloc, desk, fetch, part, n, &mut checker)? {
                Copied::Done(_) => match desk.remove(fetch) {
                    Ok(()) => settle(desk, checker.finish(), file, part),
                    Err(error) => refused(error),
                },
                Copied::Fault => Ok(Answer::FileFault),
                Copied::Missing => Ok(Answer::NoFile),
            }
        }
        Err(error) => refused(error),
    }
}

// Takes in the fetched file, where it has the key's size.
fn fetched<D: Desk>(
    alloc: Global,
    desk: &mut D,
    key: KeyRef<'_>,
    file: &str,
    part: &str,
    fetch: &str,
) -> Result<Answer, NoMemory>
    requires { fetch.now ≢ part.now }
    ensures calls { Fetches (record { file = file.now; part = part.now; fetch = fetch.now }) (parts_of key.entry) (D.told desk.old).log (D.told desk.new).log result }
    ensures causes { HasQuietCauses (D.told desk.old).counts (D.told desk.new).counts result }
{
    match desk.size(fetch) {
        Ok(n) => {
            if is_size(key.size(), n) {
                move_in(alloc, desk, key, file, part, fetch, n)
            } else {
                discard(desk, part, Answer::Size { bytes: n })
            }
        }
        Err(error) => refused(error),
    }
}

// Takes in what the one request for the whole content came to.
pub fn take_whole<D: Desk>(
    alloc: Global,
    desk: &mut D,
    key: KeyRef<'_>,
    file: &str,
    part: &str,
    fetch: &str,
    verdict: Verdict,
) -> Result<Answer, NoMemory>
    requires differ { fetch.now ≢ part.now }
    requires verdict { is_some (change_answer Got verdict) ≡ true }
    ensures took { TakesWhole (record { file = file.now; part = part.now; fetch = fetch.now }) (parts_of key.entry) verdict (D.told desk.old).log (D.told desk.new).log result }
    ensures causes { HasQuietCauses (D.told desk.old).counts (D.told desk.new).counts result }
{
    if is_done(verdict) {
        fetched(alloc, desk, key, file, part, fetch)
    } else {
        Ok(undone_answer(verdict))
    }
}
