// The open jobs of a kit, in the order in which they were heard.
ghost use Rattle.std.specs.Prelude.{◌≡◌, option_copied, position};
ghost use Rattle.std.specs.List.{list_any, list_all};
ghost use Rattle.kit_async_model.specs.Jobs.{has_number, job_of, is_first_of_key, is_worked_by, share_key, is_awaiting};
ghost use Rattle.kit_async_model.specs.Legality.{holds_back, is_idle, is_free, is_turn_of, is_called};

use crate::job::Job;
use crate::setup::Setup;

fn has_number(job: &Job, number: u64) -> bool
    ensures { result ≡ has_number number job.now }
{
    job.number == number
}

/// The open job of that number.
pub(crate) fn job_of(jobs: &[Job], number: u64) -> Option<&Job>
    ensures { option_copied result ≡ job_of jobs.now number }
{
    jobs.iter().find(|job| has_number(job, number))
}

fn holds_back(setup: &Setup, tagged: bool, job: &Job) -> bool
    ensures { result ≡ holds_back setup.now tagged job.now }
{
    if job.is_making_ready() {
        !job.is_awaiting(setup)
    } else {
        !tagged
    }
}

/// The place of that job.
pub fn place_of(jobs: &[Job], number: u64) -> Option<usize>
    ensures { result ≡ position (has_number number) jobs.now }
{
    jobs.iter().position(|job| has_number(job, number))
}

/// Whether no line may be heard while one of these is open.
pub fn hold_back(setup: &Setup, tagged: bool, jobs: &[Job]) -> bool
    ensures { result ≡ list_any (holds_back setup.now tagged) jobs.now }
{
    jobs.iter().any(|job| holds_back(setup, tagged, job))
}

fn is_any_worked(jobs: &[Job], remote: u32) -> bool
    ensures { result ≡ list_any (is_worked_by remote) jobs.now }
{
    jobs.iter().any(|job| job.is_worked_by(remote))
}

/// Whether the remote has taken up nothing that it hasn't answered.
pub fn is_idle(jobs: &[Job], remote: u32) -> bool
    ensures { result ≡ is_idle jobs.now remote }
{
    !is_any_worked(jobs, remote)
}

/// Whether each of them awaits a value.
pub fn all_await(setup: &Setup, jobs: &[Job]) -> bool
    ensures { result ≡ list_all (is_awaiting setup.now) jobs.now }
{
    jobs.iter().all(|job| job.is_awaiting(setup))
}

// Whether two requests name one key.
fn share_key(one: &Job, other: &Job) -> bool
    ensures { result ≡ share_key one.now other.now }
{
    match (one.key(), other.key()) {
        (Some(one), Some(other)) => one.text() == other.text(),
        _ => false,
    }
}

// Whether none of the jobs before this one names its key.
fn is_first_of_key(jobs: &[Job], job: &Job) -> bool
    ensures { result ≡ is_first_of_key jobs.now job.now }
{
    for other in jobs {
        if has_number(other, job.number) {
            return true;
        }
        if share_key(other, job) {
            return false;
        }
    }
    true
}

fn is_free(setup: &Setup, jobs: &[Job], job: &Job) -> bool
    ensures { result ≡ is_free setup.now jobs.now job.now }
{
    job.is_for_any(setup) && job.taken.is_none() && job.calls == 0 && is_first_of_key(jobs, job)
}

// Whether it is this remote's turn to get ready for the job.
fn is_turn_of(setup: &Setup, jobs: &[Job], remote: u32, job: &Job) -> bool
    ensures { result ≡ is_turn_of setup.now jobs.now remote job.now }
{
    job.is_making_ready()
        && !job.is_awaiting(setup)
        && !job.settled
        && job.calls == remote
        && remote < setup.remotes
        && is_idle(jobs, remote)
}

/// The place of the job for which it is this remote's turn to get ready.
pub fn turn_of(setup: &Setup, jobs: &[Job], remote: u32) -> Option<usize>
    ensures { result ≡ position (is_turn_of setup.now jobs.now remote) jobs.now }
{
    jobs.iter()
        .position(|job| is_turn_of(setup, jobs, remote, job))
}

/// The place of the first job that any remote may take up.
pub fn first_free(setup: &Setup, jobs: &[Job]) -> Option<usize>
    ensures { result ≡ position (is_free setup.now jobs.now) jobs.now }
{
    jobs.iter().position(|job| is_free(setup, jobs, job))
}

fn is_called(setup: &Setup, jobs: &[Job], remote: u32, job: &Job) -> bool
    ensures { result ≡ is_called setup.now jobs.now remote job.now }
{
    if job.is_making_ready() {
        is_turn_of(setup, jobs, remote, job)
    } else {
        job.is_worked_by(remote)
    }
}

/// The place of the job that a call of this remote is for.
pub fn called(setup: &Setup, jobs: &[Job], remote: u32) -> Option<usize>
    ensures { result ≡ position (is_called setup.now jobs.now remote) jobs.now }
{
    jobs.iter()
        .position(|job| is_called(setup, jobs, remote, job))
}
