// The steps of a remote: what it takes up, and what it says.
ghost use Rattle.std.specs.Prelude.{◌≡◌, ◌⊎◌, ◌<◌, ◌≤◌, ◌+◌, ◌-◌, ◌*◌, ◌++◌, ◌^◌, IfOk, IfSome, IsTrue, OnErr, OnOk, false, true, not, ◌&&◌, length, option_map, remove, slice_get, vec_items};
ghost use Rattle.std.specs.List.{list_all};
ghost use Rattle.annex_model.specs.Lines.{has_newline};
ghost use Rattle.annex_model.specs.Messages.{is_word};
ghost use Rattle.kit_serve.specs.Kit.Calls.{is_line_said};
ghost use Rattle.kit_serve.specs.Kit.Descriptions.{is_config};
ghost use Rattle.kit_async_model.specs.Books.{Took, Lacked, BookIsAsBefore, AreApart, room_owed, IsAnswer, IsCalledAt, CallNoted, AnswerBegun};
ghost use Rattle.kit_async_model.specs.Legality.{is_idle};
ghost use Rattle.kit_async_model.specs.Events.{take_step, call_step, work_in};
ghost use Rattle.kit_async_model.specs.Jobs.{prepared_after, settles};
ghost use Rattle.kit_async_model.specs.Standings.{told_by, with_call};

use crate::book::{Book, waiting};
use crate::lines::{all_wired, begin_lines, room_for, say_all};
use ann_key::{Bytes, NoMemory};
use kit_async_model::jobs::{called, first_free, is_idle, turn_of};
use kit_async_model::{Entry, Job, Reply, Setup};
use kit_serve::kit::{Pair, Said};
use std::alloc::Global;

fn is_line(bytes: &[u8]) -> bool
    ensures { result ≡ not (has_newline bytes.now) }
{
    !bytes.contains(&b'\n')
}

fn is_word(bytes: &[u8]) -> bool
    ensures { result ≡ is_word bytes.now }
{
    !bytes.contains(&b' ')
}

// The setting can be told on a line, its name as a word.
fn is_config(pair: &Pair) -> bool
    ensures { result ≡ is_config pair.now }
{
    is_word(pair.name.view()) && is_line(pair.name.view()) && is_line(pair.text.view())
}

fn are_configs(pairs: &[Pair]) -> bool
    ensures { result ≡ list_all is_config pairs.now }
{
    pairs.iter().all(|pair| is_config(pair))
}

// No line ends in what the remote said.
fn is_line_said(said: &Said) -> bool
    ensures { result ≡ is_line_said said.now }
{
    match said {
        Said::Yes | Said::No => true,
        Said::Failure(text) => is_line(text.view()),
        Said::Set(pairs) => are_configs(pairs.view()),
    }
}

// What the job asks of its remote.
fn work(alloc: Global, setup: &Setup, job: &Job) -> Result<Reply, NoMemory>
    ensures { IfOk result (λ reply. reply ≡ work_in setup.now job.now) }
{
    match job.asked(alloc, setup)? {
        Some(asked) => Ok(Reply::Work(asked)),
        None => Ok(Reply::Odd),
    }
}

impl Book {
    // Whether the remote may take something up.
    fn may_begin(&self, remote: u32) -> bool
        ensures { result ≡ (not self.now.stands.over && is_idle self.now.stands.jobs remote) }
    {
        !self.over && is_idle(self.jobs.as_slice(), remote)
    }

    /// The remote has nothing to do: it gets ready where it is its turn, or takes up the first request that it may.
    pub(crate) fn take(&mut self, setup: &Setup, remote: u32) -> Result<Reply, NoMemory>
        requires apart { AreApart self.old.stands.jobs }
        ensures kept { self.new.kept ≡ self.old.kept }
        ensures ok { IfOk result (Took setup.now self.old self.new (take_step setup.now self.old.stands remote)) }
        ensures err { OnErr result (BookIsAsBefore self.old self.new) }
    {
        if let Some(at) = turn_of(setup, self.jobs.as_slice(), remote) {
            return work(self.alloc, setup, &self.jobs[at]);
        }
        if !self.may_begin(remote) {
            return Ok(waiting(self.is_done(setup)));
        }
        let Some(at) = first_free(setup, self.jobs.as_slice()) else {
            return Ok(waiting(self.is_done(setup)));
        };
        let job = &self.jobs[at];
        let number = job.number;
        let reply = work(self.alloc, setup, job)?;
        self.journal.take_room(1)?;
        self.journal.push(Entry::Take {
            job: number,
            remote,
        });
        self.jobs[at].taken = Some(remote);
        Ok(reply)
    }
}

// One call more.
fn note_in(job: &mut Job, settles: bool)
    requires { job.old.calls + 1 < 2 ^ 32 }
    ensures { job.new ≡ with_call settles job.old }
{
    job.calls += 1;
    job.settled = settles;
}

// What a remote said.
impl Book {
    // Whether the kit is prepared, once a remote said that for the job.
    fn prepared_by(&self, setup: &Setup, job: &Job, said: &Said) -> bool
        ensures { result ≡ prepared_after setup.now job.now said.now self.now.stands.prepared }
    {
        job.prepared_after(setup, said, self.prepared)
    }

    // Notes the call for the job at that place.
    fn note_call(&mut self, setup: &Setup, remote: u32, said: Said, at: usize)
        requires room { 0 < self.old.room }
        requires is { IsCalledAt setup.now self.old.stands remote said at }
        ensures kept { self.new.kept ≡ self.old.kept }
        ensures noted { CallNoted setup.now self.old self.new remote said at }
    {
        let job = &self.jobs[at];
        let number = job.number;
        let settles = job.settles(setup, &said);
        let prepared = self.prepared_by(setup, job, &said);
        let _most = job.most_calls(setup);
        self.journal.push(Entry::Call {
            job: number,
            remote,
            said,
        });
        self.prepared = prepared;
        note_in(&mut self.jobs[at], settles);
    }

    // The answer to the job at that place.
    fn answer(&self, at: usize, said: &Said) -> Result<Vec<Bytes>, NoMemory>
        requires at { at < length self.now.stands.jobs }
        requires text { IsTrue (is_line_said said.now) }
        ensures { IfOk result (λ lines. IsAnswer self.now.stands.jobs at said.now lines.items) }
    {
        let job = &self.jobs[at];
        let texts = job.final_lines(self.alloc, said)?;
        all_wired(self.alloc, job.number, texts.view())
    }

    // The lines are to be written. There is room for one of them, and each further one takes its own.
    fn begin_wired(&mut self, lines: &[Bytes]) -> Result<(), NoMemory>
        ensures kept { self.new.kept ≡ self.old.kept }
        ensures journal { self.new.journal ≡ self.old.journal }
        ensures room { OnOk result (self.new.room ≡ self.old.room + 2 * (length lines.now - 1)) }
        ensures stands { OnOk result (self.new.stands ≡ record self.old.stands { unwritten = self.old.stands.unwritten ++ lines.now }) }
        ensures err { OnErr result (BookIsAsBefore self.old self.new) }
    {
        let room = room_for(lines.len().saturating_sub(1), 0)?;
        begin_lines(
            self.alloc,
            &mut self.journal,
            &mut self.unwritten,
            lines,
            room,
        )
    }

    // The answer, among the lines that are to be written.
    fn begin_answer(&mut self, at: usize, said: &Said) -> Option<Vec<Bytes>>
        requires at { at < length self.old.stands.jobs }
        requires text { IsTrue (is_line_said said.now) }
        ensures kept { self.new.kept ≡ self.old.kept }
        ensures begun { AnswerBegun self.old self.new at said.now (option_map vec_items result) }
    {
        let Ok(lines) = self.answer(at, said) else {
            return None;
        };
        match self.begin_wired(lines.as_slice()) {
            Ok(()) => Some(lines),
            Err(_) => None,
        }
    }

    // Whether that word for the job at that place is to be answered.
    fn is_owed(&self, setup: &Setup, at: usize, said: &Said) -> bool
        requires { at < length self.now.stands.jobs }
        ensures { IfSome (slice_get self.now.stands.jobs at) (λ job. result ≡ (not self.now.stands.over && settles setup.now job said.now)) }
    {
        let settles = self.jobs[at].settles(setup, said);
        !self.over && settles
    }

    // The job at that place is closed. If it left the kit prepared, its values are told of from now on.
    fn close_job(&mut self, at: usize)
        requires { at < length self.old.stands.jobs }
        ensures kept { self.new.kept ≡ self.old.kept }
        ensures journal { self.new.journal ≡ self.old.journal }
        ensures room { self.new.room ≡ self.old.room }
        ensures stands { IfSome (slice_get self.old.stands.jobs at)
            (λ job. self.new.stands ≡ record self.old.stands { told = told_by self.old.stands.prepared job self.old.stands.told; jobs = remove self.old.stands.jobs at }) }
    {
        let job = self.jobs.remove(at);
        if self.prepared && job.is_prepare() {
            self.told = job.values;
        }
    }

    // The call settles the job, and is answered.
    fn settle(&mut self, setup: &Setup, remote: u32, said: Said, at: usize) -> Reply
        requires apart { AreApart self.old.stands.jobs }
        requires room { room_owed setup.now self.old.stands ≤ self.old.room }
        requires is { IsCalledAt setup.now self.old.stands remote said at }
        requires live { self.old.stands.over ≡ false }
        requires settles { IfSome (slice_get self.old.stands.jobs at) (λ job. settles setup.now job said ≡ true) }
        ensures kept { self.new.kept ≡ self.old.kept }
        ensures took { Took setup.now self.old self.new (call_step setup.now self.old.stands remote said) result
            ⊎ Lacked setup.now self.old self.new (call_step setup.now self.old.stands remote said) result }
    {
        let answer = self.begin_answer(at, &said);
        let number = self.jobs[at].number;
        self.note_call(setup, remote, said, at);
        match answer {
            Some(lines) => {
                say_all(&mut self.journal, number, lines);
                self.close_job(at);
                Reply::Done
            }
            None => {
                self.journal.push(Entry::Lack);
                self.over = true;
                Reply::Unsaid
            }
        }
    }

    /// What the remote said to its call. There is room for it.
    pub(crate) fn call(&mut self, setup: &Setup, remote: u32, said: Said) -> Reply
        requires apart { AreApart self.old.stands.jobs }
        requires room { room_owed setup.now self.old.stands ≤ self.old.room }
        requires remote { remote < setup.now.remotes }
        ensures kept { self.new.kept ≡ self.old.kept }
        ensures took { Took setup.now self.old self.new (call_step setup.now self.old.stands remote said) result
            ⊎ Lacked setup.now self.old self.new (call_step setup.now self.old.stands remote said) result }
    {
        if !is_line_said(&said) {
            return Reply::Odd;
        }
        let Some(at) = called(setup, self.jobs.as_slice(), remote) else {
            return Reply::Odd;
        };
        if self.is_owed(setup, at, &said) {
            return self.settle(setup, remote, said, at);
        }
        self.note_call(setup, remote, said, at);
        Reply::Done
    }
}
