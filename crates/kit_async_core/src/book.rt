// A journal that is being written, and how a kit stands after it.
ghost use Rattle.std.specs.Prelude.{◌≡◌, ◌≤◌, ◌∷◌, [], IfOk, OnErr, codes};
ghost use Rattle.kit_async_model.specs.declared.entry.Entry.TheVariants.{Say};
ghost use Rattle.kit_async_model.specs.Standings.{opening};
ghost use Rattle.kit_async_model.specs.Legality.{may_hear, is_done};
ghost use Rattle.kit_async_model.specs.Events.{waiting, next_reply, wrote_step, close_step};
ghost use Rattle.kit_async_model.specs.Books.{Took, BookIsAsBefore, room_owed};

use ann_key::{Bytes, NoMemory};
use kit_async_model::jobs::{all_await, hold_back};
use kit_async_model::{Entries, Entry, Job, Reply, Setup};
use kit_serve::kit::Values;
use std::alloc::Global;
use std::collections::VecDeque;
use std::marker::Model;

/// The journal of a kit, and beside it how the kit stands, where nothing is due.
#[derive(Drop)]
pub(crate) struct Book {
    pub(crate) alloc: Global,
    pub(crate) journal: Entries,
    pub(crate) jobs: Vec<Job>,
    pub(crate) tagged: bool,
    pub(crate) prepared: bool,
    // The values of the last PREPARE that succeeded.
    pub(crate) told: Values,
    pub(crate) over: bool,
    pub(crate) closed: bool,
    // What was said and isn't written yet.
    pub(crate) unwritten: VecDeque<Bytes>,
}

impl Model for Book {
    ghost use Rattle.std.specs.Prelude.{[]};
    ghost use Rattle.kit_async_model.specs.Books.{BookValue};

    ghost Value = { BookValue };

    ghost view = { λ b. record {
      kept = b.journal.kept;
      journal = b.journal.entries;
      room = b.journal.room;
      stands = record { due = []; tagged = b.tagged; prepared = b.prepared; told = b.told; jobs = b.jobs.items; over = b.over; closed = b.closed; unwritten = b.unwritten.items };
    } };
}

/// Nothing can be done now, or ever.
pub(crate) fn waiting(done: bool) -> Reply
    ensures { result ≡ waiting done }
{
    if done { Reply::Over } else { Reply::Wait }
}

impl Book {
    /// That of a kit that says its version, whose journal is kept or not.
    pub(crate) fn new(alloc: Global, kept: bool) -> Result<Book, NoMemory>
        ensures kept { IfOk result (λ b. b.kept ≡ kept) }
        ensures journal { IfOk result (λ b. b.journal ≡ Say 0 (codes "VERSION 1") ∷ []) }
        ensures stands { IfOk result (λ b. b.stands ≡ record opening { due = []; unwritten = codes "VERSION 1" ∷ [] }) }
        ensures room { IfOk result (λ b. b.room ≡ 1) }
    {
        let line = Bytes::copy(alloc, b"VERSION 1")?;
        let copy = Bytes::copy(alloc, line.view())?;
        let mut unwritten = VecDeque::new(alloc);
        unwritten.push_back(copy)?;
        let mut journal = Entries::new(alloc, kept);
        journal.take_room(2)?;
        journal.push(Entry::Say { job: 0, line });
        Ok(Book {
            alloc,
            journal,
            jobs: Vec::new(alloc),
            tagged: false,
            prepared: false,
            told: Values::new(Vec::new(alloc)),
            over: false,
            closed: false,
            unwritten,
        })
    }

    /// Whether a line may be heard.
    pub(crate) fn may_hear(&self, setup: &Setup) -> bool
        ensures { result ≡ may_hear setup.now self.now.stands }
    {
        !self.over && !self.closed && !hold_back(setup, self.tagged, self.jobs.as_slice())
    }

    /// Whether no more can come of what was heard.
    pub(crate) fn is_done(&self, setup: &Setup) -> bool
        ensures { result ≡ is_done setup.now self.now.stands }
    {
        self.over || (self.closed && all_await(setup, self.jobs.as_slice()))
    }

    /// The next line that is to be written.
    pub(crate) fn next(&self, setup: &Setup) -> Result<Reply, NoMemory>
        ensures { IfOk result (λ reply. reply ≡ next_reply (is_done setup.now self.now.stands) self.now.stands.unwritten) }
    {
        match self.unwritten.front() {
            Some(line) => Ok(Reply::Line(Bytes::copy(self.alloc, line.view())?)),
            None => Ok(waiting(self.is_done(setup))),
        }
    }

    /// The next line is written.
    pub(crate) fn wrote(&mut self, setup: &Setup) -> Reply
        requires { room_owed setup.now self.old.stands ≤ self.old.room }
        ensures kept { self.new.kept ≡ self.old.kept }
        ensures took { Took setup.now self.old self.new (wrote_step self.old.stands.unwritten) result }
    {
        if self.unwritten.is_empty() {
            return Reply::Odd;
        }
        self.unwritten.pop_front();
        self.journal.push(Entry::Wrote);
        Reply::Done
    }

    /// No more is heard.
    pub(crate) fn close_ears(&mut self, setup: &Setup) -> Result<Reply, NoMemory>
        ensures kept { self.new.kept ≡ self.old.kept }
        ensures ok { IfOk result (Took setup.now self.old self.new (close_step self.old.stands)) }
        ensures err { OnErr result (BookIsAsBefore self.old self.new) }
    {
        if self.over || self.closed {
            return Ok(Reply::Done);
        }
        self.journal.take_room(1)?;
        self.journal.push(Entry::Close);
        self.closed = true;
        Ok(Reply::Done)
    }
}
