// What the threads of a kit share: the journal, and how the kit stands after it.
ghost use Rattle.std.specs.Prelude.{◌≡◌, ◌≤◌, ◌||◌, ◌++◌, ◌∷◌, [], List, All, IfOk, IsOk, OnErr, Some, None, if◌then◌else◌, true, false, codes, length};
ghost use Rattle.std.specs.List.{list_any};
ghost use Rattle.kit_async_model.specs.declared.entry.Entry.{Entry};
ghost use Rattle.kit_async_model.specs.declared.entry.Entry.TheVariants.{Say};
ghost use Rattle.kit_async_model.specs.Books.{AreApart, BookIsAsBefore, TookEvent, room_owed};
ghost use Rattle.kit_async_model.specs.Events.{MayStep, IsMadeBy, can_break, takes_no_memory, is_break, is_of_remote, remote_of};
ghost use Rattle.kit_async_model.specs.Legality.{Legal, is_finished, is_lack};
ghost use Rattle.kit_async_model.specs.Standings.{standing};
ghost use Rattle.kit_async_core.specs.Steps.{Comes};

use crate::book::Book;
use ann_key::{Bytes, NoMemory};
use kit_async_model::{Entries, Event, Reply, Setup};
use std::alloc::Global;
use std::marker::Model;

/// The number of the pass that reads. Those of the remotes come after the writer's.
pub const READER: u32 = 1;

/// The number of the pass that writes.
pub const WRITER: u32 = 2;

// The remote of that number.
fn remote(setup: &Setup, by: u32) -> Option<u32>
    ensures { result ≡ (if is_of_remote setup.now by then Some (remote_of by) else None) }
{
    if by >= 3 && by - 3 < setup.remotes {
        Some(by - 3)
    } else {
        None
    }
}

// Whether a core that is broken off does nothing at the event.
fn can_break(event: &Event) -> bool
    ensures { result ≡ can_break event.now }
{
    matches!(event, Event::Hear(_) | Event::Take | Event::Next)
}

// The bells of all passes, by their numbers, and of 64: bell n % 64 is that of pass n.
fn all_bells(setup: &Setup) -> u64 {
    if setup.remotes < 61 {
        u64::MAX >> (61 - setup.remotes)
    } else {
        u64::MAX
    }
}

// The bells of those whom the event may concern: what was taken up or written concerns nobody else.
fn bells_of(setup: &Setup, event: &Event) -> u64 {
    match event {
        Event::Take | Event::Next | Event::Wrote => 0,
        Event::Hear(_) | Event::Called(_) | Event::Close | Event::Break => all_bells(setup),
    }
}

// Whether a core is broken off, once the event came.
fn broken_by(broken: bool, event: &Event) -> bool
    ensures { result ≡ (broken || is_break event.now) }
{
    broken || matches!(event, Event::Break)
}

impl Book {
    // An event of that number.
    fn step(&mut self, setup: &Setup, by: u32, event: Event) -> Result<Reply, NoMemory>
        requires apart { AreApart self.old.stands.jobs }
        requires room { room_owed setup.now self.old.stands ≤ self.old.room }
        ensures kept { self.new.kept ≡ self.old.kept }
        ensures ok { IfOk result (TookEvent setup.now self.old self.new by event) }
        ensures err { OnErr result (BookIsAsBefore self.old self.new) }
        ensures free { takes_no_memory event ≡ true → IsOk result }
    {
        match event {
            Event::Hear(line) if by == READER => self.hear(setup, line),
            Event::Close if by == READER => self.close_ears(setup),
            Event::Next if by == WRITER => self.next(setup),
            Event::Wrote if by == WRITER => Ok(self.wrote(setup)),
            Event::Take => match remote(setup, by) {
                Some(remote) => self.take(setup, remote),
                None => Ok(Reply::Odd),
            },
            Event::Called(said) => match remote(setup, by) {
                Some(remote) => Ok(self.call(setup, remote, said)),
                None => Ok(Reply::Odd),
            },
            Event::Break => Ok(Reply::Done),
            Event::Hear(_) | Event::Close | Event::Next | Event::Wrote => Ok(Reply::Odd),
        }
    }
}

/// The core of a kit. It keeps its journal legal, and room for all that must not fail when memory runs out.
///
/// Contracts see of it what doesn't change, the journal, and whether it is broken off.
#[derive(Drop)]
pub struct KitCore {
    setup: Setup,
    book: Book,
    broken: bool,
    // of those whom the last event may concern
    bells: u64,
}

impl Model for KitCore {
    ghost use Rattle.std.specs.Prelude.{◌≡◌, ◌≤◌};
    ghost use Rattle.kit_async_model.specs.Books.{CoreValue, IsBook};

    ghost Value = { CoreValue };

    ghost view = { λ c. record { setup = c.setup; journal = c.book.journal; broken = c.broken } };

    ghost invariant = { λ c. IsBook c.setup c.book × (c.book.kept ≡ c.setup.kept) };
}

impl KitCore {
    /// A core that says its version.
    pub fn new(alloc: Global, setup: Setup) -> Result<KitCore, NoMemory>
        ensures setup { IfOk result (λ c. c.setup ≡ setup) }
        ensures journal { IfOk result (λ c. c.journal ≡ Say 0 (codes "VERSION 1") ∷ []) }
        ensures whole { IfOk result (λ c. c.broken ≡ false) }
    {
        let book = Book::new(alloc, setup.kept)?;
        Ok(KitCore {
            setup,
            book,
            broken: false,
            bells: 0,
        })
    }

    /// How many entries the journal has.
    pub fn len(&self) -> u64
        ensures { result ≡ length self.now.journal }
    {
        self.book.journal.len()
    }

    /// The bells of the passes whom the last event may concern, a bit for each.
    pub(crate) fn bells(&self) -> u64 {
        self.bells
    }

    /// Whether what was heard last ended it, or no memory was found for what it had to say.
    pub fn is_over(&self) -> bool
        ensures { result ≡ (standing self.now.setup self.now.journal).over }
    {
        self.book.over
    }

    /// Whether no more is heard.
    pub fn is_closed(&self) -> bool
        ensures { result ≡ (standing self.now.setup self.now.journal).closed }
    {
        self.book.closed
    }

    /// Whether all that could be said is said and written.
    pub fn is_finished(&self) -> bool
        ensures { result ≡ is_finished self.now.setup (standing self.now.setup self.now.journal) }
    {
        self.book.is_done(&self.setup) && self.book.unwritten.is_empty()
    }

    /// Whether no memory was found for what it had to say.
    pub fn lacks(&self) -> bool
        ensures { result ≡ list_any is_lack self.now.journal }
    {
        self.book.journal.lacks()
    }

    /// What didn't change, and its journal, which is legal. It takes no memory.
    pub fn close(self) -> (Setup, Entries)
        ensures setup { result.0 ≡ self.setup }
        ensures journal { result.1.entries ≡ self.journal }
        ensures kept { result.1.kept ≡ self.setup.kept }
        ensures legal { Legal result.0 result.1.entries }
    {
        (self.setup, self.book.journal)
    }

    /// What comes of an event of that number. At `NoMemory` the journal is as before.
    pub fn step(&mut self, by: u32, event: Event) -> Result<Reply, NoMemory>
        ensures setup { self.new.setup ≡ self.old.setup }
        ensures ok { IfOk result (Comes self.old.setup self.old.journal self.new.journal by event) }
        ensures err { OnErr result (self.new.journal ≡ self.old.journal) }
        ensures free { takes_no_memory event ≡ true → IsOk result }
        ensures broken { self.new.broken ≡ (self.old.broken || is_break event) }
    {
        if self.broken && can_break(&event) {
            return Ok(Reply::Broken);
        }
        self.broken = broken_by(self.broken, &event);
        self.bells = bells_of(&self.setup, &event);
        self.book.step(&self.setup, by, event)
    }
}
