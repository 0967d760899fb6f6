// Whom an event concerns. No contract rests on it: a wait may always end sooner or later than it has to.
ghost use Rattle.std.specs.Prelude.{◌≤◌, length};
ghost use Rattle.journal_model.specs.Limits.{most_tasks};

use crate::event::{Event, Reply};
use journal_look::{Journal, WhatRef, are_all_claimed, task_of};
use journal_model::Opening;

/// How many numbers are looked after: those of a hall's passes, and 0.
const NUMBERS: usize = 71;

/// What a number was told to wait for.
#[derive(Clone, Copy)]
enum Wish {
    Nothing,
    Task,
    Verdict { child: u32, job: u64 },
    Read { child: u32 },
    Line { child: u32 },
}

/// One event: how long the journal was, whose it is, and what it waits for if it is answered by Wait.
#[derive(Clone, Copy)]
pub(super) struct Turn {
    from: u64,
    by: u32,
    wish: Wish,
    shuts: bool,
}

/// The tasks that were answered since a claim found none free: what kept others from being claimed.
#[derive(Clone, Copy)]
enum Answered {
    Nothing,
    One(u32),
    Many,
}

/// What each number waits for, which is nothing from `top` on; and a bit for each bell that the last event rings: number n hears
/// bell n % 64.
#[derive(Clone, Copy)]
pub(super) struct Waits {
    each: [Wish; NUMBERS],
    top: usize,
    answered: Answered,
    bells: u64,
}

fn wish_of(event: &Event) -> Wish {
    match event {
        Event::Claim { .. } => Wish::Task,
        Event::Lookup { child, job } => Wish::Verdict {
            child: *child,
            job: *job,
        },
        Event::Listen { child } => Wish::Read { child: *child },
        Event::Fetch { child } => Wish::Line { child: *child },
        _ => Wish::Nothing,
    }
}

/// Whether it is to read of the child, or to write to it.
fn is_about(wish: Wish, of: u32) -> bool {
    match wish {
        Wish::Read { child } | Wish::Line { child } => child == of,
        _ => false,
    }
}

/// Whether what is waited for may come of the entry.
fn may_come(wish: Wish, what: WhatRef<'_>) -> bool {
    match what {
        WhatRef::Claim { .. }
        | WhatRef::Answer { .. }
        | WhatRef::Got { .. }
        | WhatRef::Sent { .. }
        | WhatRef::Note { .. } => false,
        // its number may not claim any more, and others may have seen no task that is left
        WhatRef::Again { .. } => matches!(wish, Wish::Task),
        WhatRef::Ask { child, .. } => is_about(wish, child),
        WhatRef::Lead { child, .. } | WhatRef::Put { child, .. } => match wish {
            Wish::Line { child: of } => of == child,
            _ => false,
        },
        WhatRef::Verdict { child, job, .. } => match wish {
            Wish::Verdict { child: of, job: n } => of == child && n == job,
            _ => false,
        },
        _ => true,
    }
}

/// Whether the entry may leave nothing to do, once each task is claimed.
fn may_be_last(what: WhatRef<'_>) -> bool {
    matches!(
        what,
        WhatRef::Claim { .. } | WhatRef::Answer { .. } | WhatRef::Verdict { .. }
    )
}

/// Whether each task that the old one was in the way of has the new one in its way.
fn takes_over(opening: &Opening, old: u32, new: u32) -> bool {
    match (task_of(opening, old), task_of(opening, new)) {
        (Some(old), Some(new)) => {
            let key_alone = old.file.view().is_empty()
                && old.name.view().is_empty()
                && old.onto.view().is_empty();
            key_alone && old.key.view().text() == new.key.view().text()
        }
        _ => false,
    }
}

impl Turn {
    pub(super) fn of(journal: &Journal, by: u32, event: &Event) -> Turn {
        Turn {
            from: journal.len(),
            by,
            wish: wish_of(event),
            shuts: matches!(event, Event::Shut { .. }),
        }
    }
}

impl Waits {
    /// Nobody waits.
    pub(super) fn none() -> Waits {
        Waits {
            each: [Wish::Nothing; NUMBERS],
            top: 0,
            answered: Answered::Nothing,
            bells: 0,
        }
    }

    pub(super) fn bells(&self) -> u64 {
        self.bells
    }

    fn wake(&mut self, number: usize) {
        if number < NUMBERS {
            self.each[number] = Wish::Nothing;
            self.bells |= 1 << (number % 64);
        }
    }

    fn wake_for(&mut self, what: WhatRef<'_>) {
        for number in 0..self.top.min(NUMBERS) {
            let wish = self.each[number];
            if !matches!(wish, Wish::Nothing) && may_come(wish, what) {
                self.wake(number);
            }
        }
    }

    fn wake_all(&mut self) {
        for number in 0..self.top.min(NUMBERS) {
            if !matches!(self.each[number], Wish::Nothing) {
                self.wake(number);
            }
        }
    }

    fn wake_claimer(&mut self) {
        for number in 0..self.top.min(NUMBERS) {
            if matches!(self.each[number], Wish::Task) {
                self.wake(number);
                return;
            }
        }
    }

    // After a claim. Where it leaves a task that may be free, one that waits for a task is woken, and that one wakes the next:
    // where many wait for a key, not all need look at each answer.
    fn pass_on(&mut self, opening: &Opening, reply: &Reply) {
        match (self.answered, reply) {
            (_, Reply::Wait) => self.answered = Answered::Nothing,
            (Answered::Nothing, _) => {}
            (Answered::One(old), Reply::Task { task, .. }) if takes_over(opening, old, *task) => {
                self.answered = Answered::Nothing;
            }
            _ => self.wake_claimer(),
        }
    }

    fn heed_entry(&mut self, what: WhatRef<'_>) {
        if let WhatRef::Answer { task, .. } = what {
            self.answered = match self.answered {
                Answered::Nothing => Answered::One(task),
                _ => Answered::Many,
            };
        }
        self.wake_for(what);
    }

    fn set(&mut self, by: u32, wish: Wish) {
        let number = by as usize;
        if number < NUMBERS {
            self.each[number] = wish;
            self.top = self.top.max(number + 1);
        }
    }

    /// Notes whom the event of that turn concerns, after it, and whether its number waits.
    pub(super) fn heed(
        &mut self,
        opening: &Opening,
        journal: &Journal,
        shut: bool,
        turn: Turn,
        reply: &Reply,
    )
        requires { length opening.now.tasks ≤ most_tasks }
    {
        self.bells = 0;
        self.set(turn.by, Wish::Nothing);
        let mut is_last = turn.shuts;
        for at in turn.from..journal.len() {
            if let Some(entry) = journal.entry(at) {
                self.heed_entry(entry.what);
                is_last = is_last
                    || shut
                    || may_be_last(entry.what) && are_all_claimed(opening, journal);
            }
        }
        let waits = matches!(reply, Reply::Wait);
        if is_last {
            self.wake_all();
        } else if matches!(turn.wish, Wish::Task) {
            self.pass_on(opening, reply);
        }
        if waits {
            self.set(turn.by, turn.wish);
        }
    }
}
