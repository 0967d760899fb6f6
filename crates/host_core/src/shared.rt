// A core as the value of a hall, which many threads enter.
ghost use Rattle.std.specs.Prelude.{◌≡◌};

use crate::event::{Event, Reply};
use crate::machine::Core;
use crate::waits::Turn;
use ann_key::NoMemory;
use journal_model::{Entry, Opening};
use threads::Held;

impl Held for Core {
    ghost use Rattle.host_core.specs.Mays.{MayStep, IsMadeBy, IsFree};

    type Op = Event;

    type Reply = Reply;

    type Entry = Entry;

    type Fixed = Opening;

    ghost history = { λ c. c.journal };

    ghost fixed = { λ c. c.opening };

    ghost may = { MayStep };

    ghost made_by = { IsMadeBy };

    ghost is_free = { IsFree };

    fn act(&mut self, by: u32, op: Event) -> Result<Reply, NoMemory> {
        let turn = Turn::of(self.journal(), by, &op);
        let answer = self.step(by, op);
        self.heed(turn, &answer);
        answer
    }

    fn len(&self) -> u64 {
        self.journal().len()
    }

    fn bells(&self) -> u64 {
        Core::bells(self)
    }
}
