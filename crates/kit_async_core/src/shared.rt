// The core as the value of a hall, which many threads enter.
ghost use Rattle.std.specs.Prelude.{◌≡◌};

use crate::machine::KitCore;
use ann_key::NoMemory;
use kit_async_model::{Entry, Event, Reply, Setup};
use threads::Held;

impl Held for KitCore {
    ghost use Rattle.kit_async_model.specs.Events.{MayStep, IsMadeBy, IsFree};

    type Op = Event;

    type Reply = Reply;

    type Entry = Entry;

    type Fixed = Setup;

    ghost history = { λ c. c.journal };

    ghost fixed = { λ c. c.setup };

    ghost may = { MayStep };

    ghost made_by = { IsMadeBy };

    ghost is_free = { IsFree };

    fn act(&mut self, by: u32, op: Event) -> Result<Reply, NoMemory> {
        self.step(by, op)
    }

    fn len(&self) -> u64 {
        self.len()
    }

    fn bells(&self) -> u64 {
        self.bells()
    }
}
