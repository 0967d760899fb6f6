// The way to a core that many threads share.
ghost use Rattle.threads.specs.Passes.{IsPassOf};

use crate::Door;
use ann_key::NoMemory;
use host_core::{Core, Event, Reply};
use std::sync::Wait;
use threads::{Hall, Pass};

/// A door to the core of a hall, by one pass.
#[derive(Drop)]
pub struct HallDoor<'a, R: Wait> {
    pub rt: &'a R,
    pub hall: &'a Hall<Core>,
    pub pass: &'a mut Pass<Core>,
    ghost tied: { IsPassOf hall.now pass.now },
}

impl<'a, R: Wait> Door for HallDoor<'a, R> {
    type Home = Hall<Core>;

    ghost use Rattle.std.specs.Prelude.{false, [], ◌∷◌};
    ghost use Rattle.threads.specs.Passes.{seen_of};

    ghost view = { λ d. record { opening = d.hall.now.fixed; number = d.pass.now.number; seen = seen_of d.pass.now; alone = false; loans = d.pass.ghost_name ∷ []; home = d.hall.now } };

    fn step(&mut self, event: Event) -> Result<Reply, NoMemory> {
        self.hall.enter(self.rt, self.pass, event)
    }

    fn rest(&mut self) {
        self.hall.rest(self.rt, self.pass)
    }
}
