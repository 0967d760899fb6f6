// An ear in a thread.
use ann_outside::Source;
use child_link::Ear;
use child_link::hall::run_ear;
use host_core::Core;
use std::sync::Wait;
use threads::roles::Role;
use threads::{Hall, Pass};

/// An ear with its pass.
#[derive(Drop)]
pub struct EarRole<'a, O: Source, R: Wait> {
    pub rt: &'a R,
    pub hall: &'a Hall<Core>,
    pub pass: Pass<Core>,
    pub ear: Ear<O>,
}

impl<'a, O: Source, R: Wait> Role for EarRole<'a, O, R> {
    ghost use Rattle.crew_rounds.specs.Tagged.Roles.{CanHold, EarRan};

    ghost can_run = { λ s. CanHold s.hall.now s.pass s.ear.child };

    ghost ran = { λ a b. EarRan a.hall.now a.pass b.pass a.ear b.ear };

    fn run(self) -> Self {
        let EarRole {
            rt,
            hall,
            mut pass,
            mut ear,
        } = self;
        run_ear(rt, hall, &mut pass, &mut ear);
        EarRole {
            rt,
            hall,
            pass,
            ear,
        }
    }
}
