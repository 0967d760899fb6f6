// A mouth in a thread.
use ann_outside::Sink;
use child_link::Mouth;
use child_link::hall::run_mouth;
use host_core::Core;
use std::sync::Wait;
use threads::roles::Role;
use threads::{Hall, Pass};

/// A mouth with its pass.
#[derive(Drop)]
pub struct MouthRole<'a, I: Sink, R: Wait> {
    pub rt: &'a R,
    pub hall: &'a Hall<Core>,
    pub pass: Pass<Core>,
    pub mouth: Mouth<I>,
}

impl<'a, I: Sink, R: Wait> Role for MouthRole<'a, I, R> {
    ghost use Rattle.crew_rounds.specs.Tagged.Roles.{CanHold, MouthRan};

    ghost can_run = { λ s. CanHold s.hall.now s.pass s.mouth.child };

    ghost ran = { λ a b. MouthRan a.hall.now a.pass b.pass a.mouth b.mouth };

    fn run(self) -> Self {
        let MouthRole {
            rt,
            hall,
            mut pass,
            mut mouth,
        } = self;
        run_mouth(rt, hall, &mut pass, &mut mouth);
        MouthRole {
            rt,
            hall,
            pass,
            mouth,
        }
    }
}
