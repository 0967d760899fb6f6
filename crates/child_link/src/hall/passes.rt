// Roles by a pass of the core's hall.
ghost use Rattle.std.specs.Prelude.{◌≡◌, true, false};
ghost use Rattle.journal_model.specs.Journal.{is_started};
ghost use Rattle.threads.specs.Passes.{IsPassOf, seen_of};
ghost use Rattle.child_link.specs.Moves.{EarMoved, MouthMoved};
ghost use Rattle.journal_model.specs.Halves.{IsSameEar, IsSameMouth};
ghost use Rattle.host_core.specs.declared.event.Event.TheVariants.{Listen, Fetch};
ghost use Rattle.host_core.specs.declared.event.Reply.TheVariants.{Over};
ghost use Rattle.child_link.specs.Events.{Says};

use crate::hall::hall_door::HallDoor;
use crate::{Ear, Mouth};
use ann_outside::{Sink, Source};
use host_core::Core;
use std::sync::Wait;
use threads::{Hall, Pass};

/// An ear's whole run.
pub fn run_ear<O: Source, R: Wait>(
    rt: &R,
    hall: &Hall<Core>,
    pass: &mut Pass<Core>,
    ear: &mut Ear<O>,
)
    requires pass { IsPassOf hall.now pass.old }
    requires started { is_started (seen_of pass.old) ear.old.child ≡ true }
    ensures pass { IsPassOf hall.now pass.new × (pass.new.number ≡ pass.old.number) }
    ensures moved { EarMoved pass.old.number false (seen_of pass.old) (seen_of pass.new) ear.old ear.new }
    ensures same { IsSameEar ear.old ear.new }
    ensures over { Says hall.now.fixed pass.old.number (seen_of pass.new) (Listen ear.old.child) Over }
{
    let mut door = HallDoor { rt, hall, pass };
    ear.run(&mut door);
}

/// A mouth's whole run.
pub fn run_mouth<I: Sink, R: Wait>(
    rt: &R,
    hall: &Hall<Core>,
    pass: &mut Pass<Core>,
    mouth: &mut Mouth<I>,
)
    requires pass { IsPassOf hall.now pass.old }
    requires started { is_started (seen_of pass.old) mouth.old.child ≡ true }
    ensures pass { IsPassOf hall.now pass.new × (pass.new.number ≡ pass.old.number) }
    ensures moved { MouthMoved pass.old.number false (seen_of pass.old) (seen_of pass.new) mouth.old mouth.new }
    ensures same { IsSameMouth mouth.old mouth.new }
    ensures over { Says hall.now.fixed pass.old.number (seen_of pass.new) (Fetch mouth.old.child) Over }
{
    let mut door = HallDoor { rt, hall, pass };
    mouth.run(&mut door);
}
