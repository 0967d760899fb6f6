// A worker by a pass of the core's hall.
ghost use Rattle.std.specs.Prelude.{◌≡◌, false};
ghost use Rattle.annex_model.specs.Lines.{has_newline};
ghost use Rattle.crew_work.specs.Laws.Tasks.{IsThrough};
ghost use Rattle.threads.specs.Passes.{IsPassOf, seen_of};
ghost use Rattle.crew_work.specs.Worker.Works.{AreTasks, CanServe, Worked};

use crate::beside::turns::work;
use crate::worker::Way;
use ann_outside::Desk;
use child_link::hall::HallDoor;
use host_core::Core;
use std::alloc::Global;
use std::sync::Wait;
use task_model::Setup;
use task_text::Task;
use threads::{Hall, Pass};

/// What the workers of a round have in common.
#[derive(Drop)]
pub struct Site<'a, R: Wait> {
    pub rt: &'a R,
    pub alloc: Global,
    pub hall: &'a Hall<Core>,
    pub tasks: &'a [Task],
    pub setup: &'a Setup,
}

/// A worker's whole run.
pub fn run_worker<W: Way, K: Desk, R: Wait>(
    site: &Site<'_, R>,
    pass: &mut Pass<Core>,
    way: &mut W,
    desk: &mut K,
)
    requires pass { IsPassOf site.now.hall.now pass.old }
    requires tasks { (site.now.hall.now.fixed.tasks ≡ site.now.tasks.now) × AreTasks site.now.tasks.now }
    requires folder { has_newline site.now.setup.now.work ≡ false }
    requires can { CanServe site.now.hall.now.fixed (W.serves way.old) (seen_of pass.old) }
    ensures pass { IsPassOf site.now.hall.now pass.new × (pass.new.number ≡ pass.old.number) }
    ensures worked { Worked site.now.hall.now.fixed site.now.setup.now (W.owns way.old) pass.old.number false (W.serves way.old) (seen_of pass.old) (seen_of pass.new)
        (W.wired way.old (seen_of pass.old)) (W.wired way.new (seen_of pass.new)) (K.told desk.old) (K.told desk.new) }
    ensures through { IsThrough site.now.hall.now.fixed (seen_of pass.new) (W.serves way.old) }
    ensures way { (W.serves way.new ≡ W.serves way.old) × (W.owns way.new ≡ W.owns way.old) × W.same way.old way.new }
{
    let mut door = HallDoor {
        rt: site.rt,
        hall: site.hall,
        pass,
    };
    work(
        site.rt, site.alloc, site.tasks, site.setup, way, &mut door, desk,
    );
}
