// A worker in a thread.
use ann_outside::Desk;
use crew_work::beside::{Site, run_worker};
use crew_work::worker::Way;
use host_core::Core;
use std::alloc::Global;
use std::sync::Wait;
use task_model::Setup;
use task_text::Task;
use threads::roles::Role;
use threads::{Hall, Pass};

/// A worker with its pass, its way to its child, and its desk.
#[derive(Drop)]
pub struct Worker<'a, W: Way, K: Desk, R: Wait> {
    pub rt: &'a R,
    pub alloc: Global,
    pub hall: &'a Hall<Core>,
    pub tasks: &'a [Task],
    pub setup: &'a Setup,
    pub pass: Pass<Core>,
    pub way: W,
    pub desk: K,
}

impl<'a, W: Way, K: Desk, R: Wait> Role for Worker<'a, W, K, R> {
    ghost use Rattle.std.specs.Prelude.{◌≡◌};
    ghost use Rattle.threads.specs.Passes.{seen_of};
    ghost use Rattle.crew_rounds.specs.Tagged.Roles.{CanWork, WorkerRan};

    ghost can_run = { λ s. CanWork s.hall.now s.pass s.tasks.now s.setup.now (W.serves s.way) };

    ghost ran = { λ a b. WorkerRan a.hall.now a.setup.now a.pass b.pass (W.owns a.way) (W.serves a.way) (W.wired a.way (seen_of a.pass)) (W.wired b.way (seen_of b.pass))
        (K.told a.desk) (K.told b.desk) × (W.serves b.way ≡ W.serves a.way) × (W.owns b.way ≡ W.owns a.way) × W.same a.way b.way };

    fn run(self) -> Self {
        let Worker {
            rt,
            alloc,
            hall,
            tasks,
            setup,
            mut pass,
            mut way,
            mut desk,
        } = self;
        let site = Site {
            rt,
            alloc,
            hall,
            tasks,
            setup,
        };
        run_worker(&site, &mut pass, &mut way, &mut desk);
        Worker {
            rt,
            alloc,
            hall,
            tasks,
            setup,
            pass,
            way,
            desk,
        }
    }
}
