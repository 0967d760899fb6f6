// The asker of one task over a child that other threads read and write.
ghost use Rattle.std.specs.Prelude.{◌≡◌, ◌∷◌, IfOk};
ghost use Rattle.journal_model.specs.Projection.{IsNamed};
ghost use Rattle.host_talk.specs.Request.Requests.{message_of, name_of};
ghost use Rattle.child_link.specs.Asks.{Grows};
ghost use Rattle.child_link.specs.Doors.{IsSameDoor};
ghost use Rattle.crew_work.specs.Worker.AtTasks.{AtTask, AskedFor};
ghost use Rattle.crew_work.specs.Worker.Servings.{by_jobs};

use crate::worker::{layouts, note};
use ann_key::NoMemory;
use child_link::Door;
use child_link::hall::ask_job;
use host_talk::request::Request;
use journal_model::Verdict;
use std::alloc::Global;
use std::sync::Wait;
use task_model::Asker;
use task_text::chunk_log::Layouts;

// Asks one request of a task that the door's number holds.
fn ask_for<D: Door, R: Wait>(
    rt: &R,
    alloc: Global,
    door: &mut D,
    child: u32,
    task: u32,
    request: &Request,
) -> Result<Verdict, NoMemory>
    requires { AtTask (D.view door.old).opening (D.view door.old).number task (D.view door.old).seen }
    ensures asked { AskedFor (D.view door.old).opening (D.view door.old).number task (D.view door.old).seen (D.view door.new).seen (name_of request.now) (message_of request.now) result }
    ensures named { IfOk result (IsNamed (message_of request.now)) }
    ensures grows { Grows (D.view door.old).number (D.view door.old).alone (by_jobs child task) (D.view door.old).seen (D.view door.new).seen }
    ensures door { IsSameDoor (D.view door.old) (D.view door.new) }
{
    ask_job(rt, alloc, door, child, task, request)
}

/// Asks for one task over a child that other threads read and write. It waits for each verdict.
#[derive(Drop)]
pub struct JobAsker<'r, 'd, R: Wait, D: Door> {
    pub rt: &'r R,
    pub child: u32,
    pub door: &'d mut D,
    pub task: u32,
}

impl<'r, 'd, R: Wait, D: Door> Asker for JobAsker<'r, 'd, R, D> {
    ghost use Rattle.journal_model.specs.Legality.{may_note as can_note, task_of};
    ghost use Rattle.task_model.specs.Askings.{askings};
    ghost use Rattle.crew_work.specs.Worker.AtTasks.{notings};
    ghost use Rattle.crew_work.specs.Worker.KnownLayouts.{known_layouts};
    ghost use Rattle.crew_work.specs.Beside.Jobs.{JobsGo, MayAsk};
    ghost use Rattle.crew_work.specs.Beside.JobLaws.{jobs_still, jobs_ready, jobs_behind};

    ghost told = { λ s. record {
      pairs = askings (D.view s.door.now).seen s.task;
      notes = notings (D.view s.door.now).seen s.task;
      task = s.task;
      may_note = can_note (task_of (D.view s.door.now).opening s.task);
      current = known_layouts (D.view s.door.now).opening (D.view s.door.now).seen s.task;
      loans = s.door.ghost_name ∷ (D.view s.door.now).loans;
    } };

    ghost ready = { λ s. MayAsk (D.view s.door.now).opening (D.view s.door.now).number s.task (D.view s.door.now).seen };

    ghost goes_on = { λ a b. JobsGo (D.view a.door.now) (D.view b.door.now) a.child b.child a.task b.task };

    ghost stays = { λ a h. jobs_still (D.view a.door.now) a.child a.task h };

    ghost is_ready = { λ a b s. jobs_ready (D.view a.door.now) (D.view b.door.now) a.child b.child a.task b.task s };

    ghost goes_both = { λ a b d s r. jobs_behind (D.view a.door.now) (D.view b.door.now) a.child b.child a.task b.task (D.view d.door.now) d.child d.task s r };

    fn ask(&mut self, alloc: Global, number: u32, request: &Request) -> Result<Verdict, NoMemory> {
        ask_for(self.rt, alloc, self.door, self.child, number, request)
    }

    fn layouts(&mut self, alloc: Global, number: u32) -> Result<Layouts, NoMemory> {
        layouts(self.door, alloc, number)
    }

    fn note(&mut self, number: u32, chunk: u64, count: u64) -> Result<(), NoMemory> {
        note(self.door, number, chunk, count)
    }
}
