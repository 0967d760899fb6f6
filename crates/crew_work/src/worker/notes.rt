// Noting what chunks the remote has, and asking what was noted.
ghost use Rattle.std.specs.Prelude.{◌≡◌, ◌<◌, true, IfOk};
ghost use Rattle.host_core.specs.declared.event.Event.TheVariants.{Note};
ghost use Rattle.journal_model.specs.Legality.{may_note, task_of};
ghost use Rattle.task_model.specs.Askers.{are_layouts};
ghost use Rattle.child_link.specs.Doors.{IsSameDoor};
ghost use Rattle.child_link.specs.Asks.{Grows, never};
ghost use Rattle.crew_work.specs.Worker.AtTasks.{AtTask, NotedFor, SameTask};
ghost use Rattle.crew_work.specs.Worker.KnownLayouts.{IsBook, known_in, known_layouts};
ghost use Rattle.crew_work.specs.Worker.Noting.{is_done, by_noting};

use ann_key::NoMemory;
use child_link::Door;
use host_core::{Event, Reply};
use std::alloc::Global;
use task_text::chunk_log::Layouts;

fn is_done(reply: Reply) -> bool
    ensures { result ≡ is_done reply }
{
    match reply {
        Reply::Done => true,
        _ => false,
    }
}

/// Notes that the remote has so many chunks of that size of the task's content. The door's number holds the task, which stores
/// or drops.
pub fn note<D: Door>(door: &mut D, task: u32, chunk: u64, count: u64) -> Result<(), NoMemory>
    requires at { AtTask (D.view door.old).opening (D.view door.old).number task (D.view door.old).seen }
    requires may { may_note (task_of (D.view door.old).opening task) ≡ true }
    requires chunk { 0 < chunk }
    ensures noted { NotedFor (D.view door.old).opening (D.view door.old).number task (D.view door.old).seen (D.view door.new).seen chunk count result }
    ensures grows { Grows (D.view door.old).number (D.view door.old).alone (by_noting task) (D.view door.old).seen (D.view door.new).seen }
    ensures door { IsSameDoor (D.view door.old) (D.view door.new) }
{
    let reply = door.step(Event::Note { task, chunk, count })?;
    if is_done(reply) {
        Ok(())
    } else {
        unreachable!()
    }
}

// The layouts that a reply tells, or none.
fn layouts_in(alloc: Global, reply: Reply) -> Layouts
    ensures { result ≡ known_in reply }
{
    match reply {
        Reply::Layouts(layouts) => layouts,
        _ => Layouts::new(Vec::new(alloc)),
    }
}

/// The layouts in which the remote is known to have the task's key, by all notes so far. The door's number holds the task. None
/// of their chunks is empty, in a run that began with a book.
pub fn layouts<D: Door>(door: &mut D, alloc: Global, task: u32) -> Result<Layouts, NoMemory>
    requires at { AtTask (D.view door.old).opening (D.view door.old).number task (D.view door.old).seen }
    ensures known { IfOk result (λ layouts. layouts ≡ known_layouts (D.view door.old).opening (D.view door.old).seen task) }
    ensures sizes { IsBook (D.view door.old).opening.notes → are_layouts (known_layouts (D.view door.old).opening (D.view door.old).seen task) ≡ true }
    ensures stays { known_layouts (D.view door.old).opening (D.view door.new).seen task ≡ known_layouts (D.view door.old).opening (D.view door.old).seen task }
    ensures same { SameTask (D.view door.old).opening (D.view door.old).number task (D.view door.old).seen (D.view door.new).seen }
    ensures grows { Grows (D.view door.old).number (D.view door.old).alone never (D.view door.old).seen (D.view door.new).seen }
    ensures door { IsSameDoor (D.view door.old) (D.view door.new) }
{
    let reply = door.step(Event::Layouts { task })?;
    Ok(layouts_in(alloc, reply))
}
