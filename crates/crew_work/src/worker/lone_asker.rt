// The asker of one task that has its child's link for itself.
ghost use Rattle.std.specs.Prelude.{◌≡◌, ◌∷◌, [], true};
ghost use Rattle.host_talk.specs.Request.Requests.{message_of, name_of};
ghost use Rattle.crew_work.specs.Worker.Servings.{is_said_in_text, names_text};

use crate::worker::links::ask_by_link;
use crate::worker::notes;
use ann_key::NoMemory;
use ann_outside::{Sink, Source};
use child_link::{Door, Lone};
use host_talk::request::Request;
use journal_model::Verdict;
use std::alloc::Global;
use task_model::Asker;
use task_text::chunk_log::Layouts;

// The name of the request's file, if it has one, or the new name that it gives. It is text, as what the core may ask is.
fn file_of(request: &Request) -> Option<&str>
    ensures { names_text (message_of request.now) ≡ true }
{
    match request {
        Request::Transfer { file, .. } => Some(file.view()),
        Request::TransferExport { file, .. } => Some(file.view()),
        Request::RenameExport { onto, .. } => Some(onto.view()),
        _ => None,
    }
}

// The name that is said before the request, if one is. It is text.
fn name_before(request: &Request) -> Option<&str>
    ensures { is_said_in_text (name_of request.now) ≡ true }
{
    match request.name() {
        Some(name) => Some(name.view()),
        None => None,
    }
}

/// Asks for one task over a link to its child.
#[derive(Drop)]
pub struct LoneAsker<'l, 'd, I: Sink, O: Source, D: Door> {
    pub link: &'l mut Lone<I, O>,
    pub door: &'d mut D,
    pub task: u32,
}

impl<'l, 'd, I: Sink, O: Source, D: Door> Asker for LoneAsker<'l, 'd, I, O, D> {
    ghost use Rattle.journal_model.specs.Legality.{may_note as can_note, task_of};
    ghost use Rattle.task_model.specs.Askings.{askings};
    ghost use Rattle.crew_work.specs.Worker.AtTasks.{notings};
    ghost use Rattle.crew_work.specs.Worker.KnownLayouts.{known_layouts};
    ghost use Rattle.crew_work.specs.Worker.Servings.{Serves, AskerGoes};
    ghost use Rattle.crew_work.specs.Worker.ServingLaws.{goes_still, goes_ready, goes_behind};

    ghost told = { λ s. record {
      pairs = askings (D.view s.door.now).seen s.task;
      notes = notings (D.view s.door.now).seen s.task;
      task = s.task;
      may_note = can_note (task_of (D.view s.door.now).opening s.task);
      current = known_layouts (D.view s.door.now).opening (D.view s.door.now).seen s.task;
      loans = s.link.ghost_name ∷ s.door.ghost_name ∷ (D.view s.door.now).loans;
    } };

    ghost ready = { λ s. Serves (D.view s.door.now).opening (D.view s.door.now).number (D.view s.door.now).alone s.link.now.ear.child s.task (D.view s.door.now).seen };

    ghost goes_on = { λ a b. AskerGoes (D.view a.door.now) (D.view b.door.now) a.link.now.ear b.link.now.ear a.link.now.mouth b.link.now.mouth a.task b.task };

    ghost stays = { λ a h. goes_still (D.view a.door.now) a.link.now.ear a.link.now.mouth a.task h };

    ghost is_ready = { λ a b s. goes_ready (D.view a.door.now) (D.view b.door.now) a.link.now.ear b.link.now.ear a.link.now.mouth b.link.now.mouth a.task b.task s };

    ghost goes_both = { λ a b d s r. goes_behind (D.view a.door.now) (D.view b.door.now) a.link.now.ear b.link.now.ear a.link.now.mouth b.link.now.mouth a.task b.task
        (D.view d.door.now) d.link.now.ear d.link.now.mouth d.task s r };

    fn ask(&mut self, alloc: Global, number: u32, request: &Request) -> Result<Verdict, NoMemory> {
        let _file = file_of(request);
        let _name = name_before(request);
        ask_by_link(self.link, self.door, number, request)
    }

    fn layouts(&mut self, alloc: Global, number: u32) -> Result<Layouts, NoMemory> {
        notes::layouts(self.door, alloc, number)
    }

    fn note(&mut self, number: u32, chunk: u64, count: u64) -> Result<(), NoMemory> {
        notes::note(self.door, number, chunk, count)
    }
}
