// An asker to which all is done.
ghost use Rattle.std.specs.Prelude.{◌≡◌, ◌<◌, ℕ, List, [], ◌∷◌, ◌++◌, map, length, Bool, true, IfOk, OnErr, Ok, Err};
ghost use Rattle.annex_model.specs.Messages.{is_askable};
ghost use Rattle.annex_model.specs.Turns.{turn_of};
ghost use Rattle.journal_model.specs.Projection.{IsNamed};
ghost use Rattle.host_talk.specs.Request.Requests.{message_of, name_of};
ghost use Rattle.task_model.specs.Askers.{Asking, Noting, AskAdds, NoteAdds, IsSameTask, names_in_line, is_said_in_line, are_layouts};
ghost use Rattle.desk_tests.specs.Tasks.Scripts.{can_have, pair_of, note_of};

use ann_key::NoMemory;
use host_talk::request::Request;
use journal_model::Verdict;
use std::alloc::Global;
use task_model::Asker;
use task_text::chunk_log::Layouts;

/// An asker to which all is done that it asks, and that is told that nothing is there. It keeps what it was asked.
#[derive(Drop)]
pub struct DoneAsker {
    alloc: Global,
    task: u32,
    may_note: bool,
    layouts: Vec<(u64, u64)>,
    asked: Vec<(Request, Verdict)>,
    notes: Vec<(u64, u64, u64)>,
    ghost not_empty: { are_layouts layouts.items ≡ true },
}

fn chosen(request: &Request) -> Verdict
    ensures { can_have (message_of request.now) result ≡ true }
{
    match request {
        Request::Transfer { .. } | Request::TransferExport { .. } => Verdict::Done { at: 1 },
        Request::Remove { .. } | Request::RemoveExport { .. } => Verdict::Done { at: 1 },
        Request::RenameExport { .. } => Verdict::Done { at: 1 },
        Request::CheckPresent { .. } | Request::CheckExport { .. } => Verdict::Absent { at: 1 },
        _ => Verdict::Unsent,
    }
}

#[tactic(auto, using(crate::proofs::TasksLemmas::Scripting::is_named))]
fn verdict_of(request: &Request) -> Verdict
    ensures { IsNamed (message_of request.now) result }
{
    chosen(request)
}

impl DoneAsker {
    /// An asker of that task, for a key with these layouts, which wasn't asked anything.
    pub fn new(alloc: Global, task: u32, may_note: bool, layouts: Vec<(u64, u64)>) -> DoneAsker
        requires { are_layouts layouts.items ≡ true }
        ensures task { (⟦<DoneAsker as Asker>⟧.told result).task ≡ task }
        ensures may_note { (⟦<DoneAsker as Asker>⟧.told result).may_note ≡ may_note }
        ensures pairs { (⟦<DoneAsker as Asker>⟧.told result).pairs ≡ [] }
        ensures current { (⟦<DoneAsker as Asker>⟧.told result).current ≡ layouts.items }
    {
        DoneAsker {
            alloc,
            task,
            may_note,
            layouts,
            asked: Vec::new(alloc),
            notes: Vec::new(alloc),
        }
    }
}

impl Asker for DoneAsker {
    ghost told = { λ a. record { pairs = map pair_of a.asked.items; notes = map note_of a.notes.items; task = a.task; may_note = a.may_note; current = a.layouts.items; loans = [] } };

    ghost ready = { λ a. Unit {0} };

    ghost goes_on = { λ a b. Unit {0} };

    ghost stays = { λ a h. tt };

    ghost is_ready = { λ a b s. tt };

    ghost goes_both = { λ a b d s r. tt };

    fn ask(&mut self, alloc: Global, number: u32, request: &Request) -> Result<Verdict, NoMemory> {
        self.asked.reserve(1)?;
        let request = request.copy(alloc)?;
        let verdict = verdict_of(&request);
        self.asked.push_reserved((request, verdict));
        Ok(verdict)
    }

    fn layouts(&mut self, alloc: Global, number: u32) -> Result<Layouts, NoMemory> {
        let list = self.layouts.as_slice().to_vec(alloc)?;
        Ok(Layouts::new(list))
    }

    fn note(&mut self, number: u32, chunk: u64, count: u64) -> Result<(), NoMemory> {
        self.notes.push((chunk, count, self.asked.len() as u64))?;
        Ok(())
    }
}
