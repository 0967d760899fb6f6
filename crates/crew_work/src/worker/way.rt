// A worker's way to its child, and the way over a link of its own.
ghost use Rattle.std.specs.Prelude.{ℕ, ◌≡◌, Bool, true, false, Some, List, ◌++◌};
ghost use Rattle.annex_model.specs.Lines.{has_newline};
ghost use Rattle.task_text.specs.TaskLines.{IsTask};
ghost use Rattle.journal_model.specs.declared.entry.Entry.{Entry};
ghost use Rattle.journal_model.specs.Legality.{task_of};
ghost use Rattle.journal_model.specs.Journal.{any, is_started};
ghost use Rattle.journal_model.specs.Shares.{is_of_child};
ghost use Rattle.task_model.specs.Ran.{HasTaskCauses};
ghost use Rattle.child_link.specs.Doors.{IsSameDoor};
ghost use Rattle.child_link.specs.Moves.{IsSameLink};
ghost use Rattle.child_link.specs.Writings.{LoneWired};
ghost use Rattle.crew_work.specs.Worker.AtTasks.{AtTask};
ghost use Rattle.crew_work.specs.Worker.KnownLayouts.{IsBook};
ghost use Rattle.crew_work.specs.Worker.Servings.{HasTurn};
ghost use Rattle.crew_work.specs.Worker.Works.{MovedFor, RanAt};

use crate::worker::lone_asker::LoneAsker;
use ann_key::NoMemory;
use ann_outside::{Desk, Sink, Source};
use child_link::{Door, Lone};
use journal_model::Answer;
use std::alloc::Global;
use task_model::{Setup, TaskTurn};
use task_run::run_task;
use task_text::Task;

/// How a worker's tasks reach its child.
pub trait Way {
    ghost serves: { Self → ℕ };

    // it has the child for itself
    ghost owns: { Self → Bool };

    // what it holds of the child is as the journal says
    ghost wired: { Self → List Entry → Type 0 };

    // the second is what calls of its own made of the first
    ghost same: { Self → Self → Type 0 };

    /// The child's number.
    fn child(&self) -> u32
        ensures { result ≡ serves self.now };

    /// Runs this turn of a task that the door's number holds. Where nobody else steps the core, it is the child's turn.
    fn run<D: Door, K: Desk>(
        &mut self,
        alloc: Global,
        task: &Task,
        turn: TaskTurn,
        setup: &Setup,
        door: &mut D,
        desk: &mut K,
    ) -> Result<Answer, NoMemory>
        requires task { IsTask task.now }
        requires folder { has_newline setup.now.work ≡ false }
        requires named { task_of (D.view door.old).opening turn.task ≡ Some task.now }
        requires at { AtTask (D.view door.old).opening (D.view door.old).number turn.task (D.view door.old).seen }
        requires book { IsBook (D.view door.old).opening.notes }
        requires started { is_started (D.view door.old).seen (serves self.old) ≡ true }
        requires turn { (D.view door.old).alone ≡ true → (owns self.old ≡ true) × HasTurn (D.view door.old).seen (serves self.old) turn.task }
        ensures ran { RanAt task.now turn setup.now (D.view door.old) (D.view door.new) (K.told desk.old) (K.told desk.new) result }
        ensures causes { HasTaskCauses (K.told desk.old).counts (K.told desk.new).counts result }
        ensures at { AtTask (D.view door.old).opening (D.view door.old).number turn.task (D.view door.new).seen }
        ensures turn { (D.view door.old).alone ≡ true → HasTurn (D.view door.new).seen (serves self.old) turn.task }
        ensures moved { MovedFor (owns self.old) (serves self.old) turn.task (D.view door.old) (D.view door.new) (wired self.old) (wired self.new) }
        ensures child { (serves self.new ≡ serves self.old) × (owns self.new ≡ owns self.old) }
        ensures same { same self.old self.new }
        ensures door { IsSameDoor (D.view door.old) (D.view door.new) };

    // entries that aren't the child's leave it wired
    ghost apart: { (s : Self) (past more : List Entry) → any (is_of_child (serves s)) more ≡ false → wired s past → wired s (past ++ more) };

    ghost still: { (s : Self) → same s s };

    ghost both: { (a b d : Self) → same a b → same b d → same a d };
}

impl<I: Sink, O: Source> Way for Lone<I, O> {
    ghost use Rattle.std.proofs.Common.{refl};
    ghost use Rattle.crew_work.specs.Worker.WayLaws.{link_stays, links_both};

    ghost serves = { λ s. s.ear.child };

    ghost owns = { λ s. true };

    ghost wired = { λ s journal. LoneWired journal s.ear s.mouth };

    ghost same = { λ a b. IsSameLink a.ear b.ear a.mouth b.mouth };

    ghost apart = { λ s past more none w. link_stays past more s.ear s.mouth s.one_child none w };

    ghost still = { λ s. ((refl, refl), (refl, refl)) };

    ghost both = { λ a b d s r. links_both a.ear b.ear d.ear a.mouth b.mouth d.mouth s r };

    fn child(&self) -> u32 {
        self.ear.child()
    }

    fn run<D: Door, K: Desk>(
        &mut self,
        alloc: Global,
        task: &Task,
        turn: TaskTurn,
        setup: &Setup,
        door: &mut D,
        desk: &mut K,
    ) -> Result<Answer, NoMemory> {
        let mut asker = LoneAsker {
            link: self,
            door,
            task: turn.task,
        };
        run_task(alloc, task, turn.task, turn.turn, setup, &mut asker, desk)
    }
}
