ghost use Rattle.std.specs.Prelude.{◌≡◌, ◌<◌, ◌≤◌, ◌+◌, ◌*◌, ◌^◌, ◌++◌, [], length, true, false, All, List, IfOk, IsOk, IsTrue, OnOk, OnErr};
ghost use Rattle.std.specs.List.{cons_option};
ghost use Rattle.task_text.specs.ChunkLog.NoteBooks.{in_order};
ghost use Rattle.journal_model.specs.Beginnings.{MayBegin};
ghost use Rattle.journal_model.specs.declared.entry.Entry.{Entry};
ghost use Rattle.journal_model.specs.declared.opening.Opening.{Opening};
ghost use Rattle.journal_model.specs.Journal.{is_tagged};
ghost use Rattle.journal_model.specs.Legality.{Legal};
ghost use Rattle.journal_model.specs.Limits.{most_again, most_tasks};
ghost use Rattle.journal_model.specs.Notes.{with_notes};
ghost use Rattle.journal_model.specs.Replies.{set_by_all};
ghost use Rattle.host_core.specs.Books.{IsSized, noted_in, notes_after};
ghost use Rattle.host_core.specs.Mays.{IsMadeBy};
ghost use Rattle.host_core.specs.Moves.{group_bytes, group_made, group_room};
ghost use Rattle.host_core.specs.Queued.{IsNextIn, IsTurnedIn};
ghost use Rattle.host_core.specs.Runs.{AreRuns, IsCounted, runs_after};
ghost use Rattle.host_core.specs.Steps.{step_of, takes_no_memory, is_free, unclaimed, told, shut_by};
ghost use Rattle.host_core.specs.Settings.{IsLine, registers_after, set_in};
ghost use Rattle.task_queue.specs.Queues.{HasRoom, IsOrdered, IsQueued};

use crate::due::Due;
use crate::event::{Event, Reply};
use crate::moves::Move;
use crate::runs::{self, Run};
use crate::serving::Past;
use crate::waits::{Turn, Waits};
use crate::{group, keeping, moves, queued};
use ann_key::NoMemory;
use journal_look::{Journal, is_tagged, unclaimed};
use journal_model::{Opening, What};
use registers::Registers;
use std::alloc::Global;
use std::marker::Model;
use task_queue::Queue;
use task_text::chunk_log::NoteBook;

/// The core of a run: what it began with, the journal so far, which is legal, and the registers and the notes after it; and
/// whether it is shut. It keeps room for all that can come of the entries so far.
#[derive(Drop)]
pub struct Core {
    alloc: Global,
    opening: Opening,
    journal: Journal,
    registers: Registers,
    notes: NoteBook,
    // of each task, by its number
    runs: Vec<Run>,
    queue: Queue,
    shut: bool,
    // whom the last event concerns
    waits: Waits,
}

impl Model for Core {
    ghost use Rattle.std.specs.Prelude.{◌≤◌, ◌<◌, ◌^◌};
    ghost use Rattle.journal_model.specs.Room.{room_of};
    ghost use Rattle.journal_model.specs.Legality.{Legal};
    ghost use Rattle.journal_model.specs.Beginnings.{MayBegin};
    ghost use Rattle.host_core.specs.Runs.{AreRuns};
    ghost use Rattle.host_core.specs.Books.{IsNoted};
    ghost use Rattle.host_core.specs.CoreValue.{CoreValue};
    ghost use Rattle.host_core.specs.Settings.{IsServed};
    ghost use Rattle.task_queue.specs.Queues.{IsQueued};

    ghost Value = { CoreValue };

    ghost view = { λ c. record { opening = c.opening; journal = c.journal.entries; registers = c.registers; notes = c.notes; shut = c.shut } };

    ghost invariant = { λ c.
        Legal c.opening c.journal.entries
        × MayBegin c.opening
        × (room_of c.opening c.journal.entries ≤ c.journal.room)
        × (c.journal.room < 2 ^ 64)
        × IsServed c.opening c.journal.entries c.registers
        × IsNoted c.opening c.journal.entries c.notes
        × AreRuns c.opening c.journal.entries c.runs.items
        × IsQueued c.opening c.journal.entries c.queue };
}

impl Core {
    /// A core with an empty journal.
    pub fn new(alloc: Global, opening: Opening) -> Result<Core, NoMemory>
        requires { MayBegin opening }
        ensures opening { IfOk result (λ c. c.opening ≡ opening) }
        ensures empty { IfOk result (λ c. c.journal ≡ []) }
        ensures shut { IfOk result (λ c. c.shut ≡ false) }
    {
        match begin(alloc, &opening) {
            Ok(begun) => Ok(Core::of(alloc, opening, begun)),
            Err(error) => {
                drop(opening);
                Err(error)
            }
        }
    }

    fn of(alloc: Global, opening: Opening, begun: Begun) -> Core
        requires begins { MayBegin opening }
        requires journal { (begun.journal.entries ≡ []) × (begun.journal.room ≡ 2 * ((1 + opening.again) * length opening.tasks)) }
        requires registers { begun.registers ≡ opening.registers }
        requires notes { begun.notes ≡ opening.notes }
        requires runs { AreRuns opening [] begun.runs.items }
        requires queue { IsQueued opening [] begun.queue }
        ensures opening { result.opening ≡ opening }
        ensures empty { result.journal ≡ [] }
        ensures shut { result.shut ≡ false }
    {
        let _kept = opening.registers.wanted();
        let _in_order = opening.notes.line(0);
        Core {
            alloc,
            opening,
            journal: begun.journal,
            registers: begun.registers,
            notes: begun.notes,
            runs: begun.runs,
            queue: begun.queue,
            shut: false,
            waits: Waits::none(),
        }
    }

    /// One event, told by that number. Memory is taken in an order that leaves nothing to undo: the replies, then room, then what is
    /// set or noted. So after running out of memory the core is as before.
    pub fn step(&mut self, by: u32, event: Event) -> Result<Reply, NoMemory>
        ensures reply { IfOk result (λ reply. reply ≡ told self.old.journal self.old.shut event (step_of self.old.opening self.old.journal by event).reply) }
        ensures journal { OnOk result (self.new.journal ≡ self.old.journal ++ (step_of self.old.opening self.old.journal by event).group) }
        ensures made { OnOk result (All (IsMadeBy by) (step_of self.old.opening self.old.journal by event).group) }
        ensures shut { OnOk result (self.new.shut ≡ shut_by by event self.old.shut) }
        ensures opening { self.new.opening ≡ self.old.opening }
        ensures legal { Legal self.new.opening self.new.journal }
        ensures registers { self.new.registers ≡ registers_after self.new.opening self.new.journal }
        ensures notes { self.new.notes ≡ notes_after self.new.opening self.new.journal }
        ensures few { length self.new.journal < 2 ^ 64 }
        ensures free { is_free (step_of self.old.opening self.old.journal by event) ≡ true → IsOk result }
        ensures free_event { takes_no_memory event ≡ true → IsOk result }
        ensures err { OnErr result (self.new ≡ self.old) }
    {
        let waits = moves::is_waiting(&event);
        let over = moves::shut_for(&self.journal, &event, self.shut);
        let shut = moves::shut_by(by, &event, self.shut);
        let free = queued::free_task(&mut self.queue, &self.opening, &event);
        let past = Past {
            opening: &self.opening,
            journal: &self.journal,
            registers: &self.registers,
            notes: &self.notes,
            runs: self.runs.as_slice(),
            free,
        };
        let step = moves::move_of(self.alloc, past, by, event)?;
        match take_memory(
            self.alloc,
            &mut self.journal,
            &mut self.registers,
            &mut self.notes,
            &self.opening,
            &step,
        ) {
            Ok(()) => {}
            Err(error) => {
                drop(step);
                return Err(error);
            }
        }
        enter(
            &mut self.journal,
            &mut self.runs,
            &mut self.queue,
            by,
            step.what,
            step.due,
        );
        let reply = moves::told(waits, over, step.reply);
        self.shut = shut;
        Ok(reply)
    }

    /// Notes whom the event of that turn concerned, and whether its number waits. It takes no memory.
    pub(super) fn heed(&mut self, turn: Turn, answer: &Result<Reply, NoMemory>)
        ensures { self.new ≡ self.old }
    {
        if let Ok(reply) = answer {
            self.waits
                .heed(&self.opening, &self.journal, self.shut, turn, reply);
        }
    }

    /// The bells that the last heeded event rings.
    pub(super) fn bells(&self) -> u64 {
        self.waits.bells()
    }

    /// The journal so far. It takes no memory.
    pub fn journal(&self) -> &Journal
        ensures { result.now.entries ≡ self.now.journal }
    {
        &self.journal
    }

    /// The registers after the journal. It takes no memory.
    pub fn registers(&self) -> &Registers
        ensures value { result.now ≡ self.now.registers }
        ensures given { self.now.registers ≡ registers_after self.now.opening self.now.journal }
    {
        &self.registers
    }

    /// The lines of chunk logs that count after the journal. It takes no memory.
    pub fn notes(&self) -> &NoteBook
        ensures value { result.now ≡ self.now.notes }
        ensures given { self.now.notes ≡ notes_after self.now.opening self.now.journal }
        ensures order { IsTrue (in_order self.now.opening.notes) }
    {
        &self.notes
    }

    /// What the run began with.
    pub fn opening(&self) -> &Opening
        ensures { result.now ≡ self.now.opening }
    {
        &self.opening
    }

    /// Whether the lines of the child have tags, as the journal stands. It takes no memory.
    pub fn tagged(&self, child: u32) -> bool
        ensures { result ≡ is_tagged self.now.journal child }
    {
        is_tagged(&self.journal, child)
    }

    /// How many tasks are not claimed. It takes no memory.
    pub fn unclaimed(&self) -> u32
        ensures { result ≡ length (unclaimed self.now.opening self.now.journal) }
    {
        unclaimed(&self.opening, &self.journal)
    }

    /// The journal, the registers and the notes, when the run is over. It takes no memory.
    pub fn close(self) -> (Journal, Registers, NoteBook)
        ensures journal { result.0.entries ≡ self.journal }
        ensures registers { result.1 ≡ self.registers }
        ensures notes { result.2 ≡ self.notes }
    {
        let Core {
            opening,
            journal,
            registers,
            notes,
            queue,
            ..
        } = self;
        drop(opening);
        drop(queue);
        (journal, registers, notes)
    }
}

// What a core begins with, beside its opening.
#[derive(Drop)]
struct Begun {
    journal: Journal,
    registers: Registers,
    notes: NoteBook,
    runs: Vec<Run>,
    queue: Queue,
}

// A journal with room for what the runs of the tasks may come to.
fn first_journal(alloc: Global, opening: &Opening) -> Result<Journal, NoMemory>
    requires few { length opening.now.tasks ≤ most_tasks }
    requires again { opening.now.again ≤ most_again }
    ensures empty { IfOk result (λ journal. journal.entries ≡ []) }
    ensures room { IfOk result (λ journal. journal.room ≡ 2 * ((1 + opening.now.again) * length opening.now.tasks)) }
{
    let mut journal = Journal::new(alloc);
    let runs = 1 + opening.again as usize;
    match journal.take_room(2 * (runs * opening.tasks.view().len()), 0) {
        Ok(()) => Ok(journal),
        Err(error) => {
            drop(journal);
            Err(error)
        }
    }
}

// Copies of the opening's registers and notes.
fn first_books(opening: &Opening) -> Result<(Registers, NoteBook), NoMemory>
    ensures registers { IfOk result (λ b. b.0 ≡ opening.now.registers) }
    ensures notes { IfOk result (λ b. b.1 ≡ opening.now.notes) }
{
    let registers = opening.registers.copy()?;
    match opening.notes.copy() {
        Ok(notes) => Ok((registers, notes)),
        Err(error) => {
            drop(registers);
            Err(error)
        }
    }
}

// That journal, and these copies.
fn first_values(
    alloc: Global,
    opening: &Opening,
) -> Result<(Journal, Registers, NoteBook), NoMemory>
    requires few { length opening.now.tasks ≤ most_tasks }
    requires again { opening.now.again ≤ most_again }
    ensures journal { IfOk result (λ b. (b.0.entries ≡ []) × (b.0.room ≡ 2 * ((1 + opening.now.again) * length opening.now.tasks))) }
    ensures registers { IfOk result (λ b. b.1 ≡ opening.now.registers) }
    ensures notes { IfOk result (λ b. b.2 ≡ opening.now.notes) }
{
    let (registers, notes) = first_books(opening)?;
    match first_journal(alloc, opening) {
        Ok(journal) => Ok((journal, registers, notes)),
        Err(error) => {
            drop(registers);
            drop(notes);
            Err(error)
        }
    }
}

// What is kept of each task, and the queue of them.
fn first_tasks(alloc: Global, opening: &Opening) -> Result<(Vec<Run>, Queue), NoMemory>
    requires { length opening.now.tasks ≤ most_tasks }
    ensures runs { IfOk result (λ b. AreRuns opening.now [] b.0.items) }
    ensures queue { IfOk result (λ b. IsQueued opening.now [] b.1) }
{
    let runs = runs::first_runs(alloc, opening)?;
    let queue = Queue::new(alloc, opening)?;
    Ok((runs, queue))
}

fn begin(alloc: Global, opening: &Opening) -> Result<Begun, NoMemory>
    requires few { length opening.now.tasks ≤ most_tasks }
    requires again { opening.now.again ≤ most_again }
    ensures journal { IfOk result (λ b. (b.journal.entries ≡ []) × (b.journal.room ≡ 2 * ((1 + opening.now.again) * length opening.now.tasks))) }
    ensures registers { IfOk result (λ b. b.registers ≡ opening.now.registers) }
    ensures notes { IfOk result (λ b. b.notes ≡ opening.now.notes) }
    ensures runs { IfOk result (λ b. AreRuns opening.now [] b.runs.items) }
    ensures queue { IfOk result (λ b. IsQueued opening.now [] b.queue) }
{
    let (runs, queue) = first_tasks(alloc, opening)?;
    match first_values(alloc, opening) {
        Ok((journal, registers, notes)) => Ok(Begun {
            journal,
            registers,
            notes,
            runs,
            queue,
        }),
        Err(error) => {
            drop(queue);
            Err(error)
        }
    }
}

// Takes what memory the move takes: room for its group, and what it sets or notes. If memory runs out, only room has been taken.
fn take_memory(
    alloc: Global,
    journal: &mut Journal,
    registers: &mut Registers,
    notes: &mut NoteBook,
    opening: &Opening,
    step: &Move,
) -> Result<(), NoMemory>
    requires small { journal.old.room < 2 ^ 64 }
    requires begins { MayBegin opening.now }
    requires line { IsLine step.now.what }
    requires sized { IsSized step.now.what }
    ensures entries { journal.new.entries ≡ journal.old.entries }
    ensures small { journal.new.room < 2 ^ 64 }
    ensures room { OnOk result (journal.new.room ≡ journal.old.room + group_room step.now.what step.now.due) }
    ensures spare { OnOk result (group_bytes step.now.what step.now.due ≤ journal.new.spare) }
    ensures set { OnOk result (registers.new ≡ set_by_all registers.old (cons_option (set_in journal.old.entries step.now.what step.now.due) [])) }
    ensures noted { OnOk result (notes.new ≡ with_notes notes.old (cons_option (noted_in opening.now step.now.what) [])) }
    ensures kept { OnErr result (journal.old.room ≤ journal.new.room) }
    ensures registers { OnErr result (registers.new ≡ registers.old) }
    ensures notes { OnErr result (notes.new ≡ notes.old) }
    ensures free { group_room step.now.what step.now.due ≡ 0 → IsOk result }
{
    group::take_room(journal, &step.what, &step.due)?;
    keeping::keep_group(
        alloc, registers, notes, opening, journal, &step.what, &step.due,
    )
}

// Notes the group's first entry where runs and tasks are kept, and appends the group. It takes no memory.
fn enter(
    journal: &mut Journal,
    runs: &mut Vec<Run>,
    queue: &mut Queue,
    by: u32,
    what: Option<What>,
    due: Due,
)
    requires counted { IsCounted what runs.old.items }
    requires ordered { IsOrdered queue.old }
    requires held { HasRoom queue.old }
    requires next { IsNextIn what queue.old }
    requires room { length journal.old.entries + length (group_made journal.old.entries by what due) ≤ journal.old.room }
    requires spare { group_bytes what due ≤ journal.old.spare }
    ensures entries { journal.new.entries ≡ journal.old.entries ++ group_made journal.old.entries by what due }
    ensures room { journal.new.room ≡ journal.old.room }
    ensures runs { runs.new.items ≡ runs_after what runs.old.items }
    ensures queue { (o : Opening) (past after : List Entry) → IsTurnedIn past what after → IsQueued o past queue.old → IsQueued o after queue.new }
{
    runs::note(runs, &what);
    queued::note(queue, &what);
    group::push_group(journal, by, what, due);
}
