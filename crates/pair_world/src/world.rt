ghost use Rattle.std.specs.Prelude.{◌≡◌, ◌+◌, ◌++◌, ◌<◌, ◌^◌, ◌||◌, not, [], true, false, length, option_copied, MatchOption, IfOk, OnOk, slice_get, None, Some};
ghost use Rattle.journal_model.specs.Beginnings.{MayBegin};
ghost use Rattle.pair_kit.specs.Shelves.{content, items_of};
ghost use Rattle.pair_kit.specs.Pairs.{is_child, pair_of};
ghost use Rattle.pair_world.specs.Standing.{Stands};
ghost use Rattle.pair_kit.specs.Stored.{ChangesFiles};
ghost use Rattle.pair_kit.specs.Worlds.{AreLinked};
ghost use Rattle.pair_world.specs.Moves.{Moves, is_barred, is_silent, is_long, is_gone, heard_event, left_at};
ghost use Rattle.pair_kit.specs.Works.{answered};
ghost use Rattle.pair_world.specs.declared.step.Move.TheVariants.{Event as EventMove, Write, ToKit, Work as WorkMove, ToHost, Hear, End};

use crate::step::{Move, Moved};
use ann_key::{Bytes, NoMemory, Text};
use host_core::{Core, Event, Opening, Reply, Why};
use journal_look::{first_unsent, is_ended, is_started};
use pair_kit::{Answer, Pair, Shelf, Work};
use std::alloc::Global;
use std::marker::Model;

// The longest line of a child that the host takes, in bytes.
const LONGEST_LINE: usize = 65_536;

/// A core whose children are kits in memory, with the keys and the files that all kits share.
///
/// Contracts see the core's opening and journal and whether it is shut, the keys and the files with their bytes, each child with
/// what its kit took and what is on its way, and the answers.
#[derive(Drop)]
pub struct World {
    alloc: Global,
    core: Core,
    keys: Shelf,
    files: Shelf,
    pairs: Vec<Pair>,
    answers: Vec<Answer>,
}

impl Model for World {
    ghost use Rattle.pair_kit.specs.Worlds.{WorldValue};

    ghost Value = { WorldValue };

    ghost view = { λ w. record { opening = w.core.opening; journal = w.core.journal; shut = w.core.shut; keys = w.keys; files = w.files; pairs = w.pairs.items; answers = w.answers.items } };
}

// Where the child of that number stands, if there is one.
fn place(pairs: &[Pair], child: u32) -> Option<usize>
    ensures { MatchOption result (is_child pairs.now child ≡ false) (λ at. (is_child pairs.now child ≡ true) × (at + 1 ≡ child) × (at < length pairs.now)) }
{
    if child == 0 || child as usize > pairs.len() {
        return None;
    }
    Some(child as usize - 1)
}

// Events that other moves bring, or none.
fn is_barred(event: &Event) -> bool
    ensures { result ≡ is_barred event.now }
{
    match event {
        Event::Got { .. } | Event::Sent { .. } | Event::Mute { .. } => true,
        Event::Stop { child: _, why } => !matches!(why, Why::Closed),
        _ => false,
    }
}

// What is heard of the child, where something is: the end of one whose line is too long, or its first line.
fn heard(alloc: Global, pair: &Pair, child: u32) -> Result<Option<Event>, NoMemory>
    ensures { IfOk result (λ event. MatchOption event (is_silent pair.now.at_host ≡ true) (λ e. (is_silent pair.now.at_host ≡ false) × (e ≡ heard_event child pair.now.at_host))) }
{
    let long = Event::Stop {
        child,
        why: Why::LongLine,
    };
    match pair.line() {
        Some(line) if line.len() > LONGEST_LINE => Ok(Some(long)),
        Some(line) => Ok(Some(Event::Got {
            child,
            line: Bytes::copy(alloc, line)?,
        })),
        None if pair.waiting() > LONGEST_LINE => Ok(Some(long)),
        None => Ok(None),
    }
}

// Whether the line that was heard is gone from the host's side.
fn is_used_up(pair: &Pair, reply: &Reply) -> bool
    requires { is_silent pair.now.at_host ≡ false }
    ensures { result ≡ not (is_long pair.now.at_host || is_gone reply.now) }
{
    match pair.line() {
        Some(line) => line.len() <= LONGEST_LINE && !matches!(reply, Reply::Gone { .. }),
        None => false,
    }
}

// What was heard goes from the host's side, unless the child was gone.
fn settle(pair: &mut Pair, reply: &Reply)
    requires { is_silent pair.old.at_host ≡ false }
    ensures { pair.new ≡ record pair.old { at_host = left_at reply.now pair.old.at_host } }
{
    if is_used_up(pair, reply) {
        pair.drop_line();
    }
}

// The answer of a kit is added, where it gave one.
fn keep_answer(
    alloc: Global,
    answers: &mut Vec<Answer>,
    child: u32,
    request: &[u8],
    line: Option<Bytes>,
    bytes: Bytes,
) -> Result<(), NoMemory>
    ensures { OnOk result (answers.new.items ≡ answers.old.items ++ answered child request.now line bytes) }
{
    if let Some(line) = line {
        let request = Bytes::copy(alloc, request)?;
        answers.push(Answer {
            child,
            request,
            line,
            bytes,
        })?;
    }
    Ok(())
}

impl World {
    /// A world with no child, in which no key is stored, and these are the files. The last of a name counts.
    pub fn new(
        alloc: Global,
        opening: Opening,
        files: Vec<(Text, Bytes)>,
    ) -> Result<World, NoMemory>
        requires { MayBegin opening }
        ensures begun { IfOk result (λ world. world ≡ record { opening = opening; journal = []; shut = false; keys = []; files = items_of files.items; pairs = []; answers = [] }) }
        ensures stands { IfOk result Stands }
    {
        let _kept = opening.registers.wanted();
        let files = Shelf::of_files(alloc, files)?;
        let core = Core::new(alloc, opening)?;
        Ok(World {
            alloc,
            core,
            keys: Shelf::new(alloc),
            files,
            pairs: Vec::new(alloc),
            answers: Vec::new(alloc),
        })
    }

    fn event(&mut self, by: u32, event: Event) -> Result<Moved, NoMemory>
        requires { AreLinked self.old }
        ensures moves { IfOk result (λ moved. Moves self.old (EventMove by event) moved self.new) }
        ensures few { OnOk result (length self.new.journal < 2 ^ 64) }
    {
        if is_barred(&event) {
            return Ok(Moved::Not);
        }
        let reply = self.core.step(by, event)?;
        match reply {
            Reply::Odd => Ok(Moved::Not),
            Reply::Child(number) => {
                self.pairs.push(Pair::new(self.alloc)?)?;
                Ok(Moved::Did(Reply::Child(number)))
            }
            reply => Ok(Moved::Did(reply)),
        }
    }

    fn write(&mut self, child: u32) -> Result<Moved, NoMemory>
        requires { AreLinked self.old }
        ensures moves { IfOk result (λ moved. Moves self.old (Write child) moved self.new) }
        ensures few { OnOk result (length self.new.journal < 2 ^ 64) }
    {
        let Some(at) = place(self.pairs.as_slice(), child) else {
            return Ok(Moved::Not);
        };
        if is_ended(self.core.journal(), child) {
            return Ok(Moved::Not);
        }
        let Some(line) = first_unsent(self.core.journal(), child) else {
            return Ok(Moved::Not);
        };
        let pair = &mut self.pairs[at];
        pair.write(line)?;
        let reply = self.core.step(0, Event::Sent { child })?;
        Ok(Moved::Did(reply))
    }

    fn to_kit(&mut self, child: u32, n: u32) -> Result<Moved, NoMemory>
        requires { AreLinked self.old }
        ensures moves { IfOk result (λ moved. Moves self.old (ToKit child n) moved self.new) }
        ensures few { OnOk result (length self.new.journal < 2 ^ 64) }
    {
        let Some(at) = place(self.pairs.as_slice(), child) else {
            return Ok(Moved::Not);
        };
        let pair = &mut self.pairs[at];
        let n = n as usize;
        if n == 0 || n > pair.on_the_way().0 {
            return Ok(Moved::Not);
        }
        pair.move_to_kit(n)?;
        Ok(Moved::Did(Reply::Done))
    }

    fn to_host(&mut self, child: u32, n: u32) -> Result<Moved, NoMemory>
        requires { AreLinked self.old }
        ensures moves { IfOk result (λ moved. Moves self.old (ToHost child n) moved self.new) }
        ensures few { OnOk result (length self.new.journal < 2 ^ 64) }
    {
        let Some(at) = place(self.pairs.as_slice(), child) else {
            return Ok(Moved::Not);
        };
        let pair = &mut self.pairs[at];
        let n = n as usize;
        if n == 0 || n > pair.on_the_way().1 {
            return Ok(Moved::Not);
        }
        pair.move_to_host(n)?;
        Ok(Moved::Did(Reply::Done))
    }

    fn work(&mut self, child: u32) -> Result<Moved, NoMemory>
        requires { AreLinked self.old }
        ensures moves { IfOk result (λ moved. Moves self.old (WorkMove child) moved self.new) }
        ensures few { OnOk result (length self.new.journal < 2 ^ 64) }
    {
        let Some(at) = place(self.pairs.as_slice(), child) else {
            return Ok(Moved::Not);
        };
        let pair = &mut self.pairs[at];
        match pair.work(&mut self.keys, &mut self.files)? {
            Work::Nothing => Ok(Moved::Not),
            Work::Over => Ok(Moved::Did(Reply::Done)),
            Work::Line { answer, bytes } => {
                let answers = &mut self.answers;
                keep_answer(self.alloc, answers, child, pair.request(), answer, bytes)?;
                Ok(Moved::Did(Reply::Done))
            }
        }
    }

    fn hear(&mut self, child: u32) -> Result<Moved, NoMemory>
        requires { AreLinked self.old }
        ensures moves { IfOk result (λ moved. Moves self.old (Hear child) moved self.new) }
        ensures few { OnOk result (length self.new.journal < 2 ^ 64) }
    {
        let Some(at) = place(self.pairs.as_slice(), child) else {
            return Ok(Moved::Not);
        };
        if is_ended(self.core.journal(), child) {
            return Ok(Moved::Not);
        }
        let pair = &mut self.pairs[at];
        let Some(event) = heard(self.alloc, pair, child)? else {
            return Ok(Moved::Not);
        };
        let reply = self.core.step(0, event)?;
        settle(pair, &reply);
        Ok(Moved::Did(reply))
    }

    fn end(&mut self, child: u32) -> Result<Moved, NoMemory>
        requires { AreLinked self.old }
        ensures moves { IfOk result (λ moved. Moves self.old (End child) moved self.new) }
        ensures few { OnOk result (length self.new.journal < 2 ^ 64) }
    {
        let Some(at) = place(self.pairs.as_slice(), child) else {
            return Ok(Moved::Not);
        };
        let journal = self.core.journal();
        if !is_started(journal, child) || is_ended(journal, child) {
            return Ok(Moved::Not);
        }
        let pair = &self.pairs[at];
        if pair.on_the_way().1 > 0 || pair.line().is_some() {
            return Ok(Moved::Not);
        }
        let why = Why::Eof;
        let reply = self.core.step(0, Event::Stop { child, why })?;
        Ok(Moved::Did(reply))
    }

    fn make(&mut self, step: Move) -> Result<Moved, NoMemory>
        requires { AreLinked self.old }
        ensures moves { IfOk result (λ moved. Moves self.old step moved self.new) }
        ensures few { OnOk result (length self.new.journal < 2 ^ 64) }
    {
        match step {
            Move::Event { by, event } => self.event(by, event),
            Move::Write { child } => self.write(child),
            Move::ToKit { child, n } => self.to_kit(child, n),
            Move::Work { child } => self.work(child),
            Move::ToHost { child, n } => self.to_host(child, n),
            Move::Hear { child } => self.hear(child),
            Move::End { child } => self.end(child),
        }
    }

    /// Makes the move, where it can be made. After `NoMemory` the world isn't used again.
    pub fn step(&mut self, step: Move) -> Result<Moved, NoMemory>
        requires { Stands self.old }
        ensures moves { IfOk result (λ moved. Moves self.old step moved self.new) }
        ensures stands { OnOk result (Stands self.new) }
        ensures files { OnOk result (ChangesFiles self.old self.new) }
    {
        self.make(step)
    }

    /// The core. It takes no memory.
    pub fn core(&self) -> &Core
        ensures opening { result.now.opening ≡ self.now.opening }
        ensures journal { result.now.journal ≡ self.now.journal }
    {
        &self.core
    }

    /// The core, when the world is no longer needed. It takes no memory.
    pub fn close(self) -> Core
        ensures opening { result.opening ≡ self.opening }
        ensures journal { result.journal ≡ self.journal }
    {
        let World {
            alloc: _,
            core,
            keys: _,
            files: _,
            pairs: _,
            answers: _,
        } = self;
        core
    }

    /// The bytes that are stored under the key, if it is. It takes no memory.
    pub fn stored(&self, key: &[u8]) -> Option<&[u8]>
        ensures { option_copied result ≡ content key.now self.now.keys }
    {
        self.keys.find(key)
    }

    /// The bytes in the file of that name, if there is one. It takes no memory.
    pub fn file(&self, name: &str) -> Option<&[u8]>
        ensures { option_copied result ≡ content name.now self.now.files }
    {
        self.files.find(name.as_bytes())
    }

    /// How many bytes are on their way to the child's kit, and to the host. It takes no memory.
    pub fn on_the_way(&self, child: u32) -> (usize, usize)
        ensures to_kit { result.0 ≡ length (pair_of self.now.pairs child).to_kit }
        ensures to_host { result.1 ≡ length (pair_of self.now.pairs child).to_host }
    {
        match place(self.pairs.as_slice(), child) {
            Some(at) => self.pairs[at].on_the_way(),
            None => (0, 0),
        }
    }

    /// The answer of that number, from 0: the child, the line of its request, the last line that its kit said to it, and the bytes
    /// that the call after it put under a key or in a file. None exactly where there is none. It takes no memory.
    pub fn answer(&self, n: usize) -> Option<(u32, &[u8], &[u8], &[u8])>
        ensures { MatchOption result (slice_get self.now.answers n ≡ None) (λ a. slice_get self.now.answers n ≡ Some (record { child = a.0; request = a.1.now; line = a.2.now; bytes = a.3.now })) }
    {
        match self.answers.get(n) {
            Some(answer) => Some((
                answer.child,
                answer.request.view(),
                answer.line.view(),
                answer.bytes.view(),
            )),
            None => None,
        }
    }
}
