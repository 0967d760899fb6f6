// The roles of a kit: they are made, run by the calling thread and in threads, and taken apart again.
ghost use Rattle.std.specs.Prelude.{◌≡◌, ◌≤◌, ◌<◌, ◌+◌, ◌^◌, ◌++◌, ℕ, List, [], ◌∷◌, true, All, IfSome, length, map, reverse, vec_len, vec_capacity};
ghost use Rattle.threads.specs.Roles.BackRole.{role_of};
ghost use Rattle.threads.specs.Roles.Dealing.{IsRoomFor};
ghost use Rattle.ann_key.specs.Pairs.{Pairwise};
ghost use Rattle.threads.specs.Passes.{IsPassOf};
ghost use Rattle.kit_async.specs.Work.Passes.{Stands};
ghost use Rattle.kit_async.specs.Work.Reading.{ear_of};
ghost use Rattle.kit_async.specs.Work.Writing.{mouth_of};
ghost use Rattle.kit_async.specs.Dealt.{AreFresh, ReaderBegins, WorkersBegin, WriterBegins};
ghost use Rattle.kit_async.specs.Endings.{AllWorked, ReaderDid, WriterDid};
ghost use Rattle.kit_async.specs.Turns.{ReaderCan, ReaderRuns, WorkerGoes, WriterCan, WriterRuns, hand_at};

use crate::alone::serve_alone;
use crate::dealt::{Site, deal, take_back};
use crate::roles::{Reader, Worker, Writer};
use crate::timed::Timed;
use crate::work::Why;
use ann_outside::{Sink, Source};
use kit_async_core::KitCore;
use kit_serve::LONGEST_LINE;
use kit_serve::kit::Remote;
use std::alloc::Global;
use std::marker::{Send, Sync};
use std::sync::Wait;
use std::thread::Threads;
use threads::Pass;
use threads::roles::{Back, Crew, Room, any_ran, run_whole_crew};
use wire_line::Splitter;

/// What a kit shares out among its roles.
#[derive(Drop)]
pub(crate) struct Kit<K: Drop, S, W> {
    pub(crate) passes: Vec<Pass<KitCore>>,
    pub(crate) remotes: Vec<K>,
    pub(crate) source: S,
    pub(crate) sink: W,
}

/// Why the reader and the writer ended by themselves, if they did.
#[derive(Clone, Copy)]
pub(crate) struct RoleEnds {
    pub(crate) read: Option<Why>,
    pub(crate) wrote: Option<Why>,
}

// Room for what comes back.
#[derive(Drop)]
struct Rest<K: Drop> {
    passes: Vec<Pass<KitCore>>,
    remotes: Vec<K>,
}

type Workers<'a, K, R> = Vec<Worker<'a, K, R>>;

type Roles<'a, K, S, W, R> = Crew<Reader<'a, S, R>, Writer<'a, W, R>, Worker<'a, K, R>>;

type Rooms<'a, K, R> = (Room<Worker<'a, K, R>>, Workers<'a, K, R>, Workers<'a, K, R>);

// Room for so many workers, and for what comes back of them.
fn rooms<'a, K: Remote + Drop, R: Wait>(alloc: Global, seats: usize) -> Option<Rooms<'a, K, R>>
    ensures { IfSome result (λ r. (r.0 ≡ seats) × IsRoomFor seats r.1 × IsRoomFor seats r.2) }
{
    let room = Room::new(alloc, seats)?;
    let workers = Vec::with_capacity(alloc, seats).ok()?;
    let backs = Vec::with_capacity(alloc, seats).ok()?;
    Some((room, workers, backs))
}

// Makes the roles.
fn cast<'a, K: Remote + Drop, S: Source, W: Sink, R: Wait>(
    site: &Site<'a, R>,
    kit: Kit<K, S, W>,
    workers: Workers<'a, K, R>,
) -> (Roles<'a, K, S, W, R>, Rest<K>)
    requires room { IsRoomFor (vec_len kit.remotes) workers × (vec_len kit.passes ≡ 2 + vec_len kit.remotes) × (vec_len kit.remotes < 2 ^ 32) }
    ensures passes { kit.passes.items ≡ result.0.ear.pass ∷ result.0.mouth.pass ∷ map (λ w. w.pass) (reverse result.0.workers.items) }
    ensures remotes { kit.remotes.items ≡ map (λ w. w.remote) (reverse result.0.workers.items) }
    ensures reader { ReaderBegins site.now.hall.now kit.source result.0.ear }
    ensures writer { WriterBegins site.now.hall.now kit.sink result.0.mouth }
    ensures workers { WorkersBegin site.now.hall.now result.0.workers.items }
    ensures rooms { IsRoomFor (2 + vec_len result.0.workers) result.1.passes × IsRoomFor (vec_len result.0.workers) result.1.remotes }
{
    let Kit {
        mut passes,
        mut remotes,
        source,
        sink,
    } = kit;
    let workers = deal(site, &mut passes, &mut remotes, workers);
    let (Some(second), Some(first)) = (passes.pop(), passes.pop()) else {
        unreachable!()
    };
    let ear = Reader {
        rt: site.rt,
        alloc: site.alloc,
        hall: site.hall,
        pass: first,
        source,
        splitter: Splitter::new(site.alloc, LONGEST_LINE),
        why: None,
    };
    let mouth = Writer {
        rt: site.rt,
        hall: site.hall,
        pass: second,
        sink,
        why: None,
    };
    let crew = Crew {
        ear,
        mouth,
        workers,
    };
    (crew, Rest { passes, remotes })
}

// The workers that came back, whether they ran or stayed, in room that was taken before.
fn workers_of<'a, K: Remote + Drop, R: Wait>(
    backs: Vec<Back<Worker<'a, K, R>>>,
    mut workers: Workers<'a, K, R>,
) -> Workers<'a, K, R>
    requires empty { workers.items ≡ [] }
    requires room { vec_len backs ≤ vec_capacity workers }
    ensures { result.items ≡ map role_of backs.entry.items }
{
    for back in backs {
        workers.push_reserved(back.role());
    }
    workers
}

// Where nobody ran, the calling thread takes all turns.
fn serve_unless<'a, K: Remote, S: Source, W: Sink, R: Wait>(
    ran: bool,
    reader: &mut Reader<'a, S, R>,
    writer: &mut Writer<'a, W, R>,
    workers: &mut [Worker<'a, K, R>],
)
    requires reader { ReaderCan S.told reader.old }
    requires writer { WriterCan W.told writer.old }
    requires workers { All (λ w. Stands w.hall.now (w.number + 3) w.pass) workers.old }
    ensures read { ReaderRuns S.told reader.old reader.new }
    ensures wrote { WriterRuns W.told writer.old writer.new }
    ensures workers { Pairwise (WorkerGoes K.Remote) workers.old workers.new }
{
    if !ran {
        serve_alone(reader, writer, workers, false);
    }
}

// Runs the roles, each in a thread of its own where all can have one; else the calling thread takes all their turns.
fn run_in_threads<
    'a,
    K: Remote + Send + Drop,
    S: Timed + Send + Drop,
    W: Sink + Send + Drop,
    R: Threads + Wait + Sync,
>(
    rt: &R,
    most: usize,
    room: Room<Worker<'a, K, R>>,
    backs: Workers<'a, K, R>,
    crew: Roles<'a, K, S, W, R>,
) -> Roles<'a, K, S, W, R>
    requires room { (vec_len crew.workers < 1000) × (vec_len crew.workers ≤ room) × IsRoomFor (vec_len crew.workers) backs }
    requires reader { ReaderCan S.told crew.ear }
    requires writer { WriterCan W.told crew.mouth }
    requires workers { All (λ w. Stands w.hall.now (w.number + 3) w.pass) crew.workers.items }
    ensures read { ReaderRuns S.told crew.entry.ear result.ear }
    ensures wrote { WriterRuns W.told crew.entry.mouth result.mouth }
    ensures worked { Pairwise (WorkerGoes K.Remote) crew.entry.workers.items result.workers.items }
{
    let Crew {
        ear,
        mouth,
        workers,
    } = run_whole_crew(rt, room, most, crew);
    let ran = ear.has_run() || mouth.has_run() || any_ran(&workers);
    let mut ear = ear.role();
    let mut mouth = mouth.role();
    let mut workers = workers_of(workers, backs);
    serve_unless(ran, &mut ear, &mut mouth, workers.as_mut_slice());
    Crew {
        ear,
        mouth,
        workers,
    }
}

// Runs the roles: by the calling thread alone, until one has to be worked on beside another.
fn run<
    'a,
    K: Remote + Send + Drop,
    S: Timed + Send + Drop,
    W: Sink + Send + Drop,
    R: Threads + Wait + Sync,
>(
    rt: &R,
    most: usize,
    room: Room<Worker<'a, K, R>>,
    backs: Workers<'a, K, R>,
    crew: Roles<'a, K, S, W, R>,
) -> Roles<'a, K, S, W, R>
    requires room { (vec_len crew.workers < 1000) × (vec_len crew.workers ≤ room) × IsRoomFor (vec_len crew.workers) backs }
    requires reader { ReaderCan S.told crew.ear }
    requires writer { WriterCan W.told crew.mouth }
    requires workers { All (λ w. Stands w.hall.now (w.number + 3) w.pass) crew.workers.items }
    ensures read { ReaderRuns S.told crew.entry.ear result.ear }
    ensures wrote { WriterRuns W.told crew.entry.mouth result.mouth }
    ensures worked { Pairwise (WorkerGoes K.Remote) crew.entry.workers.items result.workers.items }
{
    let Crew {
        mut ear,
        mut mouth,
        mut workers,
    } = crew;
    let wanted = serve_alone(&mut ear, &mut mouth, workers.as_mut_slice(), true);
    let crew = Crew {
        ear,
        mouth,
        workers,
    };
    if wanted {
        run_in_threads(rt, most, room, backs, crew)
    } else {
        crew
    }
}

// Takes the roles apart.
fn gather<'a, K: Remote + Drop, S: Source + Drop, W: Sink + Drop, R: Wait>(
    crew: Roles<'a, K, S, W, R>,
    rest: Rest<K>,
) -> (Kit<K, S, W>, RoleEnds)
    requires rooms { IsRoomFor (2 + vec_len crew.workers) rest.passes × IsRoomFor (vec_len crew.workers) rest.remotes }
    ensures passes { result.0.passes.items ≡ crew.entry.ear.pass ∷ crew.entry.mouth.pass ∷ map (λ w. w.pass) (reverse crew.entry.workers.items) }
    ensures remotes { result.0.remotes.items ≡ map (λ w. w.remote) (reverse crew.entry.workers.items) }
    ensures ends { (result.0.source ≡ crew.entry.ear.source) × (result.0.sink ≡ crew.entry.mouth.sink) × (result.1.read ≡ crew.entry.ear.why) × (result.1.wrote ≡ crew.entry.mouth.why) }
{
    let Rest {
        mut passes,
        mut remotes,
    } = rest;
    let Crew {
        ear,
        mouth,
        workers,
    } = crew;
    let Reader {
        pass: first,
        source,
        why: read,
        ..
    } = ear;
    let Writer {
        pass: second,
        sink,
        why: wrote,
        ..
    } = mouth;
    passes.push_reserved(first);
    passes.push_reserved(second);
    take_back(workers, &mut passes, &mut remotes);
    let kit = Kit {
        passes,
        remotes,
        source,
        sink,
    };
    (kit, RoleEnds { read, wrote })
}

/// Runs the roles of a kit, in as many threads as `most` at most. Without memory for them nobody does anything.
pub(crate) fn play<
    K: Remote + Send + Drop,
    S: Timed + Send + Drop,
    W: Sink + Send + Drop,
    R: Threads + Wait + Sync,
>(site: &Site<'_, R>, most: usize, kit: Kit<K, S, W>) -> (Kit<K, S, W>, RoleEnds)
    requires remotes { (vec_len kit.remotes ≤ 64) × (vec_len kit.passes ≡ 2 + vec_len kit.remotes) }
    requires fresh { AreFresh site.now.hall.now 1 kit.passes.items }
    requires open { ((S.told kit.source).is_open ≡ true) × ((W.told kit.sink).is_open ≡ true) }
    ensures own { All (IsPassOf site.now.hall.now) result.0.passes.items × (length result.0.passes.items ≡ length kit.passes.items) }
    ensures read { (held : List ℕ) × ReaderDid site.now.hall.now result.0.passes.items (ear_of (S.told kit.source) []) (ear_of (S.told result.0.source) held) result.1.read }
    ensures wrote { WriterDid site.now.hall.now result.0.passes.items (mouth_of (W.told kit.sink)) (mouth_of (W.told result.0.sink)) result.1.wrote }
    ensures worked { AllWorked site.now.hall.now result.0.passes.items 0 (map (hand_at K.Remote) kit.remotes.items) (map (hand_at K.Remote) result.0.remotes.items) }
{
    let Some((room, workers, backs)) = rooms(site.alloc, kit.remotes.len()) else {
        let ends = RoleEnds {
            read: None,
            wrote: None,
        };
        return (kit, ends);
    };
    let (crew, rest) = cast(site, kit, workers);
    let crew = run(site.rt, most, room, backs, crew);
    gather(crew, rest)
}
