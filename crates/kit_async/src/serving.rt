// Serves remotes to a host, several jobs at once.
ghost use Rattle.std.specs.Prelude.{◌≡◌, ◌<◌, ◌≤◌, ◌+◌, [], ◌∷◌, true, false, codes, length, map, vec_len, All, IfOk};
ghost use Rattle.threads.specs.Passes.{HasClosed, IsPassOf};
ghost use Rattle.kit_async_model.specs.declared.entry.Entry.TheVariants.{Say};
ghost use Rattle.kit_async_model.specs.declared.setup.Setup.{Setup};
ghost use Rattle.kit_async_model.specs.Events.{IsMadeBy, MayStep};
ghost use Rattle.kit_async.specs.Dealt.{AreFresh};
ghost use Rattle.kit_async.specs.Endings.{why_stopped};
ghost use Rattle.kit_async.specs.Served.{HasCauses, Serves, described_setup, journal_of, setup_of, status_of, tells_by};

use crate::dealt::Site;
use crate::journal::{GoneJournal, KitJournal};
use crate::played::{Kit, RoleEnds, play};
use crate::timed::{Timed, Untimed};
use crate::why::Why;
use crate::work::Why as RoleWhy;
use ann_key::NoMemory;
use ann_outside::{Sink, Source};
use kit_async_core::KitCore;
use kit_async_model::{About, Entries, Fact, Setup};
use kit_serve::kit::{Describe, Remote};
use std::alloc::Global;
use std::marker::{Send, Sync};
use std::sync::Wait;
use std::thread::Threads;
use threads::{Hall, Pass};

/// How remotes were served, with all that was handed in.
#[derive(Drop)]
pub struct AsyncEnd<K, S, W> {
    /// The exit status of a program that did nothing else: 0 where the host's lines came to an end; 1 where a line of it is
    /// too long, is ERROR, has no tag or the tag 0 where lines are tagged, or has no place where it stands; 4 and 5 where
    /// reading or writing failed; 7 where no memory was found.
    pub status: u8,
    pub remotes: Vec<K>,
    pub source: S,
    pub sink: W,
    pub journal: KitJournal,
}

/// The same of a kit whose journal isn't handed out: contracts see its entries, and a caller how many they were.
#[derive(Drop)]
pub struct BoundedEnd<K, S, W> {
    /// As that of an [`AsyncEnd`].
    pub status: u8,
    pub remotes: Vec<K>,
    pub source: S,
    pub sink: W,
    pub journal: GoneJournal,
}

// The same of both, with the entries handed out or not.
#[derive(Drop)]
pub(crate) struct Stopped<K, S, W> {
    pub(crate) remotes: Vec<K>,
    pub(crate) source: S,
    pub(crate) sink: W,
    pub(crate) log: Entries,
    pub(crate) why: Why,
}

// With its journal in hand.
fn in_hand<K: Drop, S, W>(stopped: Stopped<K, S, W>) -> AsyncEnd<K, S, W>
    requires { stopped.log.kept ≡ true }
    ensures { result ≡ record { status = status_of stopped.why; remotes = stopped.remotes; source = stopped.source; sink = stopped.sink; journal = journal_of stopped.log stopped.why } }
{
    let Stopped {
        remotes,
        source,
        sink,
        log,
        why,
    } = stopped;
    AsyncEnd {
        status: why.status(),
        remotes,
        source,
        sink,
        journal: KitJournal::new(log, why),
    }
}

// Without it.
fn gone<K: Drop, S, W>(stopped: Stopped<K, S, W>) -> BoundedEnd<K, S, W>
    ensures { result ≡ record { status = status_of stopped.why; remotes = stopped.remotes; source = stopped.source; sink = stopped.sink; journal = journal_of stopped.log stopped.why } }
{
    let Stopped {
        remotes,
        source,
        sink,
        log,
        why,
    } = stopped;
    BoundedEnd {
        status: why.status(),
        remotes,
        source,
        sink,
        journal: GoneJournal::new(log, why),
    }
}

// The source itself, where it was served as one that isn't asked whether a read would wait.
fn untimed<K: Drop, S, W>(stopped: Stopped<K, Untimed<S>, W>) -> Stopped<K, S, W>
    ensures { result ≡ record { remotes = stopped.remotes; source = stopped.source.source; sink = stopped.sink; log = stopped.log; why = stopped.why } }
{
    let Stopped {
        remotes,
        source: Untimed { source },
        sink,
        log,
        why,
    } = stopped;
    Stopped {
        remotes,
        source,
        sink,
        log,
        why,
    }
}

// No memory was found before anything was done.
fn unserved<K: Remote + Drop, S: Source, W: Sink>(
    alloc: Global,
    kept: bool,
    remotes: Vec<K>,
    source: S,
    sink: W,
) -> Stopped<K, S, W>
    requires open { ((S.told source).is_open ≡ true) × ((W.told sink).is_open ≡ true) }
    ensures serves { (setup : Setup) → Serves setup
        (tells_by (S.told source) (W.told sink) (map K.calls remotes.items))
        (tells_by (S.told result.source) (W.told result.sink) (map K.calls result.remotes.items)) (journal_of result.log result.why) }
    ensures log { result.log.kept ≡ kept }
    ensures causes { HasCauses result.why (S.told source) (S.told result.source) (W.told sink) (W.told result.sink) }
    ensures kept { (result.remotes ≡ remotes) × (result.source ≡ source) × (result.sink ≡ sink) }
{
    Stopped {
        remotes,
        source,
        sink,
        log: Entries::new(alloc, kept),
        why: Why::Memory,
    }
}

// Why a kit stopped: a failed write counts before all, and then the kit has to be finished; where it isn't, memory was wanting.
fn why_stopped(ends: RoleEnds, core: &KitCore) -> Why
    ensures { result ≡ why_stopped core.now.setup core.now.journal ends.read ends.wrote }
{
    if matches!(ends.wrote, Some(RoleWhy::WriteFault)) {
        return Why::WriteFault;
    }
    if !core.is_finished() {
        return Why::Memory;
    }
    if core.is_over() {
        return if core.lacks() { Why::Memory } else { Why::Bad };
    }
    match ends.read {
        Some(RoleWhy::Eof) => Why::Eof,
        Some(RoleWhy::ReadFault) => Why::ReadFault,
        Some(RoleWhy::Long) => Why::Bad,
        _ => Why::Memory,
    }
}

// What doesn't change while these are served.
fn setup<K: Remote>(alloc: Global, kept: bool, remotes: &[K]) -> Result<Setup, NoMemory>
    requires { (0 < length remotes.now) × (length remotes.now ≤ 64) }
    ensures { IfOk result (λ setup. setup ≡ setup_of kept K.settings remotes.now) }
{
    let seats = remotes.len() as u32;
    let setup = Setup::of(alloc, &remotes[0], seats)?;
    Ok(Setup { kept, ..setup })
}

// The same, with what the first of them says of itself, and these facts.
fn described_setup<K: Remote + Describe>(
    alloc: Global,
    kept: bool,
    remotes: &[K],
    facts: Vec<Fact>,
) -> Result<Setup, NoMemory>
    requires { (0 < length remotes.now) × (length remotes.now ≤ 64) }
    ensures { IfOk result (λ setup. setup ≡ described_setup kept K.settings K.description facts.items remotes.now) }
{
    let seats = remotes.len() as u32;
    let setup = Setup::of(alloc, &remotes[0], seats)?;
    let about = About::of(alloc, &remotes[0], facts)?;
    Ok(Setup {
        kept,
        about: Some(about),
        ..setup
    })
}

// The hall of a kit's core, and the passes of its reader, its writer and so many remotes.
fn begin(
    alloc: Global,
    setup: Setup,
    remotes: u32,
) -> Result<(Hall<KitCore>, Vec<Pass<KitCore>>), NoMemory>
    requires { (0 < remotes) × (remotes ≤ 64) }
    ensures hall { IfOk result (λ h. (h.0.start ≡ Say 0 (codes "VERSION 1") ∷ []) × (h.0.fixed ≡ setup)) }
    ensures seats { IfOk result (λ h. (length h.1.items ≡ h.0.seats) × (length h.1.items ≡ 2 + remotes)) }
    ensures fresh { IfOk result (λ h. AreFresh h.0 1 h.1.items) }
{
    let core = KitCore::new(alloc, setup)?;
    match Hall::begin(alloc, core, remotes + 2) {
        Ok(begun) => Ok(begun),
        Err(_) => Err(NoMemory),
    }
}

// The end of a kit whose roles have come back.
fn end<K: Remote + Drop, S: Source, W: Sink>(
    hall: Hall<KitCore>,
    kit: Kit<K, S, W>,
    ends: RoleEnds,
) -> Stopped<K, S, W>
    requires own { All (IsPassOf hall) kit.passes.items }
    requires all { length kit.passes.items ≡ hall.seats }
    ensures kept { (result.remotes ≡ kit.remotes) × (result.source ≡ kit.source) × (result.sink ≡ kit.sink) }
    ensures closed { HasClosed IsMadeBy MayStep hall kit.passes.items result.log.entries hall.fixed }
    ensures log { result.log.kept ≡ hall.fixed.kept }
    ensures why { result.why ≡ why_stopped hall.fixed result.log.entries ends.read ends.wrote }
{
    let Kit {
        passes,
        remotes,
        source,
        sink,
    } = kit;
    let core = hall.close(passes);
    let why = why_stopped(ends, &core);
    let (_, log) = core.close();
    Stopped {
        remotes,
        source,
        sink,
        log,
        why,
    }
}

// Serves the remotes by that setup, with no more threads than `most` tried.
fn serve_over<
    K: Remote + Send + Drop,
    S: Timed + Send + Drop,
    W: Sink + Send + Drop,
    R: Threads + Wait + Sync,
>(
    rt: &R,
    alloc: Global,
    most: usize,
    setup: Setup,
    remotes: Vec<K>,
    source: S,
    sink: W,
) -> Stopped<K, S, W>
    requires remotes { (0 < vec_len remotes) × (vec_len remotes ≤ 64) }
    requires open { ((S.told source).is_open ≡ true) × ((W.told sink).is_open ≡ true) }
    ensures serves { Serves setup
        (tells_by (S.told source) (W.told sink) (map K.calls remotes.items))
        (tells_by (S.told result.source) (W.told result.sink) (map K.calls result.remotes.items)) (journal_of result.log result.why) }
    ensures log { result.log.kept ≡ setup.kept }
    ensures causes { HasCauses result.why (S.told source) (S.told result.source) (W.told sink) (W.told result.sink) }
    ensures open { ((S.told result.source).is_open ≡ true) × ((W.told result.sink).is_open ≡ true) }
    ensures settings { map K.settings result.remotes.items ≡ map K.settings remotes.items }
{
    let kept = setup.kept;
    let Ok((hall, passes)) = begin(alloc, setup, remotes.len() as u32) else {
        return unserved(alloc, kept, remotes, source, sink);
    };
    let site = Site {
        rt,
        alloc,
        hall: &hall,
    };
    let kit = Kit {
        passes,
        remotes,
        source,
        sink,
    };
    let (kit, ends) = play(&site, most, kit);
    end(hall, kit, ends)
}

/// The same as [`serve_async`], with no more threads than `most` tried: where not all of them can be started, the calling thread does
/// all.
pub fn serve_async_some<
    K: Remote + Send + Drop,
    S: Source + Send + Drop,
    W: Sink + Send + Drop,
    R: Threads + Wait + Sync,
>(rt: &R, alloc: Global, most: usize, remotes: Vec<K>, source: S, sink: W) -> AsyncEnd<K, S, W>
    requires remotes { (0 < vec_len remotes) × (vec_len remotes ≤ 64) }
    requires open { ((S.told source).is_open ≡ true) × ((W.told sink).is_open ≡ true) }
    ensures serves { Serves (setup_of true K.settings remotes.items)
        (tells_by (S.told source) (W.told sink) (map K.calls remotes.items))
        (tells_by (S.told result.source) (W.told result.sink) (map K.calls result.remotes.items)) result.journal }
    ensures status { result.status ≡ status_of result.journal.why }
    ensures causes { HasCauses result.journal.why (S.told source) (S.told result.source) (W.told sink) (W.told result.sink) }
    ensures open { ((S.told result.source).is_open ≡ true) × ((W.told result.sink).is_open ≡ true) }
    ensures settings { map K.settings result.remotes.items ≡ map K.settings remotes.items }
{
    let Ok(setup) = setup(alloc, true, &remotes) else {
        return in_hand(unserved(alloc, true, remotes, source, sink));
    };
    let source = Untimed { source };
    in_hand(untimed(serve_over(rt, alloc, most, setup, remotes, source, sink)))
}

/// Serves the remotes, 1 to 64, to the host behind the source and the sink until one of them ends it, and hands all back.
///
/// Where the host names ASYNC, its lines are tagged, and each remote works on one request at a time in a thread of its own.
/// Requests on one key wait for each other. All remotes get ready with the values of the first one's settings.
pub fn serve_async<
    K: Remote + Send + Drop,
    S: Source + Send + Drop,
    W: Sink + Send + Drop,
    R: Threads + Wait + Sync,
>(rt: &R, alloc: Global, remotes: Vec<K>, source: S, sink: W) -> AsyncEnd<K, S, W>
    requires remotes { (0 < vec_len remotes) × (vec_len remotes ≤ 64) }
    requires open { ((S.told source).is_open ≡ true) × ((W.told sink).is_open ≡ true) }
    ensures serves { Serves (setup_of true K.settings remotes.items)
        (tells_by (S.told source) (W.told sink) (map K.calls remotes.items))
        (tells_by (S.told result.source) (W.told result.sink) (map K.calls result.remotes.items)) result.journal }
    ensures status { result.status ≡ status_of result.journal.why }
    ensures causes { HasCauses result.journal.why (S.told source) (S.told result.source) (W.told sink) (W.told result.sink) }
    ensures open { ((S.told result.source).is_open ≡ true) × ((W.told result.sink).is_open ≡ true) }
    ensures settings { map K.settings result.remotes.items ≡ map K.settings remotes.items }
{
    serve_async_some(rt, alloc, usize::MAX, remotes, source, sink)
}

/// The same as [`serve_async`] where the remotes say what they are. It differs in this alone: LISTCONFIGS, GETCOST, GETAVAILABILITY and
/// GETINFO are answered by what the first remote says of itself before it is served, and by these facts after its own. WHEREIS is
/// UNSUPPORTED-REQUEST: its answer depends on the key.
pub fn serve_async_described<
    K: Remote + Describe + Send + Drop,
    S: Source + Send + Drop,
    W: Sink + Send + Drop,
    R: Threads + Wait + Sync,
>(rt: &R, alloc: Global, remotes: Vec<K>, facts: Vec<Fact>, source: S, sink: W) -> AsyncEnd<K, S, W>
    requires remotes { (0 < vec_len remotes) × (vec_len remotes ≤ 64) }
    requires open { ((S.told source).is_open ≡ true) × ((W.told sink).is_open ≡ true) }
    ensures serves { Serves (described_setup true K.settings K.description facts.items remotes.items)
        (tells_by (S.told source) (W.told sink) (map K.calls remotes.items))
        (tells_by (S.told result.source) (W.told result.sink) (map K.calls result.remotes.items)) result.journal }
    ensures status { result.status ≡ status_of result.journal.why }
    ensures causes { HasCauses result.journal.why (S.told source) (S.told result.source) (W.told sink) (W.told result.sink) }
    ensures open { ((S.told result.source).is_open ≡ true) × ((W.told result.sink).is_open ≡ true) }
    ensures settings { map K.settings result.remotes.items ≡ map K.settings remotes.items }
{
    let Ok(setup) = described_setup(alloc, true, &remotes, facts) else {
        return in_hand(unserved(alloc, true, remotes, source, sink));
    };
    let source = Untimed { source };
    in_hand(untimed(serve_over(rt, alloc, usize::MAX, setup, remotes, source, sink)))
}

/// The same as [`serve_async`], without the journal in hand.
pub fn serve_async_bounded<
    K: Remote + Send + Drop,
    S: Source + Send + Drop,
    W: Sink + Send + Drop,
    R: Threads + Wait + Sync,
>(rt: &R, alloc: Global, remotes: Vec<K>, source: S, sink: W) -> BoundedEnd<K, S, W>
    requires remotes { (0 < vec_len remotes) × (vec_len remotes ≤ 64) }
    requires open { ((S.told source).is_open ≡ true) × ((W.told sink).is_open ≡ true) }
    ensures serves { Serves (setup_of false K.settings remotes.items)
        (tells_by (S.told source) (W.told sink) (map K.calls remotes.items))
        (tells_by (S.told result.source) (W.told result.sink) (map K.calls result.remotes.items)) result.journal }
    ensures status { result.status ≡ status_of result.journal.why }
    ensures causes { HasCauses result.journal.why (S.told source) (S.told result.source) (W.told sink) (W.told result.sink) }
    ensures open { ((S.told result.source).is_open ≡ true) × ((W.told result.sink).is_open ≡ true) }
    ensures settings { map K.settings result.remotes.items ≡ map K.settings remotes.items }
{
    let Ok(setup) = setup(alloc, false, &remotes) else {
        return gone(unserved(alloc, false, remotes, source, sink));
    };
    let source = Untimed { source };
    gone(untimed(serve_over(rt, alloc, usize::MAX, setup, remotes, source, sink)))
}

/// The same as [`serve_async_described`], without the journal in hand.
pub fn serve_async_described_bounded<
    K: Remote + Describe + Send + Drop,
    S: Source + Send + Drop,
    W: Sink + Send + Drop,
    R: Threads + Wait + Sync,
>(
    rt: &R,
    alloc: Global,
    remotes: Vec<K>,
    facts: Vec<Fact>,
    source: S,
    sink: W,
) -> BoundedEnd<K, S, W>
    requires remotes { (0 < vec_len remotes) × (vec_len remotes ≤ 64) }
    requires open { ((S.told source).is_open ≡ true) × ((W.told sink).is_open ≡ true) }
    ensures serves { Serves (described_setup false K.settings K.description facts.items remotes.items)
        (tells_by (S.told source) (W.told sink) (map K.calls remotes.items))
        (tells_by (S.told result.source) (W.told result.sink) (map K.calls result.remotes.items)) result.journal }
    ensures status { result.status ≡ status_of result.journal.why }
    ensures causes { HasCauses result.journal.why (S.told source) (S.told result.source) (W.told sink) (W.told result.sink) }
    ensures open { ((S.told result.source).is_open ≡ true) × ((W.told result.sink).is_open ≡ true) }
    ensures settings { map K.settings result.remotes.items ≡ map K.settings remotes.items }
{
    let Ok(setup) = described_setup(alloc, false, &remotes, facts) else {
        return gone(unserved(alloc, false, remotes, source, sink));
    };
    let source = Untimed { source };
    gone(untimed(serve_over(rt, alloc, usize::MAX, setup, remotes, source, sink)))
}

/// The same as [`serve_async_described_bounded`], over a source that says whether a read would wait. Where no memory is found, or a write
/// fails, the kit ends soon also while the host writes nothing, since its threads wait for the host no longer than the source says.
pub fn serve_async_described_timed<
    K: Remote + Describe + Send + Drop,
    S: Timed + Send + Drop,
    W: Sink + Send + Drop,
    R: Threads + Wait + Sync,
>(
    rt: &R,
    alloc: Global,
    remotes: Vec<K>,
    facts: Vec<Fact>,
    source: S,
    sink: W,
) -> BoundedEnd<K, S, W>
    requires remotes { (0 < vec_len remotes) × (vec_len remotes ≤ 64) }
    requires open { ((S.told source).is_open ≡ true) × ((W.told sink).is_open ≡ true) }
    ensures serves { Serves (described_setup false K.settings K.description facts.items remotes.items)
        (tells_by (S.told source) (W.told sink) (map K.calls remotes.items))
        (tells_by (S.told result.source) (W.told result.sink) (map K.calls result.remotes.items)) result.journal }
    ensures status { result.status ≡ status_of result.journal.why }
    ensures causes { HasCauses result.journal.why (S.told source) (S.told result.source) (W.told sink) (W.told result.sink) }
    ensures open { ((S.told result.source).is_open ≡ true) × ((W.told result.sink).is_open ≡ true) }
    ensures settings { map K.settings result.remotes.items ≡ map K.settings remotes.items }
{
    let Ok(setup) = described_setup(alloc, false, &remotes, facts) else {
        return gone(unserved(alloc, false, remotes, source, sink));
    };
    gone(serve_over(rt, alloc, usize::MAX, setup, remotes, source, sink))
}
