// The directory remotes are made, and served.
ghost use Rattle.std.specs.Prelude.{◌≡◌, ◌<◌, ◌≤◌, false, true, map, vec_len, All, IfOk, IfSome};
ghost use Rattle.dir_remote.specs.Contents.{IsMark};
ghost use Rattle.dir_remote.specs.Guard.Guards.{told_by};
ghost use Rattle.kit_async.specs.Served.{HasCauses, Serves, described_setup, status_of, tells_by};
ghost use Rattle.remote_dir_bin.specs.Following.{Follows};
ghost use Rattle.remote_dir_bin.specs.Serving.{facts, mark_of, remote_over, remotes_over};

use crate::following::{Followed, follow};
use ann_key::{Bytes, NoMemory, Text};
use ann_outside::{Desk, Sink};
use dir_remote::guard::{Guarded, Place};
use dir_remote::is_mark;
use kit_async::{BoundedEnd, Timed, serve_async_described_timed};
use kit_async_model::Fact;
use kit_serve::kit::{Describe, Remote};
use std::alloc::Global;
use std::marker::{Send, Sync};
use std::sync::Wait;
use std::thread::Threads;

/// The folders and the files that one remote works on.
#[derive(Drop)]
pub struct Seat<P, D> {
    pub place: P,
    pub desk: D,
}

/// The process that serves, and when it began, in millionths of a second: no other process of this machine has both.
#[derive(Clone, Copy)]
pub struct Moment {
    pub process: u32,
    pub micros: u64,
}

// A mark that no other remote of this machine has. None is out of memory.
fn mark_of(alloc: Global, moment: Moment, number: u32) -> Option<Text>
    ensures { IfSome result (λ mark. IsMark mark × (mark ≡ mark_of moment number)) }
{
    let process = moment.process;
    let micros = moment.micros;
    let Ok(mark) = format!(in alloc; "{process}.{micros}.{number}") else {
        return None;
    };
    let mark = Text::from_string(mark);
    if is_mark(mark.view()) {
        Some(mark)
    } else {
        None
    }
}

fn remote<P: Place + Drop, D: Desk + Drop>(
    alloc: Global,
    moment: Moment,
    number: u32,
    seat: Seat<P, D>,
) -> Result<Followed<P, D>, NoMemory>
    ensures { IfOk result (λ remote. remote ≡ remote_over moment number seat) }
{
    let Seat { place, desk } = seat;
    match mark_of(alloc, moment, number) {
        Some(mark) => {
            let remote = Guarded::new(alloc, place, desk, mark, number == 1);
            Ok(Followed::new(alloc, remote))
        }
        None => Err(NoMemory),
    }
}

// One over each seat, so that no two put a content together in one file.
fn remotes<P: Place + Drop, D: Desk + Drop>(
    alloc: Global,
    moment: Moment,
    seats: Vec<Seat<P, D>>,
) -> Result<Vec<Followed<P, D>>, NoMemory>
    requires { vec_len seats ≤ 4 }
    ensures remotes { IfOk result (λ remotes. remotes.items ≡ remotes_over moment 1 seats.items) }
    ensures length { IfOk result (λ remotes. vec_len remotes ≡ vec_len seats) }
{
    let mut remotes = Vec::with_capacity(alloc, seats.len())?;
    let mut number = 0;
    for seat in seats {
        number += 1;
        remotes.push(remote(alloc, moment, number, seat)?)?;
    }
    Ok(remotes)
}

// The directory, which is the value of the one setting.
fn facts(alloc: Global) -> Result<Vec<Fact>, NoMemory>
    ensures { IfOk result (λ list. list.items ≡ facts) }
{
    let name = Bytes::copy(alloc, b"directory")?;
    let mut facts = Vec::new(alloc);
    facts.push(Fact::Setting { name, number: 0 })?;
    Ok(facts)
}

/// Serves a guarded directory remote over each seat, one to four, to the host behind the source and the sink: so many requests are
/// worked on at the same time. Each has a mark of its own, and the first one clears the directory of what ended processes left in it.
/// The calls of each, which are those that the journal has, and what its place and its desk tell in the end come of one course of calls.
/// It is `NoMemory` only where none is found before the first line is said.
pub fn serve<
    P: Place + Send + Drop,
    D: Desk + Send + Drop,
    S: Timed + Send + Drop,
    W: Sink + Send + Drop,
    R: Threads + Wait + Sync,
>(
    rt: &R,
    alloc: Global,
    moment: Moment,
    seats: Vec<Seat<P, D>>,
    source: S,
    sink: W,
) -> Result<BoundedEnd<Followed<P, D>, S, W>, NoMemory>
    requires seats { (0 < vec_len seats) × (vec_len seats ≤ 4) }
    requires open { ((S.told source).is_open ≡ true) × ((W.told sink).is_open ≡ true) }
    ensures serves { IfOk result (λ end. Serves
        (described_setup false ⟦<Followed<P, D> as Remote>⟧.settings ⟦<Followed<P, D> as Describe>⟧.description facts (remotes_over moment 1 seats.items))
        (tells_by (S.told source) (W.told sink) (map ⟦<Followed<P, D> as Remote>⟧.calls (remotes_over moment 1 seats.items)))
        (tells_by (S.told end.source) (W.told end.sink) (map ⟦<Followed<P, D> as Remote>⟧.calls end.remotes.items)) end.journal) }
    ensures status { IfOk result (λ end. end.status ≡ status_of end.journal.why) }
    ensures causes { IfOk result (λ end. HasCauses end.journal.why (S.told source) (S.told end.source) (W.told sink) (W.told end.sink)) }
    ensures followed { IfOk result (λ end. All (λ r. Follows r.remote.sweeps r.calls (told_by P.steps D.told r.remote)) end.remotes.items) }
    ensures open { IfOk result (λ end. ((S.told end.source).is_open ≡ true) × ((W.told end.sink).is_open ≡ true)) }
{
    let remotes = remotes(alloc, moment, seats)?;
    let facts = facts(alloc)?;
    let end = serve_async_described_timed(rt, alloc, remotes, facts, source, sink);
    follow(end.remotes.as_slice());
    Ok(end)
}
