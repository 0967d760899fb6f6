// What the calling thread does alone: it reads, works and writes, one request after the other.
ghost use Rattle.std.specs.Prelude.{◌≡◌, ◌+◌, true, All};
ghost use Rattle.threads.specs.Passes.{seen_of};
ghost use Rattle.ann_key.specs.Pairs.{Pairwise};
ghost use Rattle.kit_async.specs.Work.Passes.{Stands};
ghost use Rattle.kit_async.specs.Work.Writing.{AllWritten};
ghost use Rattle.kit_async.specs.Turns.{ReaderCan, ReaderRuns, WorkerGoes, WriterCan, WriterRuns, holds, is_tagged};
ghost use Rattle.kit_async.specs.Courses.{IsCourse};

use crate::roles::{Reader, Worker, Writer};
use crate::work::Turn;
use ann_outside::{Sink, Source};
use kit_serve::kit::Remote;
use std::sync::Wait;

// Turns of the workers, until one did something, and what came of them.
fn work_once<'a, K: Remote, R: Wait>(workers: &mut [Worker<'a, K, R>]) -> Turn
    requires { All (λ w. Stands w.hall.now (w.number + 3) w.pass) workers.old }
    ensures { Pairwise (WorkerGoes K.Remote) workers.old workers.new }
{
    let mut came = Turn::Rests;
    for at in 0..workers.len() {
        let turn = workers[at].turn(came);
        came = turn;
    }
    came
}

// Works and writes until nothing of what was heard is left to be done, and whether more may come: not where one of them ended.
fn settle<'a, W: Sink, K: Remote, R: Wait>(
    writer: &mut Writer<'a, W, R>,
    workers: &mut [Worker<'a, K, R>],
) -> bool
    requires writer { WriterCan W.told writer.old }
    requires workers { All (λ w. Stands w.hall.now (w.number + 3) w.pass) workers.old }
    ensures wrote { WriterRuns W.told writer.old writer.new }
    ensures workers { Pairwise (WorkerGoes K.Remote) workers.old workers.new }
    ensures settled { result ≡ true → AllWritten (seen_of writer.new.pass) }
{
    let rt = writer.rt;
    for _ in rt.forever() {
        let worked = work_once(workers);
        let wrote = writer.turn();
        match wrote.and(worked) {
            Turn::Went => {}
            Turn::Rests => return true,
            Turn::Over(_) => return false,
        }
    }
    unreachable!()
}

// The reader's turn, where all is written that the writer has seen said. Whether something was done.
fn read_on<'a, S: Source, W: Sink, R: Wait>(
    reader: &mut Reader<'a, S, R>,
    _writer: &Writer<'a, W, R>,
) -> bool
    requires reader { ReaderCan S.told reader.old }
    requires written { AllWritten (seen_of _writer.now.pass) }
    ensures { ReaderRuns S.told reader.old reader.new }
{
    reader.turn()
}

/// How the calling thread goes on.
#[derive(Clone, Copy)]
pub(crate) enum Course {
    /// It takes the next turn.
    On,
    /// A thread is wanted: a line with a tag asks for a transfer, which is not heard yet, or comes while a request is open.
    Threads,
    /// There is nothing more to hear and all that was heard is done, or one of them ended.
    Ended,
}

// The reader's turn, and where it told a line all that comes of it. Threads are wanted only where they may be.
fn step<'a, S: Source, W: Sink, K: Remote, R: Wait>(
    reader: &mut Reader<'a, S, R>,
    writer: &mut Writer<'a, W, R>,
    workers: &mut [Worker<'a, K, R>],
    hands_on: bool,
) -> Course
    requires reader { ReaderCan S.told reader.old }
    requires writer { WriterCan W.told writer.old × AllWritten (seen_of writer.old.pass) }
    requires workers { All (λ w. Stands w.hall.now (w.number + 3) w.pass) workers.old }
    ensures read { ReaderRuns S.told reader.old reader.new }
    ensures wrote { WriterRuns W.told writer.old writer.new }
    ensures workers { Pairwise (WorkerGoes K.Remote) workers.old workers.new }
    ensures course { IsCourse result hands_on (seen_of writer.new.pass) reader.new.splitter.bytes }
{
    if hands_on && reader.holds_transfer() {
        return Course::Threads;
    }
    let tells = reader.holds_line();
    if !read_on(reader, writer) {
        settle(writer, workers);
        return Course::Ended;
    }
    if !tells {
        return Course::On;
    }
    if hands_on && reader.holds_tagged() {
        return Course::Threads;
    }
    if settle(writer, workers) {
        Course::On
    } else {
        Course::Ended
    }
}

// Takes turns from where all is written.
fn take_turns<'a, S: Source, W: Sink, K: Remote, R: Wait>(
    reader: &mut Reader<'a, S, R>,
    writer: &mut Writer<'a, W, R>,
    workers: &mut [Worker<'a, K, R>],
    hands_on: bool,
) -> bool
    requires reader { ReaderCan S.told reader.old }
    requires writer { WriterCan W.told writer.old × AllWritten (seen_of writer.old.pass) }
    requires workers { All (λ w. Stands w.hall.now (w.number + 3) w.pass) workers.old }
    ensures read { ReaderRuns S.told reader.old reader.new }
    ensures wrote { WriterRuns W.told writer.old writer.new }
    ensures workers { Pairwise (WorkerGoes K.Remote) workers.old workers.new }
    ensures wanted { result ≡ true → (hands_on ≡ true) × (holds is_tagged reader.new.splitter.bytes ≡ true) }
{
    let rt = reader.rt;
    for _ in rt.forever() {
        match step(reader, writer, workers, hands_on) {
            Course::On => {}
            Course::Threads => return true,
            Course::Ended => return false,
        }
    }
    unreachable!()
}

/// Takes all turns, until nothing more comes of them, or where threads may take over until one is wanted. Whether that is why.
pub(crate) fn serve_alone<'a, S: Source, W: Sink, K: Remote, R: Wait>(
    reader: &mut Reader<'a, S, R>,
    writer: &mut Writer<'a, W, R>,
    workers: &mut [Worker<'a, K, R>],
    hands_on: bool,
) -> bool
    requires reader { ReaderCan S.told reader.old }
    requires writer { WriterCan W.told writer.old }
    requires workers { All (λ w. Stands w.hall.now (w.number + 3) w.pass) workers.old }
    ensures read { ReaderRuns S.told reader.old reader.new }
    ensures wrote { WriterRuns W.told writer.old writer.new }
    ensures workers { Pairwise (WorkerGoes K.Remote) workers.old workers.new }
    ensures wanted { result ≡ true → (hands_on ≡ true) × (holds is_tagged reader.new.splitter.bytes ≡ true) }
{
    if settle(writer, workers) {
        take_turns(reader, writer, workers, hands_on)
    } else {
        false
    }
}
