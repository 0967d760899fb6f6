// What calls a remote for the requests that it takes up.
ghost use Rattle.std.specs.Prelude.{◌≡◌, ◌+◌, not, true, false, IfOk, IsTrue};
ghost use Rattle.annex_model.specs.Lines.{has_newline};
ghost use Rattle.annex_model.specs.Messages.{is_sent_key};
ghost use Rattle.threads.specs.Passes.{seen_of};
ghost use Rattle.kit_serve.specs.Kit.Calls.{are_lines, called, is_line_said, plain};
ghost use Rattle.kit_async_model.specs.declared.event.Event.TheVariants.{Called};
ghost use Rattle.kit_async_model.specs.declared.event.Reply.{Reply};
ghost use Rattle.kit_async_model.specs.Callings.{IsAsked};
ghost use Rattle.kit_async_model.specs.Standings.{standing};
ghost use Rattle.kit_async.specs.Work.Passes.{Enters, Stands, is_rest};
ghost use Rattle.kit_async.specs.Work.Calling.{HasNoWork, WorkerRan, can_be_asked, hand_of};

use crate::work::turn::{Turn, enter, stop_for};
use crate::work::why::Why;
use ann_key::{Bytes, Key, NoMemory, has_byte};
use kit_async_core::KitCore;
use kit_async_model::{Event, Reply};
use kit_serve::kit::{Asked, Remote, Said};
use std::sync::Wait;
use threads::{Hall, Pass};

fn is_sent_key(key: &Key) -> bool
    ensures { result ≡ is_sent_key key.now }
{
    !has_byte(key.view().text(), b' ')
}

fn is_line(text: &Bytes) -> bool
    ensures { result ≡ not (has_newline text.now) }
{
    !has_byte(text.view(), b'\n')
}

fn are_lines(texts: &[Bytes]) -> bool
    ensures { result ≡ are_lines texts.now }
{
    texts.iter().all(|text| is_line(text))
}

// Whether a remote may be asked for it.
fn can_be_asked(asked: &Asked) -> bool
    ensures { result ≡ can_be_asked asked.now }
{
    match asked {
        Asked::Prepare(values) => are_lines(values.view()),
        Asked::Initialize(values) => are_lines(values.view()),
        Asked::Store(key, file) => is_sent_key(key) && !has_byte(file.view().as_bytes(), b'\n'),
        Asked::Retrieve(key, file) => is_sent_key(key) && !has_byte(file.view().as_bytes(), b'\n'),
        Asked::Check(key) => is_sent_key(key),
        Asked::Remove(key) => is_sent_key(key),
    }
}

// Calls the remote for that.
fn call<K: Remote>(remote: &mut K, asked: &Asked) -> Result<Said, NoMemory>
    requires { can_be_asked asked.now ≡ true }
    ensures calls { K.calls remote.new ≡ called (K.calls remote.old) (plain asked.now) result }
    ensures settings { K.settings remote.new ≡ K.settings remote.old }
    ensures text { IfOk result (λ said. IsTrue (is_line_said said)) }
{
    match asked {
        Asked::Prepare(values) => remote.prepare(values),
        Asked::Initialize(values) => remote.initialize(values),
        Asked::Store(key, file) => remote.store(key.view(), file.view()),
        Asked::Retrieve(key, file) => remote.retrieve(key.view(), file.view()),
        Asked::Check(key) => remote.check(key.view()),
        Asked::Remove(key) => remote.remove(key.view()),
    }
}

// Tells the core what the remote said, for which there is room, and whether that is all that is to be done.
fn tell<R: Wait>(rt: &R, hall: &Hall<KitCore>, pass: &mut Pass<KitCore>, said: Said) -> bool
    requires { Stands hall.now pass.old.number pass.old }
    ensures stands { Stands hall.now pass.old.number pass.new }
    ensures told { (reply : Reply) × Enters hall.now pass.old pass.new (Called said) reply }
{
    match enter(rt, hall, pass, Event::Called(said)) {
        Some(reply) => matches!(reply, Reply::Done),
        None => unreachable!(),
    }
}

// Calls the remote, and tells the core what it said.
fn work<K: Remote, R: Wait>(
    rt: &R,
    hall: &Hall<KitCore>,
    pass: &mut Pass<KitCore>,
    number: u32,
    remote: &mut K,
    asked: &Asked,
) -> Turn
    requires stands { Stands hall.now (number + 3) pass.old }
    requires asked { (can_be_asked asked.now ≡ true) × IsAsked hall.now.fixed (standing hall.now.fixed (seen_of pass.old)) number asked.now }
    ensures ran { WorkerRan hall.now number pass.old pass.new (hand_of (K.calls remote.old) (K.settings remote.old)) (hand_of (K.calls remote.new) (K.settings remote.new)) }
    ensures acts { is_rest result ≡ false }
{
    match call(remote, asked) {
        Ok(said) => {
            if tell(rt, hall, pass, said) {
                Turn::Went
            } else {
                stop_for(rt, hall, pass, Why::Memory)
            }
        }
        Err(NoMemory) => stop_for(rt, hall, pass, Why::Memory),
    }
}

// Calls the remote for what was taken up. A line that spells a message asks for nothing that a remote may not be asked for.
fn undertake<K: Remote, R: Wait>(
    rt: &R,
    hall: &Hall<KitCore>,
    pass: &mut Pass<KitCore>,
    number: u32,
    remote: &mut K,
    asked: &Asked,
) -> Turn
    requires stands { Stands hall.now (number + 3) pass.old }
    requires asked { IsAsked hall.now.fixed (standing hall.now.fixed (seen_of pass.old)) number asked.now }
    ensures ran { WorkerRan hall.now number pass.old pass.new (hand_of (K.calls remote.old) (K.settings remote.old)) (hand_of (K.calls remote.new) (K.settings remote.new)) }
    ensures acts { is_rest result ≡ false }
{
    if can_be_asked(asked) {
        work(rt, hall, pass, number, remote, asked)
    } else {
        stop_for(rt, hall, pass, Why::Memory)
    }
}

/// Takes up a request, and calls the remote of that number for it.
pub fn work_turn<K: Remote, R: Wait>(
    rt: &R,
    hall: &Hall<KitCore>,
    pass: &mut Pass<KitCore>,
    number: u32,
    remote: &mut K,
) -> Turn
    requires stands { Stands hall.now (number + 3) pass.old }
    ensures ran { WorkerRan hall.now number pass.old pass.new (hand_of (K.calls remote.old) (K.settings remote.old)) (hand_of (K.calls remote.new) (K.settings remote.new)) }
    ensures waits { is_rest result ≡ true → HasNoWork hall.now.fixed number (seen_of pass.new) }
{
    match enter(rt, hall, pass, Event::Take) {
        Some(Reply::Work(asked)) => undertake(rt, hall, pass, number, remote, &asked),
        Some(Reply::Wait) => Turn::Rests,
        Some(_) => Turn::Over(None),
        None => stop_for(rt, hall, pass, Why::Memory),
    }
}

/// Takes turns until no more work will come.
pub fn toil<K: Remote, R: Wait>(
    rt: &R,
    hall: &Hall<KitCore>,
    pass: &mut Pass<KitCore>,
    number: u32,
    remote: &mut K,
)
    requires stands { Stands hall.now (number + 3) pass.old }
    ensures ran { WorkerRan hall.now number pass.old pass.new (hand_of (K.calls remote.old) (K.settings remote.old)) (hand_of (K.calls remote.new) (K.settings remote.new)) }
{
    for _ in rt.forever() {
        match work_turn(rt, hall, pass, number, remote) {
            Turn::Went => {}
            Turn::Rests => hall.rest(rt, pass),
            Turn::Over(_) => return,
        }
    }
    unreachable!()
}
