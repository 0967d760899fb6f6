ghost use Rattle.std.specs.Prelude.{◌≡◌, ◌≤◌, ◌<◌, ◌++◌, ◌∷◌, [], false, true, MatchResult};
ghost use Rattle.ann_outside.specs.Causes.{Rose, Stays};
ghost use Rattle.journal_model.specs.declared.entry.What.TheVariants.{NoStart};
ghost use Rattle.journal_model.specs.Legality.{Legal, count, is_start};
ghost use Rattle.child_link.specs.Writings.{LoneWired};
ghost use Rattle.host_talk.specs.Request.Requests.{message_of};
ghost use Rattle.child_link.specs.Alone.{KeepsLink};
ghost use Rattle.child_link.specs.Doors.{IsSameDoor};
ghost use Rattle.child_life.specs.Start.Cores.{IsSameCore};
ghost use Rattle.child_life.specs.declared.start.greeting.Mode.{Mode};
ghost use Rattle.child_life.specs.Start.Greetings.{TellsFor, IfHasLink, StartsOnce, AreNumbered};
ghost use Rattle.child_life.specs.Start.Stages.{asked_as, child_of, is_asked_for, last_request, HasBegun, IsMain, MayAsk, MayGreet, GreetsOn, AsksNext, Prepares, ComesTo, NotesStart, TellsOf};

use crate::start::greeting::{Came, Greeting, Mode};
use ann_key::NoMemory;
use ann_outside::{Programs, Sink, Source, StartError, Started};
use child_link::{Door, Lone, OwnDoor};
use host_core::{Core, Event, Reply};
use host_talk::request::Request;
use journal_model::Verdict;
use std::alloc::Global;

// What a request of the greeting comes to.
#[derive(Drop)]
enum RequestOutcome {
    Done,
    // A line said that it failed, or that the remote doesn't know it.
    Refused(Verdict),
    // The child has ended or is mute.
    Gone,
}

fn asked_as(verdict: Verdict) -> RequestOutcome
    ensures { result ≡ asked_as verdict }
{
    match verdict {
        Verdict::Done { .. } => RequestOutcome::Done,
        Verdict::Failed { .. } | Verdict::Unsupported { .. } => RequestOutcome::Refused(verdict),
        _ => RequestOutcome::Gone,
    }
}

// Asks one request of the greeting. Where no memory was found to ask it, the child is ended.
fn ask_one<I: Sink, O: Source, D: Door>(
    link: &mut Lone<I, O>,
    door: &mut D,
    request: &Request,
) -> RequestOutcome
    requires main { IsMain (D.view door.old).number (D.view door.old).alone }
    requires legal { Legal (D.view door.old).opening (D.view door.old).seen }
    requires may { MayGreet (D.view door.old).seen (D.view door.old).number link.old.ear.child (message_of request.now) }
    ensures on { (mode : Mode) → is_asked_for (message_of request.now) mode ≡ true → GreetsOn mode (D.view door.old).seen (D.view door.new).seen link.old.ear.child }
    ensures asks { AsksNext (D.view door.old).seen (D.view door.new).seen link.old.ear.child result }
    ensures link { KeepsLink (D.view door.old).seen (D.view door.new).seen link.old.ear link.new.ear link.old.mouth link.new.mouth }
    ensures door { IsSameDoor (D.view door.old) (D.view door.new) }
{
    match link.ask_alone(door, 0, request) {
        Ok(verdict) => asked_as(verdict),
        Err(NoMemory) => {
            link.give_up_alone(door);
            RequestOutcome::Gone
        }
    }
}

// What a child is asked after its extensions.
fn last_request(mode: Mode) -> Request
    ensures { message_of result ≡ last_request mode }
{
    match mode {
        Mode::Serve => Request::Prepare,
        Mode::Init => Request::InitRemote,
    }
}

// Asks for the extensions, and then to get ready or to be set up. A remote that doesn't know of extensions has none.
fn ask_both<I: Sink, O: Source, D: Door>(
    link: &mut Lone<I, O>,
    door: &mut D,
    offer: bool,
    mode: Mode,
) -> RequestOutcome
    requires main { IsMain (D.view door.old).number (D.view door.old).alone }
    requires legal { Legal (D.view door.old).opening (D.view door.old).seen }
    requires asks { MayAsk (D.view door.old).seen link.old.ear.child offer }
    ensures on { GreetsOn mode (D.view door.old).seen (D.view door.new).seen link.old.ear.child }
    ensures prepares { Prepares mode (D.view door.new).seen link.old.ear.child result }
    ensures link { KeepsLink (D.view door.old).seen (D.view door.new).seen link.old.ear link.new.ear link.old.mouth link.new.mouth }
    ensures door { IsSameDoor (D.view door.old) (D.view door.new) }
{
    let extensions = Request::Extensions { offer };
    if let RequestOutcome::Gone = ask_one(link, door, &extensions) {
        return RequestOutcome::Gone;
    }
    ask_one(link, door, &last_request(mode))
}

// The whole greeting, from the child's first line on. None where the child did what it is prepared for.
fn hear_and_ask<I: Sink, O: Source, D: Door>(
    link: &mut Lone<I, O>,
    door: &mut D,
    offer: bool,
    mode: Mode,
) -> Option<Came>
    requires main { IsMain (D.view door.old).number (D.view door.old).alone }
    requires legal { Legal (D.view door.old).opening (D.view door.old).seen }
    requires begun { HasBegun (D.view door.old).seen link.old.ear.child offer }
    ensures on { GreetsOn mode (D.view door.old).seen (D.view door.new).seen link.old.ear.child }
    ensures comes { ComesTo mode (D.view door.new).seen link.old.ear.child result }
    ensures link { KeepsLink (D.view door.old).seen (D.view door.new).seen link.old.ear link.new.ear link.old.mouth link.new.mouth }
    ensures door { IsSameDoor (D.view door.old) (D.view door.new) }
{
    if let Some(why) = link.hear_version_alone(door) {
        return Some(Came::Ended { why });
    }
    match ask_both(link, door, offer, mode) {
        RequestOutcome::Done => None,
        RequestOutcome::Refused(verdict) => Some(Came::Refused { verdict }),
        RequestOutcome::Gone => match link.why_ended_alone(door) {
            Some(why) => Some(Came::Ended { why }),
            None => Some(Came::Unsent),
        },
    }
}

// The same through the main thread's own door.
fn greet_link<I: Sink, O: Source>(
    link: &mut Lone<I, O>,
    core: &mut Core,
    offer: bool,
    mode: Mode,
) -> Option<Came>
    requires legal { Legal core.old.opening core.old.journal }
    requires begun { HasBegun core.old.journal link.old.ear.child offer }
    ensures on { GreetsOn mode core.old.journal core.new.journal link.old.ear.child }
    ensures comes { ComesTo mode core.new.journal link.old.ear.child result }
    ensures link { KeepsLink core.old.journal core.new.journal link.old.ear link.new.ear link.old.mouth link.new.mouth }
    ensures core { IsSameCore core.old core.new }
{
    let mut door = OwnDoor { core };
    let unready = hear_and_ask(link, &mut door, offer, mode);
    let OwnDoor { core: _ } = door;
    unready
}

// The greeting of a child that was started, with its link and its stub.
fn greet_child<I: Sink, O: Source, S>(
    link: Lone<I, O>,
    stub: S,
    core: &mut Core,
    offer: bool,
    mode: Mode,
) -> Greeting<I, O, S>
    requires legal { Legal core.old.opening core.old.journal }
    requires begun { HasBegun core.old.journal link.ear.child offer }
    ensures on { GreetsOn mode core.old.journal core.new.journal link.ear.child }
    ensures tells { TellsOf mode core.new.journal link.ear.child result }
    ensures link { IfHasLink (λ ear mouth. KeepsLink core.old.journal core.new.journal link.ear ear link.mouth mouth) result }
    ensures core { IsSameCore core.old core.new }
{
    let mut link = link;
    match greet_link(&mut link, core, offer, mode) {
        Some(came) => Greeting::Child { link, stub, came },
        None => {
            let tagged = core.tagged(link.child());
            let came = Came::Ready { tagged };
            Greeting::Child { link, stub, came }
        }
    }
}

fn child_of(reply: Reply) -> Option<u32>
    ensures { result ≡ child_of reply }
{
    match reply {
        Reply::Child(child) => Some(child),
        _ => None,
    }
}

// Tells the core of a child that was started, and answers its number. None: out of memory.
fn note_start(core: &mut Core, slot: u32, offer: bool) -> Option<u32>
    requires few { count is_start core.old.journal < 4294967295 }
    ensures started { NotesStart core.old.journal core.new.journal slot offer result }
    ensures opening { core.new.opening ≡ core.old.opening }
    ensures legal { Legal core.new.opening core.new.journal }
{
    match core.step(0, Event::Start { slot, offer }) {
        Ok(reply) => child_of(reply),
        Err(NoMemory) => None,
    }
}

// Tells the core that no child could be started.
fn note_no_start(core: &mut Core, slot: u32) -> Result<(), NoMemory>
    ensures noted { MatchResult result (λ _. core.new.journal ≡ core.old.journal ++ record { by = 0; what = NoStart slot } ∷ []) (λ _. core.new.journal ≡ core.old.journal) }
    ensures opening { core.new.opening ≡ core.old.opening }
    ensures legal { Legal core.new.opening core.new.journal }
{
    core.step(0, Event::NoStart { slot })?;
    Ok(())
}

// Closes and finishes a child of which nothing could be noted.
fn discard<P: Programs>(programs: &mut P, inlet: P::Inlet, outlet: P::Outlet, stub: P::Stub)
where
    P::Inlet: Drop,
    P::Outlet: Drop,
    requires inlet { (P.Inlet.told inlet).is_open ≡ true }
    requires outlet { (P.Outlet.told outlet).is_open ≡ true }
    ensures starts { Stays (P.told programs.old).starts (P.told programs.new).starts }
    ensures later { (P.told programs.old).faults ≤ (P.told programs.new).faults }
{
    let mut inlet = inlet;
    let mut outlet = outlet;
    inlet.close();
    outlet.close();
    wait_for(programs, &inlet, &outlet, stub);
}

/// Waits for a child's program to end. Both halves are closed by then, so that a program that reads on finds its input at an end.
pub fn wait_for<P: Programs>(programs: &mut P, inlet: &P::Inlet, outlet: &P::Outlet, stub: P::Stub)
    requires inlet { (P.Inlet.told inlet.now).is_open ≡ false }
    requires outlet { (P.Outlet.told outlet.now).is_open ≡ false }
    ensures starts { Stays (P.told programs.old).starts (P.told programs.new).starts }
    ensures later { (P.told programs.old).faults ≤ (P.told programs.new).faults }
{
    let _status = programs.finish(stub);
}

/// Starts the program in a slot, and greets the child: its first line is its version, then it is asked for its extensions,
/// where ASYNC is offered to it or not, and to get ready or to be set up.
pub fn greet<P: Programs>(
    alloc: Global,
    programs: &mut P,
    program: &str,
    core: &mut Core,
    slot: u32,
    offer: bool,
    mode: Mode,
) -> Greeting<P::Inlet, P::Outlet, P::Stub>
where
    P::Inlet: Drop,
    P::Outlet: Drop,
    requires few { count is_start core.old.journal < 4294967295 }
    ensures tells { TellsFor mode core.old.journal core.new.journal slot offer result }
    ensures wired { IfHasLink (LoneWired core.new.journal) result }
    ensures numbers { IfHasLink (AreNumbered (P.told programs.new).starts) result }
    ensures starts { StartsOnce (P.told programs.old).starts (P.told programs.new).starts program.now result }
    ensures fault { result ≡ Greeting.StartFault → Rose (P.told programs.old).faults (P.told programs.new).faults }
    ensures later { (P.told programs.old).faults ≤ (P.told programs.new).faults }
    ensures core { IsSameCore core.old core.new }
{
    match programs.start(program) {
        Ok(
            Started {
                inlet,
                outlet,
                stub,
            },
        ) => match note_start(core, slot, offer) {
            Some(child) => greet_child(
                Lone::new(alloc, child, inlet, outlet),
                stub,
                core,
                offer,
                mode,
            ),
            None => {
                discard(programs, inlet, outlet, stub);
                Greeting::NoMemory
            }
        },
        Err(StartError::Failed) => match note_no_start(core, slot) {
            Ok(()) => Greeting::StartFault,
            Err(NoMemory) => Greeting::NoMemory,
        },
        Err(StartError::NoMemory) => Greeting::NoMemory,
    }
}
