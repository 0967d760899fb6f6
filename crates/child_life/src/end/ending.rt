// The end of a child: it is closed in the journal, its link's halves are closed, and its program is waited for.
ghost use Rattle.std.specs.Prelude.{◌≡◌, ◌<◌, ◌≤◌, ◌+◌, true, vec_len, vec_capacity};
ghost use Rattle.ann_outside.specs.Causes.{Stays};
ghost use Rattle.journal_model.specs.declared.verdict.Why.TheVariants.{Closed};
ghost use Rattle.journal_model.specs.Journal.{is_started};
ghost use Rattle.journal_model.specs.Legality.{may_stop};
ghost use Rattle.child_link.specs.Writings.{LoneWired};
ghost use Rattle.child_link.specs.Alone.{Closes};
ghost use Rattle.child_link.specs.Doors.{IsSameDoor};
ghost use Rattle.child_life.specs.Start.Cores.{IsSameCore};
ghost use Rattle.child_life.specs.End.Wires.{IsHeld, IsLaid};

use crate::start::wait_for;
use ann_outside::{Programs, Sink, Source};
use child_link::{Door, Lone, OwnDoor, Wire};
use host_core::Core;
use journal_look::Journal;

// The same over any door of the main thread's.
fn close_over<I: Sink, O: Source, D: Door>(link: &Lone<I, O>, door: &mut D)
    requires alone { (D.view door.old).alone ≡ true }
    requires main { (D.view door.old).number ≡ 0 }
    requires started { is_started (D.view door.old).seen link.now.ear.child ≡ true }
    requires idle { may_stop (D.view door.old).seen link.now.ear.child Closed ≡ true }
    ensures closes { Closes 0 link.now.ear.child (D.view door.old).seen (D.view door.new).seen }
    ensures wired { LoneWired (D.view door.old).seen link.now.ear link.now.mouth → LoneWired (D.view door.new).seen link.now.ear link.now.mouth }
    ensures held { IsHeld (D.view door.old).seen link.now.ear link.now.mouth → IsHeld (D.view door.new).seen link.now.ear link.now.mouth }
    ensures door { IsSameDoor (D.view door.old) (D.view door.new) }
{
    link.close_alone(door);
}

/// Closes the child in the journal, where it has not ended. No job of it is open, and no task is busy with it.
pub fn close_child<I: Sink, O: Source>(link: &Lone<I, O>, core: &mut Core)
    requires started { is_started core.old.journal link.now.ear.child ≡ true }
    requires idle { may_stop core.old.journal link.now.ear.child Closed ≡ true }
    ensures closes { Closes 0 link.now.ear.child core.old.journal core.new.journal }
    ensures wired { LoneWired core.old.journal link.now.ear link.now.mouth → LoneWired core.new.journal link.now.ear link.now.mouth }
    ensures held { IsHeld core.old.journal link.now.ear link.now.mouth → IsHeld core.new.journal link.now.ear link.now.mouth }
    ensures core { IsSameCore core.old core.new }
{
    let mut door = OwnDoor { core };
    close_over(link, &mut door);
}

/// Closes the link's halves, keeps them as a wire after the others, and waits for the program to end.
pub fn finish<P: Programs>(
    programs: &mut P,
    link: Lone<P::Inlet, P::Outlet>,
    stub: P::Stub,
    wires: &mut Vec<Wire<P::Inlet, P::Outlet>>,
)
    requires room { vec_len wires.old < vec_capacity wires.old }
    ensures laid { IsLaid link.ear link.mouth wires.old.items wires.new.items }
    ensures room { (vec_len wires.new ≡ vec_len wires.old + 1) × (vec_capacity wires.new ≡ vec_capacity wires.old) }
    ensures starts { Stays (P.told programs.old).starts (P.told programs.new).starts }
    ensures later { (P.told programs.old).faults ≤ (P.told programs.new).faults }
{
    let wire = link.finish();
    let (inlet, outlet) = wire.halves();
    wait_for(programs, inlet, outlet, stub);
    wires.push_reserved(wire);
}

/// The journal of a core whose registers and notes are of no use any more.
pub fn journal_of(core: Core) -> Journal
    ensures { result.entries ≡ core.journal }
{
    let (journal, _, _) = core.close();
    journal
}
