// One start of the program, and what its child says of itself.
ghost use Rattle.std.specs.Prelude.{◌≡◌, ◌<◌, [], true, false, IfSome, IfOk, IsErr, option_map, vec_capacity};
ghost use Rattle.ann_key.specs.KeyRefs.{text_of};
ghost use Rattle.annex_model.specs.Messages.{is_sent_key};
ghost use Rattle.journal_model.specs.Legality.{Legal};
ghost use Rattle.child_link.specs.Alone.{KeepsLink};
ghost use Rattle.child_life.specs.declared.start.greeting.Mode.TheVariants.{Serve};
ghost use Rattle.child_life.specs.Start.Cores.{IsSameCore};
ghost use Rattle.child_life.specs.Start.Greetings.{CameTo, Greeted};
ghost use Rattle.child_life.specs.End.Programs.{Leaves};
ghost use Rattle.info_and_init.specs.Info.Informs.{IsAsked, IsComplete};
ghost use Rattle.info_and_init.specs.Info.Interviews.{Interviewed};

use crate::info::asking::ask_all;
use ann_key::{KeyRef, NoMemory};
use ann_outside::{Programs, Sink, Source};
use child_life::end::{close_child, finish};
use child_life::start::{Came, Greeting, Mode, greet};
use child_link::{Lone, Wire};
use host_core::Core;
use std::alloc::Global;

// Asks a child that is ready about itself, and another nothing.
fn interview<I: Sink, O: Source>(
    alloc: Global,
    key: Option<KeyRef<'_>>,
    link: &mut Lone<I, O>,
    core: &mut Core,
    came: Came,
) -> Result<(), NoMemory>
    requires legal { Legal core.old.opening core.old.journal }
    requires key { IfSome key (λ k. is_sent_key (text_of k) ≡ true) }
    requires greeted { Greeted [] core.old.journal 0 false link.old.ear.child }
    requires comes { CameTo Serve core.old.journal link.old.ear.child came }
    ensures interviewed { Interviewed (option_map text_of key.entry) core.new.journal link.new.ear.child result }
    ensures link { KeepsLink core.old.journal core.new.journal link.old.ear link.new.ear link.old.mouth link.new.mouth }
    ensures core { IsSameCore core.old core.new }
{
    match came {
        Came::Ready { .. } => ask_all(alloc, link, core, key),
        _ => Ok(()),
    }
}

/// Starts the program, asks its child about itself, and closes the child. Where no memory is found, not all may have been
/// asked.
pub(crate) fn ask_child<P: Programs>(
    alloc: Global,
    program: &str,
    key: Option<KeyRef<'_>>,
    programs: &mut P,
    core: &mut Core,
    wires: &mut Vec<Wire<P::Inlet, P::Outlet>>,
) -> Result<(), NoMemory>
where
    P::Inlet: Drop,
    P::Outlet: Drop,
    requires empty { core.old.journal ≡ [] }
    requires key { IfSome key (λ k. is_sent_key (text_of k) ≡ true) }
    requires room { (wires.old.items ≡ []) × (0 < vec_capacity wires.old) }
    ensures asked { IsAsked (option_map text_of key.entry) core.new.journal }
    ensures complete { IfOk result (λ _. IsComplete (option_map text_of key.entry) core.new.journal) }
    ensures leaves { Leaves (IsErr result) program.now core.new.journal (P.told programs.old)
        (P.told programs.new) wires.new.items }
    ensures core { IsSameCore core.old core.new }
{
    match greet(alloc, programs, program, core, 0, false, Mode::Serve) {
        Greeting::Child {
            mut link,
            stub,
            came,
        } => {
            let asked = interview(alloc, key, &mut link, core, came);
            close_child(&link, core);
            finish(programs, link, stub, wires);
            asked
        }
        Greeting::StartFault => Ok(()),
        Greeting::NoMemory => Err(NoMemory),
    }
}
