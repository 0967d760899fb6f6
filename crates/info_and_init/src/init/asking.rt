// One start of the program, and what its child says of being set up.
ghost use Rattle.std.specs.Prelude.{◌≡◌, ◌<◌, [], Some, IfOk, IsErr, vec_capacity};
ghost use Rattle.child_life.specs.Start.Cores.{IsSameCore};
ghost use Rattle.info_and_init.specs.Init.Setups.{outcome_of};
ghost use Rattle.child_life.specs.End.Programs.{Leaves};
ghost use Rattle.info_and_init.specs.Init.Inits.{IsSetup, setup_of};

use crate::init::setup::{Setup, setup_for};
use ann_key::NoMemory;
use ann_outside::Programs;
use child_life::end::{close_child, finish};
use child_life::start::{Came, Greeting, Mode, greet};
use child_link::Wire;
use host_core::Core;
use journal_model::Answer;
use std::alloc::Global;

// What a setup comes to by what its greeting came to.
fn setup_of(came: Came) -> Setup
    ensures { result ≡ setup_of came }
{
    match came {
        Came::Ready { .. } => Setup::Initialized,
        Came::Refused { verdict } => setup_for(verdict),
        Came::Ended { why } => Setup::Stopped(Answer::Ended { why }),
        Came::Unsent => Setup::Stopped(Answer::Unsent),
    }
}

/// Starts the program, asks its child to set the remote up, and closes the child. Where no memory is found, nothing is noted.
pub(crate) fn ask<P: Programs>(
    alloc: Global,
    program: &str,
    programs: &mut P,
    core: &mut Core,
    wires: &mut Vec<Wire<P::Inlet, P::Outlet>>,
) -> Result<Setup, NoMemory>
where
    P::Inlet: Drop,
    P::Outlet: Drop,
    requires empty { core.old.journal ≡ [] }
    requires room { (wires.old.items ≡ []) × (0 < vec_capacity wires.old) }
    ensures asked { IsSetup core.new.journal }
    ensures outcome { IfOk result (λ setup. outcome_of core.new.journal ≡ Some setup) }
    ensures leaves { Leaves (IsErr result) program.now core.new.journal (P.told programs.old)
        (P.told programs.new) wires.new.items }
    ensures core { IsSameCore core.old core.new }
{
    match greet(alloc, programs, program, core, 0, false, Mode::Init) {
        Greeting::Child { link, stub, came } => {
            close_child(&link, core);
            finish(programs, link, stub, wires);
            Ok(setup_of(came))
        }
        Greeting::StartFault => Ok(Setup::Stopped(Answer::StartFault)),
        Greeting::NoMemory => Err(NoMemory),
    }
}
