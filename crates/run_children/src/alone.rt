// The starts of a run by one worker, which has one desk and no threads.
ghost use Rattle.std.specs.Prelude.{◌≡◌, ◌≤◌, ◌<◌, ◌+◌, [], ◌∷◌, true, MatchResult, vec_len, vec_capacity};
ghost use Rattle.child_life.specs.Start.Cores.{IsSameCore};
ghost use Rattle.run_starts.specs.Stints.{KeptOr};
ghost use Rattle.run_children.specs.Runs.{IsHanded, MayRun};
ghost use Rattle.run_children.specs.Starts.{JobsStarted, MayStartOne, OneJobStart, RunLacksMemory};

use crate::beginning::begin_one;
use crate::ready::{Begun, Ready};
use crate::setting::Setting;
use ann_key::NoMemory;
use ann_outside::{Desk, Programs};
use child_life::end::finish;
use child_link::Wire;
use host_core::Core;
use run_starts::{is_offered, serve};

// Starts one child of slot 0 and does tasks over it. Whether ASYNC is to be offered to the next one.
fn start_one<P: Programs, K: Desk>(
    setting: &Setting<'_>,
    programs: &mut P,
    offer: bool,
    core: &mut Core,
    desk: &mut K,
    wires: &mut Vec<Wire<P::Inlet, P::Outlet>>,
) -> Result<bool, NoMemory>
where
    P::Inlet: Drop,
    P::Outlet: Drop,
    requires handed { IsHanded core.old.opening setting.now.tasks.now setting.now.plan.now.setup }
    requires may { MayStartOne core.old.opening core.old.journal }
    requires room { vec_len wires.old < vec_capacity wires.old }
    ensures starts { MatchResult result
        (λ next. OneJobStart core.old.opening setting.now.plan.now.setup setting.now.plan.now.starts offer next true setting.now.plan.now.program core.old.journal core.new.journal
        (K.told desk.old ∷ []) (K.told desk.new ∷ []) (P.told programs.old) (P.told programs.new) wires.old.items wires.new.items)
        (λ _. RunLacksMemory core.old.opening setting.now.plan.now.setup setting.now.plan.now.starts offer setting.now.plan.now.program core.old.journal core.new.journal
        (K.told desk.old ∷ []) (K.told desk.new ∷ []) (P.told programs.old) (P.told programs.new) wires.old.items wires.new.items) }
    ensures room { (vec_len wires.new ≤ vec_len wires.old + 1) × (vec_capacity wires.new ≡ vec_capacity wires.old) }
    ensures core { IsSameCore core.old core.new }
{
    match begin_one(setting, programs, offer, core, wires) {
        Begun::Ready(child) => {
            let Ready {
                mut link,
                stub,
                tagged,
            } = child;
            serve(
                setting.alloc,
                setting.tasks,
                &setting.plan.setup,
                &mut link,
                core,
                desk,
            );
            finish(programs, link, stub, wires);
            Ok(is_offered(offer, tagged))
        }
        Begun::Turned => Ok(offer),
        Begun::NoMemory => Err(NoMemory),
    }
}

/// Starts children of slot 0, one after the other, until all starts are made or all tasks claimed, or no memory is found to start one.
pub(crate) fn start_all<P: Programs, K: Desk>(
    setting: &Setting<'_>,
    programs: &mut P,
    core: &mut Core,
    desk: &mut K,
    wires: &mut Vec<Wire<P::Inlet, P::Outlet>>,
) -> Result<(), NoMemory>
where
    P::Inlet: Drop,
    P::Outlet: Drop,
    requires handed { IsHanded core.old.opening setting.now.tasks.now setting.now.plan.now.setup }
    requires may { MayRun core.old.journal setting.now.plan.now.starts 1 wires.old.items (vec_capacity wires.old) }
    ensures started { JobsStarted core.old.opening setting.now.plan.now.setup setting.now.plan.now.offers setting.now.plan.now.starts core.new.journal
        (K.told desk.old ∷ []) (K.told desk.new ∷ []) result }
    ensures kept { KeptOr setting.now.plan.now.program core.new.journal (P.told programs.old)
        (P.told programs.new) wires.new.items result }
    ensures core { IsSameCore core.old core.new }
{
    let mut offer = setting.plan.offers;
    'children: for made in 0..setting.plan.starts {
        if core.unclaimed() == 0 {
            return Ok(());
        }
        offer = start_one(setting, programs, offer, core, desk, wires)?;
    }
    Ok(())
}
