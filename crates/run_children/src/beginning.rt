// One start of slot 0, up to where its child is ready.
ghost use Rattle.std.specs.Prelude.{◌≡◌, ◌≤◌, ◌<◌, ◌+◌, vec_len, vec_capacity};
ghost use Rattle.child_life.specs.Start.Cores.{IsSameCore};
ghost use Rattle.run_children.specs.Beginnings.{BeginsOne};
ghost use Rattle.run_children.specs.Starts.{MayStartOne};

use crate::ready::{Begun, Ready};
use crate::setting::Setting;
use ann_outside::Programs;
use child_life::end::finish;
use child_life::start::{Greeting, Mode, greet};
use child_link::Wire;
use crew_work::worker::know_book;
use host_core::Core;
use journal_model::Answer;
use run_starts::{answer_one, tagged_of, turn_away, unready_answer};

/// Starts one child of slot 0 and greets it. One task is answered by what came of a start that gave no child that is ready.
pub(crate) fn begin_one<P: Programs>(
    setting: &Setting<'_>,
    programs: &mut P,
    offer: bool,
    core: &mut Core,
    wires: &mut Vec<Wire<P::Inlet, P::Outlet>>,
) -> Begun<P::Inlet, P::Outlet, P::Stub>
where
    P::Inlet: Drop,
    P::Outlet: Drop,
    requires may { MayStartOne core.old.opening core.old.journal }
    requires room { vec_len wires.old < vec_capacity wires.old }
    ensures begins { BeginsOne core.old.opening setting.now.plan.now.setup setting.now.plan.now.starts offer setting.now.plan.now.program core.old.journal core.new.journal
        (P.told programs.old) (P.told programs.new) wires.old.items wires.new.items result }
    ensures room { (vec_len wires.new ≤ vec_len wires.old + 1) × (vec_capacity wires.new ≡ vec_capacity wires.old) }
    ensures core { IsSameCore core.old core.new }
{
    let program = setting.plan.program.view();
    match greet(
        setting.alloc,
        programs,
        program,
        core,
        0,
        offer,
        Mode::Serve,
    ) {
        Greeting::Child { link, stub, came } => {
            know_book(&core.opening().notes);
            match tagged_of(came) {
                Some(tagged) => Begun::Ready(Ready { link, stub, tagged }),
                None => {
                    turn_away(&link, core, unready_answer(came));
                    finish(programs, link, stub, wires);
                    Begun::Turned
                }
            }
        }
        Greeting::StartFault => {
            answer_one(core, Answer::StartFault);
            Begun::Turned
        }
        Greeting::NoMemory => Begun::NoMemory,
    }
}
