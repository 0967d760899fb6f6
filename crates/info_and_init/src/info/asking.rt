// Asking a remote about itself, over a link to it.
ghost use Rattle.std.specs.Prelude.{◌≡◌, ◌⊎◌, [], true, false, map, IfOk, IfSome, option_map};
ghost use Rattle.std.specs.List.{list_all};
ghost use Rattle.ann_key.specs.KeyRefs.{text_of};
ghost use Rattle.annex_model.specs.Messages.{is_sent_key};
ghost use Rattle.journal_model.specs.Legality.{Legal};
ghost use Rattle.host_talk.specs.Request.Requests.{message_of};
ghost use Rattle.child_link.specs.Alone.{KeepsLink};
ghost use Rattle.child_link.specs.Doors.{IsSameDoor};
ghost use Rattle.child_life.specs.Start.Cores.{IsSameCore};
ghost use Rattle.child_life.specs.Start.Greetings.{Greeted, IsReady};
ghost use Rattle.child_life.specs.Start.Stages.{IsMain};
ghost use Rattle.info_and_init.specs.Info.Infos.{questions};
ghost use Rattle.info_and_init.specs.Info.Askings.{AsksFront, IsAnswered, HasFailed, is_question, MayGoOn};

use crate::info::informed::is_final;
use ann_key::{Key, KeyRef, NoMemory};
use ann_outside::{Sink, Source};
use child_link::{Door, Lone, OwnDoor};
use host_core::Core;
use host_talk::request::Request;
use std::alloc::Global;

fn requests(alloc: Global, key: Option<KeyRef<'_>>) -> Result<Vec<Request>, NoMemory>
    ensures { IfOk result (λ v. map message_of v.items ≡ questions (option_map text_of key.entry)) }
{
    let mut requests = Vec::new(alloc);
    requests.push(Request::ListConfigs)?;
    requests.push(Request::GetCost)?;
    requests.push(Request::GetAvailability)?;
    requests.push(Request::GetInfo)?;
    requests.push(Request::ExportSupported)?;
    if let Some(key) = key {
        let key = Key::copy(alloc, key)?;
        requests.push(Request::WhereIs { key })?;
    }
    Ok(requests)
}

// Asks one request after the other, until one isn't answered by a line.
fn ask_each<I: Sink, O: Source, D: Door>(
    link: &mut Lone<I, O>,
    door: &mut D,
    requests: &[Request],
) -> Result<(), NoMemory>
    requires main { IsMain (D.view door.old).number (D.view door.old).alone }
    requires legal { Legal (D.view door.old).opening (D.view door.old).seen }
    requires questions { list_all is_question (map message_of requests.now) ≡ true }
    requires begins { MayGoOn [] (D.view door.old).seen (D.view door.old).seen link.old.ear.child }
    ensures asks { AsksFront (map message_of requests.now) (D.view door.old).seen (D.view door.new).seen link.old.ear.child }
    ensures comes { IfOk result (λ _. IsAnswered (map message_of requests.now) (D.view door.old).seen (D.view door.new).seen link.old.ear.child ⊎ HasFailed (D.view door.new).seen link.old.ear.child) }
    ensures link { KeepsLink (D.view door.old).seen (D.view door.new).seen link.old.ear link.new.ear link.old.mouth link.new.mouth }
    ensures door { IsSameDoor (D.view door.old) (D.view door.new) }
{
    for request in requests {
        let verdict = link.ask_alone(door, 0, request)?;
        if !is_final(verdict) {
            return Ok(());
        }
    }
    Ok(())
}

// The same through the main thread's own door.
fn ask_over<I: Sink, O: Source>(
    link: &mut Lone<I, O>,
    core: &mut Core,
    requests: &[Request],
) -> Result<(), NoMemory>
    requires legal { Legal core.old.opening core.old.journal }
    requires questions { list_all is_question (map message_of requests.now) ≡ true }
    requires begins { MayGoOn [] core.old.journal core.old.journal link.old.ear.child }
    ensures asks { AsksFront (map message_of requests.now) core.old.journal core.new.journal link.old.ear.child }
    ensures comes { IfOk result (λ _. IsAnswered (map message_of requests.now) core.old.journal core.new.journal link.old.ear.child ⊎ HasFailed core.new.journal link.old.ear.child) }
    ensures link { KeepsLink core.old.journal core.new.journal link.old.ear link.new.ear link.old.mouth link.new.mouth }
    ensures core { IsSameCore core.old core.new }
{
    let mut door = OwnDoor { core };
    let asked = ask_each(link, &mut door, requests);
    let OwnDoor { core: _ } = door;
    asked
}

/// Asks a child that is ready about itself, and for the key where one is given: one question after the other, until one
/// isn't answered by a line. Where no memory is found, the questions so far were answered.
pub(crate) fn ask_all<I: Sink, O: Source>(
    alloc: Global,
    link: &mut Lone<I, O>,
    core: &mut Core,
    key: Option<KeyRef<'_>>,
) -> Result<(), NoMemory>
    requires legal { Legal core.old.opening core.old.journal }
    requires key { IfSome key (λ k. is_sent_key (text_of k) ≡ true) }
    requires greeted { Greeted [] core.old.journal 0 false link.old.ear.child }
    requires ready { IsReady core.old.journal link.old.ear.child }
    ensures asks { AsksFront (questions (option_map text_of key.entry)) core.old.journal core.new.journal link.old.ear.child }
    ensures comes { IfOk result (λ _. IsAnswered (questions (option_map text_of key.entry)) core.old.journal core.new.journal link.old.ear.child ⊎ HasFailed core.new.journal link.old.ear.child) }
    ensures link { KeepsLink core.old.journal core.new.journal link.old.ear link.new.ear link.old.mouth link.new.mouth }
    ensures core { IsSameCore core.old core.new }
{
    let requests = requests(alloc, key)?;
    ask_over(link, core, &requests)
}
