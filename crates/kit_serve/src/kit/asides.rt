// The answers to requests about a remote.
ghost use Rattle.std.specs.Prelude.{◌≡◌, ◌++◌, ◌∷◌, [], false, map, not, option_map, IsTrue, IfOk, OnOk, IfSome};
ghost use Rattle.std.specs.List.{list_all};
ghost use Rattle.annex_model.specs.Lines.{has_newline};
ghost use Rattle.annex_model.specs.Messages.{remote_line, Configend, Infoend, UnsupportedRequest, IsAskable, IsSayable};
ghost use Rattle.wire_msg.specs.Shown.{host_shown, remote_shown};
ghost use Rattle.kit_serve.specs.Kit.Calls.{are_lines};
ghost use Rattle.kit_serve.specs.Kit.Descriptions.{all_messages, aside_lines, availability_message, config_message, cost_message, info_messages, is_config, is_pair, is_where, list_messages, set_message, where_message};

use crate::kit::describe::{Availability, Describe, Pair, Where};
use crate::kit::finals::one_line;
use crate::kit::lists::Lines;
use ann_key::{Bytes, NoMemory};
use std::alloc::Global;
use wire_msg::{HostMsg, RemoteMsg, write_remote};

// One line more.
fn push(alloc: Global, lines: &mut Vec<Bytes>, message: &RemoteMsg<'_>) -> Result<(), NoMemory>
    requires sayable { IsSayable (remote_shown message.now) }
    requires line { has_newline (remote_line (remote_shown message.now)) ≡ false }
    ensures line { OnOk result (lines.new.items ≡ lines.old.items ++ remote_line (remote_shown message.now) ∷ []) }
    ensures lines { OnOk result (IsTrue (are_lines lines.old.items) → IsTrue (are_lines lines.new.items)) }
{
    let line = write_remote(alloc, message)?;
    lines.push(line)?;
    Ok(())
}

// The settings.
fn config_lines(alloc: Global, pairs: &[Pair]) -> Result<Vec<Bytes>, NoMemory>
    requires { IsTrue (list_all is_config pairs.now) }
    ensures line { IfOk result (λ say. say.items ≡ map remote_line (all_messages config_message pairs.now)) }
    ensures lines { IfOk result (λ say. IsTrue (are_lines say.items)) }
{
    let mut say = Vec::new(alloc);
    for pair in pairs {
        let message = RemoteMsg::Config(pair.name.view(), pair.text.view());
        push(alloc, &mut say, &message)?;
    }
    Ok(say)
}

// The settings that are set.
pub(super) fn set_lines(alloc: Global, pairs: &[Pair]) -> Result<Vec<Bytes>, NoMemory>
    requires { IsTrue (list_all is_config pairs.now) }
    ensures line { IfOk result (λ say. say.items ≡ map remote_line (all_messages set_message pairs.now)) }
    ensures lines { IfOk result (λ say. IsTrue (are_lines say.items)) }
{
    let mut say = Vec::new(alloc);
    for pair in pairs {
        let message = RemoteMsg::Setconfig(pair.name.view(), pair.text.view());
        push(alloc, &mut say, &message)?;
    }
    Ok(say)
}

// The facts.
fn info_lines(alloc: Global, pairs: &[Pair]) -> Result<Vec<Bytes>, NoMemory>
    requires { IsTrue (list_all is_pair pairs.now) }
    ensures line { IfOk result (λ say. say.items ≡ map remote_line (all_messages info_messages pairs.now)) }
    ensures lines { IfOk result (λ say. IsTrue (are_lines say.items)) }
{
    let mut say = Vec::new(alloc);
    for pair in pairs {
        push(alloc, &mut say, &RemoteMsg::Infofield(pair.name.view()))?;
        push(alloc, &mut say, &RemoteMsg::Infovalue(pair.text.view()))?;
    }
    Ok(say)
}

/// The line UNSUPPORTED-REQUEST: the answer to a line that spells no message, and to a request about a remote that says nothing of it.
pub fn unsupported(alloc: Global) -> Result<Lines, NoMemory>
    ensures line { IfOk result (λ say. say ≡ remote_line UnsupportedRequest ∷ []) }
    ensures lines { IfOk result (λ say. IsTrue (are_lines say)) }
{
    one_line(alloc, &RemoteMsg::UnsupportedRequest)
}

fn configs(alloc: Global, pairs: &[Pair]) -> Result<Lines, NoMemory>
    requires { IsTrue (list_all is_config pairs.now) }
    ensures line { IfOk result (λ say. say ≡ map remote_line (list_messages config_message Configend pairs.now)) }
    ensures lines { IfOk result (λ say. IsTrue (are_lines say)) }
{
    if pairs.is_empty() {
        return unsupported(alloc);
    }
    let mut say = config_lines(alloc, pairs)?;
    push(alloc, &mut say, &RemoteMsg::Configend)?;
    Ok(Lines::new(say))
}

fn info(alloc: Global, pairs: &[Pair]) -> Result<Lines, NoMemory>
    requires { IsTrue (list_all is_pair pairs.now) }
    ensures line { IfOk result (λ say. say ≡ map remote_line (list_messages info_messages Infoend pairs.now)) }
    ensures lines { IfOk result (λ say. IsTrue (are_lines say)) }
{
    if pairs.is_empty() {
        return unsupported(alloc);
    }
    let mut say = info_lines(alloc, pairs)?;
    push(alloc, &mut say, &RemoteMsg::Infoend)?;
    Ok(Lines::new(say))
}

fn cost(alloc: Global, cost: Option<u64>) -> Result<Lines, NoMemory>
    ensures line { IfOk result (λ say. say ≡ remote_line (cost_message cost) ∷ []) }
    ensures lines { IfOk result (λ say. IsTrue (are_lines say)) }
{
    match cost {
        Some(number) => one_line(alloc, &RemoteMsg::Cost(number)),
        None => unsupported(alloc),
    }
}

fn availability(alloc: Global, availability: Option<Availability>) -> Result<Lines, NoMemory>
    ensures line { IfOk result (λ say. say ≡ remote_line (availability_message availability) ∷ []) }
    ensures lines { IfOk result (λ say. IsTrue (are_lines say)) }
{
    match availability {
        Some(Availability::Global) => one_line(alloc, &RemoteMsg::Availability(true)),
        Some(Availability::Local) => one_line(alloc, &RemoteMsg::Availability(false)),
        None => unsupported(alloc),
    }
}

fn place(alloc: Global, place: &Where) -> Result<Lines, NoMemory>
    requires { IsTrue (is_where place.now) }
    ensures line { IfOk result (λ say. say ≡ remote_line (where_message place.now) ∷ []) }
    ensures lines { IfOk result (λ say. IsTrue (are_lines say)) }
{
    match place {
        Where::Untold => unsupported(alloc),
        Where::Nowhere => one_line(alloc, &RemoteMsg::WhereisFailure),
        Where::At(text) => one_line(alloc, &RemoteMsg::WhereisSuccess(text.view())),
    }
}

/// The lines that answer a request about the remote. A line that spells no message, None, and any other request are told that they
/// aren't supported.
pub fn aside<R: Describe>(
    alloc: Global,
    remote: &R,
    request: Option<HostMsg<'_>>,
) -> Result<Lines, NoMemory>
    requires askable { IfSome request (λ m. IsAskable (host_shown m)) }
    ensures line { IfOk result (λ say. say ≡ aside_lines (R.description remote.now) (option_map host_shown request.entry)) }
    ensures lines { IfOk result (λ say. IsTrue (are_lines say)) }
{
    let Some(message) = request else {
        return unsupported(alloc);
    };
    match message {
        HostMsg::Listconfigs => configs(alloc, remote.configs(alloc)?.as_slice()),
        HostMsg::Getcost => cost(alloc, remote.cost()),
        HostMsg::Getavailability => availability(alloc, remote.availability()),
        HostMsg::Getinfo => info(alloc, remote.info(alloc)?.as_slice()),
        HostMsg::Whereis(key) => place(alloc, &remote.whereis(alloc, key)?),
        _ => unsupported(alloc),
    }
}
