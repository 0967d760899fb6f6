// The lines that answer a request.
ghost use Rattle.std.specs.Prelude.{◌≡◌, ◌∷◌, [], false, map, Some, IfOk, IsTrue};
ghost use Rattle.annex_model.specs.Lines.{has_newline};
ghost use Rattle.annex_model.specs.Messages.{remote_line, IsAskable, IsSayable};
ghost use Rattle.wire_msg.specs.Shown.{host_shown, remote_shown};
ghost use Rattle.kit_serve.specs.declared.kit.call.Said.TheVariants.{Yes, No, Failure};
ghost use Rattle.kit_serve.specs.Kit.Calls.{are_lines, is_line_said};
ghost use Rattle.kit_serve.specs.Kit.Kits.{final_line, final_lines, has_line_fields, set_lines};

use crate::kit::asides;
use crate::kit::call::Said;
use crate::kit::lists::Lines;
use ann_key::{Bytes, NoMemory};
use std::alloc::Global;
use wire_msg::{HostMsg, RemoteMsg, write_remote};

/// The message that the request failed, for this reason. Of a request that no remote works on it is UNSUPPORTED-REQUEST.
pub fn failed<'a>(request: HostMsg<'a>, text: &'a [u8]) -> RemoteMsg<'a>
    ensures line { remote_shown result ≡ final_line (Some (host_shown request.entry)) (Failure text.entry.now) }
    ensures sayable { IsAskable (host_shown request.entry) → IsSayable (remote_shown result) }
{
    match request {
        HostMsg::Prepare => RemoteMsg::PrepareFailure(text),
        HostMsg::Initremote => RemoteMsg::InitremoteFailure(text),
        HostMsg::Transfer(store, key, _) => RemoteMsg::TransferFailure(store, key, text),
        HostMsg::Checkpresent(key) => RemoteMsg::CheckpresentUnknown(key, text),
        HostMsg::Remove(key) => RemoteMsg::RemoveFailure(key, text),
        _ => RemoteMsg::UnsupportedRequest,
    }
}

// The remote said no. Of a check that is an answer, else a failure without a reason.
fn refused<'a>(request: HostMsg<'a>) -> RemoteMsg<'a>
    ensures line { remote_shown result ≡ final_line (Some (host_shown request.entry)) No }
    ensures sayable { IsAskable (host_shown request.entry) → IsSayable (remote_shown result) }
{
    match request {
        HostMsg::Prepare => RemoteMsg::PrepareFailure(b""),
        HostMsg::Initremote => RemoteMsg::InitremoteFailure(b""),
        HostMsg::Transfer(store, key, _) => RemoteMsg::TransferFailure(store, key, b""),
        HostMsg::Checkpresent(key) => RemoteMsg::CheckpresentFailure(key),
        HostMsg::Remove(key) => RemoteMsg::RemoveFailure(key, b""),
        _ => RemoteMsg::UnsupportedRequest,
    }
}

fn done<'a>(request: HostMsg<'a>) -> RemoteMsg<'a>
    ensures line { remote_shown result ≡ final_line (Some (host_shown request.entry)) Yes }
    ensures sayable { IsAskable (host_shown request.entry) → IsSayable (remote_shown result) }
{
    match request {
        HostMsg::Prepare => RemoteMsg::PrepareSuccess,
        HostMsg::Initremote => RemoteMsg::InitremoteSuccess,
        HostMsg::Transfer(store, key, _) => RemoteMsg::TransferSuccess(store, key),
        HostMsg::Checkpresent(key) => RemoteMsg::CheckpresentSuccess(key),
        HostMsg::Remove(key) => RemoteMsg::RemoveSuccess(key),
        _ => RemoteMsg::UnsupportedRequest,
    }
}

// The message that answers the request, by what the remote said.
fn final_message<'a>(request: HostMsg<'a>, said: &'a Said) -> RemoteMsg<'a>
    ensures line { remote_shown result ≡ final_line (Some (host_shown request.entry)) said.entry.now }
    ensures sayable { IsAskable (host_shown request.entry) → IsSayable (remote_shown result) }
{
    match said {
        Said::Yes => done(request),
        Said::Set(_) => done(request),
        Said::No => refused(request),
        Said::Failure(text) => failed(request, text.view()),
    }
}

// The settings that the word sets, at INITREMOTE alone.
fn set_lines(alloc: Global, request: HostMsg<'_>, said: &Said) -> Result<Vec<Bytes>, NoMemory>
    requires text { IsTrue (is_line_said said.now) }
    ensures line { IfOk result (λ say. say.items ≡ map remote_line (set_lines (Some (host_shown request.entry)) said.now)) }
    ensures lines { IfOk result (λ say. IsTrue (are_lines say.items)) }
{
    match (request, said) {
        (HostMsg::Initremote, Said::Set(pairs)) => asides::set_lines(alloc, pairs.view()),
        _ => Ok(Vec::new(alloc)),
    }
}

/// The lines that answer the request, by what the remote said: where that sets settings, a line for each comes first. Where no line
/// ends in a field of the request, none does in these.
pub fn final_lines(alloc: Global, request: HostMsg<'_>, said: &Said) -> Result<Lines, NoMemory>
    requires askable { IsAskable (host_shown request) }
    requires text { IsTrue (is_line_said said.now) }
    ensures line { IfOk result (λ say. say ≡ map remote_line (final_lines (Some (host_shown request.entry)) said.now)) }
    ensures lines { IsTrue (has_line_fields (host_shown request.entry)) → IfOk result (λ say. IsTrue (are_lines say)) }
{
    let mut say = set_lines(alloc, request, said)?;
    let line = write_remote(alloc, &final_message(request, said))?;
    say.push(line)?;
    Ok(Lines::new(say))
}

// The one line of the message, in which no line ends.
pub(super) fn one_line(alloc: Global, message: &RemoteMsg<'_>) -> Result<Lines, NoMemory>
    requires sayable { IsSayable (remote_shown message.now) }
    requires line { has_newline (remote_line (remote_shown message.now)) ≡ false }
    ensures line { IfOk result (λ say. say ≡ remote_line (remote_shown message.now) ∷ []) }
    ensures lines { IfOk result (λ say. IsTrue (are_lines say)) }
{
    let line = write_remote(alloc, message)?;
    let mut list = Vec::new(alloc);
    list.push(line)?;
    Ok(Lines::new(list))
}
