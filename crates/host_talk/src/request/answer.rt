// What one message is, as a line of an answer.
ghost use Rattle.std.specs.Prelude.{◌≡◌, ◌∷◌, [], List, ℕ, Some, None, true, false, if◌then◌else◌, bytes_eq};
ghost use Rattle.ann_key.specs.KeyRefs.{text_of};
ghost use Rattle.annex_model.specs.Messages.{AskExtensions, Prepare, Initremote, Transfer, Checkpresent, Remove, Getcost, Getavailability, Whereis};
ghost use Rattle.annex_model.specs.Messages.{Exportsupported, Transferexport, Checkpresentexport, Removeexport, Renameexport};
ghost use Rattle.annex_model.specs.Talks.{is_aside, is_same, is_unsupported, is_infofield, one_line};
ghost use Rattle.wire_msg.specs.Shown.{remote_shown};
ghost use Rattle.host_talk.specs.Request.Requests.{message_of};
ghost use Rattle.host_talk.specs.Request.Stages.{config_heard, info_heard};

use crate::request::request::Request;
use crate::request::talk::Heard;
use ann_key::{Key, KeyRef};
use annex_model::Final;
use wire_msg::RemoteMsg;

/// Whether it may be said in any request, which goes on.
pub fn is_aside(message: &RemoteMsg<'_>) -> bool
    ensures { result ≡ is_aside (remote_shown message.now) }
{
    match message {
        RemoteMsg::Progress(_)
        | RemoteMsg::Debug(_)
        | RemoteMsg::Info(_)
        | RemoteMsg::Dirhash(_)
        | RemoteMsg::DirhashLower(_)
        | RemoteMsg::Getconfig(_)
        | RemoteMsg::Setconfig(..)
        | RemoteMsg::Getcreds(_)
        | RemoteMsg::Setcreds(..)
        | RemoteMsg::Getuuid
        | RemoteMsg::Getgitdir
        | RemoteMsg::Getgitremotename
        | RemoteMsg::Getwanted
        | RemoteMsg::Setwanted(_)
        | RemoteMsg::Getstate(_)
        | RemoteMsg::Setstate(..)
        | RemoteMsg::Seturlpresent(..)
        | RemoteMsg::Seturlmissing(..)
        | RemoteMsg::Geturls(..) => true,
        _ => false,
    }
}

pub(super) fn is_unsupported(message: &RemoteMsg<'_>) -> bool
    ensures { result ≡ is_unsupported (Some (remote_shown message.now) ∷ []) }
{
    match message {
        RemoteMsg::UnsupportedRequest => true,
        _ => false,
    }
}

pub(super) fn is_field(message: &RemoteMsg<'_>) -> bool
    ensures { result ≡ is_infofield (Some (remote_shown message.now)) }
{
    match message {
        RemoteMsg::Infofield(_) => true,
        _ => false,
    }
}

/// What it is in a list of configs.
pub(super) fn config(message: &RemoteMsg<'_>) -> Heard
    ensures { result ≡ config_heard (remote_shown message.now) }
{
    match message {
        RemoteMsg::Config(..) => Heard::Part,
        RemoteMsg::Configend => Heard::Settled(Final::Done),
        _ => Heard::Foul,
    }
}

fn value(message: &RemoteMsg<'_>) -> Heard
    ensures { result ≡ info_heard true (remote_shown message.now) }
{
    match message {
        RemoteMsg::Infovalue(_) => Heard::Part,
        _ => Heard::Foul,
    }
}

fn field_or_end(message: &RemoteMsg<'_>) -> Heard
    ensures { result ≡ info_heard false (remote_shown message.now) }
{
    match message {
        RemoteMsg::Infofield(_) => Heard::Part,
        RemoteMsg::Infoend => Heard::Settled(Final::Done),
        _ => Heard::Foul,
    }
}

/// What it is in a list of pairs, where a field awaits its value or not.
pub(super) fn info(half: bool, message: &RemoteMsg<'_>) -> Heard
    ensures { result ≡ info_heard half (remote_shown message.now) }
{
    if half {
        value(message)
    } else {
        field_or_end(message)
    }
}

fn same(one: &[u8], other: &[u8]) -> bool
    ensures { result ≡ bytes_eq one.now other.now }
{
    one == other
}

fn names(said: &KeyRef<'_>, key: &Key) -> bool
    ensures { result ≡ bytes_eq (text_of said.now) key.now }
{
    same(said.text(), key.view().text())
}

fn is_same(one: bool, other: bool) -> bool
    ensures { result ≡ is_same one other }
{
    one == other
}

fn last_if(holds: bool, last: Final) -> Option<Final>
    ensures { result ≡ (if holds then Some last else None) }
{
    if holds { Some(last) } else { None }
}

fn extensions(message: &RemoteMsg<'_>) -> Option<Final>
    ensures { (names : List ℕ) → result ≡ one_line (AskExtensions names) (remote_shown message.now) }
{
    match message {
        RemoteMsg::Extensions(_) => Some(Final::Done),
        _ => None,
    }
}

fn prepare(message: &RemoteMsg<'_>) -> Option<Final>
    ensures { result ≡ one_line Prepare (remote_shown message.now) }
{
    match message {
        RemoteMsg::PrepareSuccess => Some(Final::Done),
        RemoteMsg::PrepareFailure(_) => Some(Final::Failed),
        _ => None,
    }
}

fn init_remote(message: &RemoteMsg<'_>) -> Option<Final>
    ensures { result ≡ one_line Initremote (remote_shown message.now) }
{
    match message {
        RemoteMsg::InitremoteSuccess => Some(Final::Done),
        RemoteMsg::InitremoteFailure(_) => Some(Final::Failed),
        _ => None,
    }
}

fn transfer(store: bool, key: &Key, message: &RemoteMsg<'_>) -> Option<Final>
    ensures plain { (file : List ℕ) → result ≡ one_line (Transfer store key.now file) (remote_shown message.now) }
    ensures exported { (file : List ℕ) → result ≡ one_line (Transferexport store key.now file) (remote_shown message.now) }
{
    match message {
        RemoteMsg::TransferSuccess(direction, said) => {
            last_if(is_same(*direction, store) && names(said, key), Final::Done)
        }
        RemoteMsg::TransferFailure(direction, said, _) => {
            last_if(
                is_same(*direction, store) && names(said, key),
                Final::Failed,
            )
        }
        _ => None,
    }
}

fn check_present(key: &Key, message: &RemoteMsg<'_>) -> Option<Final>
    ensures plain { result ≡ one_line (Checkpresent key.now) (remote_shown message.now) }
    ensures exported { result ≡ one_line (Checkpresentexport key.now) (remote_shown message.now) }
{
    match message {
        RemoteMsg::CheckpresentSuccess(said) => last_if(names(said, key), Final::Done),
        RemoteMsg::CheckpresentFailure(said) => last_if(names(said, key), Final::Absent),
        RemoteMsg::CheckpresentUnknown(said, _) => last_if(names(said, key), Final::Unknown),
        _ => None,
    }
}

fn remove(key: &Key, message: &RemoteMsg<'_>) -> Option<Final>
    ensures plain { result ≡ one_line (Remove key.now) (remote_shown message.now) }
    ensures exported { result ≡ one_line (Removeexport key.now) (remote_shown message.now) }
{
    match message {
        RemoteMsg::RemoveSuccess(said) => last_if(names(said, key), Final::Done),
        RemoteMsg::RemoveFailure(said, _) => last_if(names(said, key), Final::Failed),
        _ => None,
    }
}

fn cost(message: &RemoteMsg<'_>) -> Option<Final>
    ensures { result ≡ one_line Getcost (remote_shown message.now) }
{
    match message {
        RemoteMsg::Cost(_) => Some(Final::Done),
        _ => None,
    }
}

fn availability(message: &RemoteMsg<'_>) -> Option<Final>
    ensures { result ≡ one_line Getavailability (remote_shown message.now) }
{
    match message {
        RemoteMsg::Availability(_) => Some(Final::Done),
        _ => None,
    }
}

fn where_is(message: &RemoteMsg<'_>) -> Option<Final>
    ensures { (key : List ℕ) → result ≡ one_line (Whereis key) (remote_shown message.now) }
{
    match message {
        RemoteMsg::WhereisSuccess(_) => Some(Final::Done),
        RemoteMsg::WhereisFailure => Some(Final::Absent),
        _ => None,
    }
}

fn export_supported(message: &RemoteMsg<'_>) -> Option<Final>
    ensures { result ≡ one_line Exportsupported (remote_shown message.now) }
{
    match message {
        RemoteMsg::ExportsupportedSuccess => Some(Final::Done),
        RemoteMsg::ExportsupportedFailure => Some(Final::Absent),
        _ => None,
    }
}

fn rename(key: &Key, message: &RemoteMsg<'_>) -> Option<Final>
    ensures { (onto : List ℕ) → result ≡ one_line (Renameexport key.now onto) (remote_shown message.now) }
{
    match message {
        RemoteMsg::RenameexportSuccess(said) => last_if(names(said, key), Final::Done),
        RemoteMsg::RenameexportFailure(said) => last_if(names(said, key), Final::Failed),
        _ => None,
    }
}

/// What it says as the whole answer to the request, where that has one line.
pub(super) fn one_line(request: &Request, message: &RemoteMsg<'_>) -> Option<Final>
    ensures { result ≡ one_line (message_of request.now) (remote_shown message.now) }
{
    match request {
        Request::Extensions { .. } => extensions(message),
        Request::Prepare => prepare(message),
        Request::InitRemote => init_remote(message),
        Request::GetCost => cost(message),
        Request::GetAvailability => availability(message),
        Request::Transfer { store, key, .. } => transfer(*store, key, message),
        Request::CheckPresent { key } => check_present(key, message),
        Request::Remove { key } => remove(key, message),
        Request::WhereIs { .. } => where_is(message),
        Request::ExportSupported => export_supported(message),
        Request::TransferExport { store, key, .. } => transfer(*store, key, message),
        Request::CheckExport { key, .. } => check_present(key, message),
        Request::RemoveExport { key, .. } => remove(key, message),
        Request::RenameExport { key, .. } => rename(key, message),
        Request::ListConfigs | Request::GetInfo => None,
    }
}
