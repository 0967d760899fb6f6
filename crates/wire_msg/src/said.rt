// What a remote says, as it is written.
ghost use Rattle.std.specs.Prelude.{◌≡◌, IfOk, Some};
ghost use Rattle.annex_model.specs.Messages.{remote_row, remote_line, remote_reading, text_in, IsSayable};
ghost use Rattle.wire_msg.specs.Shown.{remote_shown, params_shown};

use crate::parameters;
use crate::parameters::Parameters;
use crate::remote::RemoteMsg;
use ann_key::{Bytes, NoMemory};
use std::alloc::Global;

/// The canonical line of the message, without byte 10. Its fields are of their classes.
pub fn write_remote(alloc: Global, message: &RemoteMsg<'_>) -> Result<Bytes, NoMemory>
    requires { IsSayable (remote_shown message.now) }
    ensures line { IfOk result (λ b. b ≡ remote_line (remote_shown message.now)) }
    ensures read { IfOk result (λ b. remote_reading b ≡ Some (remote_shown message.now)) }
{
    let line = parameters::line(alloc, word(message), parameters_of(*message))?;
    Ok(line)
}

/// The rest of the line that the message ends with, which is empty where it has none.
pub fn text_of<'a>(message: RemoteMsg<'a>) -> &'a [u8]
    ensures { result.now ≡ text_in (remote_shown message.entry) }
{
    parameters::rest_of(parameters_of(message))
}

fn parameters_of<'a>(message: RemoteMsg<'a>) -> Parameters<'a>
    ensures { params_shown result ≡ (remote_row (remote_shown message.entry)).1 }
{
    match message {
        RemoteMsg::UnsupportedRequest
        | RemoteMsg::Getuuid
        | RemoteMsg::Getgitdir
        | RemoteMsg::Getgitremotename
        | RemoteMsg::Getwanted
        | RemoteMsg::PrepareSuccess
        | RemoteMsg::InitremoteSuccess
        | RemoteMsg::Configend
        | RemoteMsg::Infoend
        | RemoteMsg::WhereisFailure
        | RemoteMsg::ExportsupportedSuccess
        | RemoteMsg::ExportsupportedFailure => Parameters::Bare,
        RemoteMsg::Version(number) | RemoteMsg::Progress(number) | RemoteMsg::Cost(number) =>
            Parameters::Number(number),
        RemoteMsg::Dirhash(key)
        | RemoteMsg::DirhashLower(key)
        | RemoteMsg::Getstate(key)
        | RemoteMsg::CheckpresentSuccess(key)
        | RemoteMsg::CheckpresentFailure(key)
        | RemoteMsg::RemoveSuccess(key)
        | RemoteMsg::RenameexportSuccess(key)
        | RemoteMsg::RenameexportFailure(key) => Parameters::Key(key),
        RemoteMsg::Extensions(rest)
        | RemoteMsg::Error(rest)
        | RemoteMsg::Debug(rest)
        | RemoteMsg::Info(rest)
        | RemoteMsg::Getconfig(rest)
        | RemoteMsg::Getcreds(rest)
        | RemoteMsg::Setwanted(rest)
        | RemoteMsg::PrepareFailure(rest)
        | RemoteMsg::InitremoteFailure(rest)
        | RemoteMsg::Infofield(rest)
        | RemoteMsg::Infovalue(rest)
        | RemoteMsg::WhereisSuccess(rest) => Parameters::Rest(rest),
        RemoteMsg::Availability(global) => Parameters::Scope(global),
        RemoteMsg::Setconfig(word, rest) | RemoteMsg::Config(word, rest) => Parameters::WordRest(
            word, rest,
        ),
        RemoteMsg::Setcreds(first, second, rest) => Parameters::WordsRest(first, second, rest),
        RemoteMsg::Setstate(key, rest)
        | RemoteMsg::Seturlpresent(key, rest)
        | RemoteMsg::Seturlmissing(key, rest)
        | RemoteMsg::Geturls(key, rest)
        | RemoteMsg::CheckpresentUnknown(key, rest)
        | RemoteMsg::RemoveFailure(key, rest) => Parameters::KeyRest(key, rest),
        RemoteMsg::TransferSuccess(store, key) => Parameters::Transfer(store, key),
        RemoteMsg::TransferFailure(store, key, rest) => Parameters::TransferRest(store, key, rest),
    }
}

fn word(message: &RemoteMsg<'_>) -> &'static [u8]
    ensures { result.now ≡ (remote_row (remote_shown message.now)).0 }
{
    match message {
        RemoteMsg::Version(_) => b"VERSION",
        RemoteMsg::Extensions(_) => b"EXTENSIONS",
        RemoteMsg::UnsupportedRequest => b"UNSUPPORTED-REQUEST",
        RemoteMsg::Error(_) => b"ERROR",
        RemoteMsg::Progress(_) => b"PROGRESS",
        RemoteMsg::Debug(_) => b"DEBUG",
        RemoteMsg::Info(_) => b"INFO",
        RemoteMsg::Dirhash(_) => b"DIRHASH",
        RemoteMsg::DirhashLower(_) => b"DIRHASH-LOWER",
        RemoteMsg::Getconfig(_) => b"GETCONFIG",
        RemoteMsg::Setconfig(_, _) => b"SETCONFIG",
        RemoteMsg::Getcreds(_) => b"GETCREDS",
        RemoteMsg::Setcreds(_, _, _) => b"SETCREDS",
        RemoteMsg::Getuuid => b"GETUUID",
        RemoteMsg::Getgitdir => b"GETGITDIR",
        RemoteMsg::Getgitremotename => b"GETGITREMOTENAME",
        RemoteMsg::Getwanted => b"GETWANTED",
        RemoteMsg::Setwanted(_) => b"SETWANTED",
        RemoteMsg::Getstate(_) => b"GETSTATE",
        RemoteMsg::Setstate(_, _) => b"SETSTATE",
        RemoteMsg::Seturlpresent(_, _) => b"SETURLPRESENT",
        RemoteMsg::Seturlmissing(_, _) => b"SETURLMISSING",
        RemoteMsg::Geturls(_, _) => b"GETURLS",
        RemoteMsg::PrepareSuccess => b"PREPARE-SUCCESS",
        RemoteMsg::PrepareFailure(_) => b"PREPARE-FAILURE",
        RemoteMsg::InitremoteSuccess => b"INITREMOTE-SUCCESS",
        RemoteMsg::InitremoteFailure(_) => b"INITREMOTE-FAILURE",
        RemoteMsg::TransferSuccess(_, _) => b"TRANSFER-SUCCESS",
        RemoteMsg::TransferFailure(_, _, _) => b"TRANSFER-FAILURE",
        RemoteMsg::CheckpresentSuccess(_) => b"CHECKPRESENT-SUCCESS",
        RemoteMsg::CheckpresentFailure(_) => b"CHECKPRESENT-FAILURE",
        RemoteMsg::CheckpresentUnknown(_, _) => b"CHECKPRESENT-UNKNOWN",
        RemoteMsg::RemoveSuccess(_) => b"REMOVE-SUCCESS",
        RemoteMsg::RemoveFailure(_, _) => b"REMOVE-FAILURE",
        RemoteMsg::Config(_, _) => b"CONFIG",
        RemoteMsg::Configend => b"CONFIGEND",
        RemoteMsg::Cost(_) => b"COST",
        RemoteMsg::Availability(_) => b"AVAILABILITY",
        RemoteMsg::Infofield(_) => b"INFOFIELD",
        RemoteMsg::Infovalue(_) => b"INFOVALUE",
        RemoteMsg::Infoend => b"INFOEND",
        RemoteMsg::WhereisSuccess(_) => b"WHEREIS-SUCCESS",
        RemoteMsg::WhereisFailure => b"WHEREIS-FAILURE",
        RemoteMsg::ExportsupportedSuccess => b"EXPORTSUPPORTED-SUCCESS",
        RemoteMsg::ExportsupportedFailure => b"EXPORTSUPPORTED-FAILURE",
        RemoteMsg::RenameexportSuccess(_) => b"RENAMEEXPORT-SUCCESS",
        RemoteMsg::RenameexportFailure(_) => b"RENAMEEXPORT-FAILURE",
    }
}
