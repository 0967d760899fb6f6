// What a message is owed, and what it sets.
ghost use Rattle.std.specs.Prelude.{◌≡◌, IfOk, OnOk, OnErr, IsTrue};
ghost use Rattle.annex_model.specs.Messages.{IsSayable};
ghost use Rattle.journal_model.specs.Replies.{values_of, replies_by, set_by, are_line_fields, IsLineIdentity};
ghost use Rattle.wire_msg.specs.Shown.{remote_shown};
ghost use Rattle.host_talk.specs.Asks.Lines.{are_lines};

use crate::asks::replies::Replies;
use crate::asks::{directories, lines, setting};
use ann_key::{Bytes, NoMemory};
use journal_model::Identity;
use registers::Registers;
use std::alloc::Global;
use wire_msg::RemoteMsg;

/// The lines that the message is owed, by what the registers held before it; after the call they hold what it sets. A message
/// that is no aside is owed nothing and sets nothing.
///
/// <https://git-annex.branchable.com/design/external_special_remote_protocol/> has the messages.
pub fn serve(
    alloc: Global,
    registers: &mut Registers,
    identity: &Identity,
    message: &RemoteMsg<'_>,
) -> Result<Replies, NoMemory>
    requires class { IsSayable (remote_shown message.now) }
    requires lines { IsTrue (are_line_fields (remote_shown message.now)) }
    requires identity { IsLineIdentity identity.now }
    ensures replies { IfOk result (λ r. r ≡ replies_by (values_of registers.old identity.now) (remote_shown message.now)) }
    ensures lines { IfOk result (λ r. IsTrue (are_lines r)) }
    ensures set { OnOk result (registers.new ≡ set_by registers.old (remote_shown message.now)) }
    ensures err { OnErr result (registers.new ≡ registers.old) }
{
    let replies = replies_to(alloc, registers, identity, message)?;
    set(registers, message)?;
    Ok(replies)
}

/// The lines that the message is owed, as `serve` gives them, where nothing is set.
pub fn replies_to(
    alloc: Global,
    registers: &Registers,
    identity: &Identity,
    message: &RemoteMsg<'_>,
) -> Result<Replies, NoMemory>
    requires { IsLineIdentity identity.now }
    ensures replies { IfOk result (λ r. r ≡ replies_by (values_of registers.now identity.now) (remote_shown message.now)) }
    ensures lines { IfOk result (λ r. IsTrue (are_lines r)) }
{
    let lines = lines_for(alloc, registers, identity, *message)?;
    Ok(Replies::new(lines))
}

/// What the message sets, as by `serve`.
pub fn set(registers: &mut Registers, message: &RemoteMsg<'_>) -> Result<(), NoMemory>
    requires class { IsSayable (remote_shown message.now) }
    requires lines { IsTrue (are_line_fields (remote_shown message.now)) }
    ensures set { OnOk result (registers.new ≡ set_by registers.old (remote_shown message.now)) }
    ensures err { OnErr result (registers.new ≡ registers.old) }
{
    setting::set(registers, *message)
}

fn lines_for(
    alloc: Global,
    registers: &Registers,
    identity: &Identity,
    message: RemoteMsg<'_>,
) -> Result<Vec<Bytes>, NoMemory>
    requires { IsLineIdentity identity.now }
    ensures replies { IfOk result (λ r. r.items ≡ replies_by (values_of registers.now identity.now) (remote_shown message.entry)) }
    ensures lines { IfOk result (λ r. IsTrue (are_lines r.items)) }
{
    match message {
        RemoteMsg::Dirhash(key) => lines::value(alloc, &directories::mixed(key)),
        RemoteMsg::DirhashLower(key) => lines::value(alloc, &directories::lower(key)),
        RemoteMsg::Getconfig(name) => lines::value(alloc, registers.config(name)),
        RemoteMsg::Getcreds(setting) => {
            let (user, password) = registers.creds(setting);
            lines::creds(alloc, user, password)
        }
        RemoteMsg::Getuuid => lines::value(alloc, identity.uuid.view().as_bytes()),
        RemoteMsg::Getgitdir => lines::value(alloc, identity.gitdir.view().as_bytes()),
        RemoteMsg::Getgitremotename => lines::value(alloc, identity.name.view().as_bytes()),
        RemoteMsg::Getwanted => lines::value(alloc, registers.wanted()),
        RemoteMsg::Getstate(key) => lines::value(alloc, registers.state(key.text())),
        RemoteMsg::Geturls(key, prefix) => lines::urls(alloc, registers, key.text(), prefix),
        _ => Ok(Vec::new(alloc)),
    }
}
