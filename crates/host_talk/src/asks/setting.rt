// What a message sets.
ghost use Rattle.std.specs.Prelude.{◌≡◌, OnOk, OnErr, IsTrue};
ghost use Rattle.annex_model.specs.Messages.{IsSayable};
ghost use Rattle.journal_model.specs.Replies.{set_by, are_line_fields};
ghost use Rattle.wire_msg.specs.Shown.{remote_shown};

use ann_key::NoMemory;
use registers::Registers;
use wire_msg::RemoteMsg;

pub(crate) fn set(registers: &mut Registers, message: RemoteMsg<'_>) -> Result<(), NoMemory>
    requires class { IsSayable (remote_shown message) }
    requires lines { IsTrue (are_line_fields (remote_shown message)) }
    ensures set { OnOk result (registers.new ≡ set_by registers.old (remote_shown message.entry)) }
    ensures err { OnErr result (registers.new ≡ registers.old) }
{
    match message {
        RemoteMsg::Setconfig(name, value) => registers.set_config(name, value),
        RemoteMsg::Setcreds(setting, user, password) => registers.set_creds(
            setting, user, password,
        ),
        RemoteMsg::Setwanted(expression) => registers.set_wanted(expression),
        RemoteMsg::Setstate(key, value) => registers.set_state(key.text(), value),
        RemoteMsg::Seturlpresent(key, url) => registers.set_url(key.text(), url, true),
        RemoteMsg::Seturlmissing(key, url) => registers.set_url(key.text(), url, false),
        _ => Ok(()),
    }
}
