// What a remote is asked about itself.
ghost use Rattle.std.specs.Prelude.{◌≡◌, ◌≤◌, IfOk, length, map, option_map};
ghost use Rattle.ann_key.specs.KeyRefs.{text_of};
ghost use Rattle.wire_msg.specs.Shown.{host_shown};
ghost use Rattle.info_and_init.specs.Info.Infos.{questions};

use ann_key::{KeyRef, NoMemory};
use std::alloc::Global;
use wire_msg::HostMsg;

/// The questions in the order of their jobs; where a key is given, the last asks for it.
pub(super) fn questions(
    alloc: Global,
    key: Option<KeyRef<'_>>,
) -> Result<Vec<HostMsg<'_>>, NoMemory>
    ensures questions { IfOk result (λ v. map host_shown v.items ≡ questions (option_map text_of key.entry)) }
    ensures few { IfOk result (λ v. length v.items ≤ 6) }
{
    let mut questions = Vec::with_capacity(alloc, 6)?;
    questions.push_reserved(HostMsg::Listconfigs);
    questions.push_reserved(HostMsg::Getcost);
    questions.push_reserved(HostMsg::Getavailability);
    questions.push_reserved(HostMsg::Getinfo);
    questions.push_reserved(HostMsg::Exportsupported);
    if let Some(key) = key {
        questions.push_reserved(HostMsg::Whereis(key));
    }
    Ok(questions)
}
