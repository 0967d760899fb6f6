// What a mirror asks of its children.
ghost use Rattle.std.specs.Prelude.{◌≡◌, not, true, IfOk, IsTrue};
ghost use Rattle.ann_key.specs.KeyRefs.{text_of};
ghost use Rattle.annex_model.specs.Lines.{has_newline};
ghost use Rattle.annex_model.specs.Messages.{is_sent_key, Transfer, Checkpresent, Remove};
ghost use Rattle.host_talk.specs.Request.Requests.{message_of};
ghost use Rattle.mirror_children.specs.Rule.{is_mirrored};

use ann_key::{Key, KeyRef, NoMemory, Text};
use host_talk::request::Request;
use std::alloc::Global;

/// To store the content of a key, or to retrieve it.
pub(crate) fn transfer_of(
    alloc: Global,
    store: bool,
    key: KeyRef<'_>,
    file: &str,
) -> Result<Request, NoMemory>
    requires key { IsTrue (is_sent_key (text_of key)) }
    requires line { IsTrue (not (has_newline file.now)) }
    ensures is { IfOk result (λ q. message_of q ≡ Transfer store (text_of key.entry) file.now) }
    ensures mirrored { IfOk result (λ q. is_mirrored (message_of q) ≡ true) }
{
    let key = Key::copy(alloc, key)?;
    let file = Text::copy(alloc, file)?;
    Ok(Request::Transfer { store, key, file })
}

/// Whether the content of a key is there.
pub(crate) fn check_of(alloc: Global, key: KeyRef<'_>) -> Result<Request, NoMemory>
    requires key { IsTrue (is_sent_key (text_of key)) }
    ensures is { IfOk result (λ q. message_of q ≡ Checkpresent (text_of key.entry)) }
    ensures mirrored { IfOk result (λ q. is_mirrored (message_of q) ≡ true) }
{
    let key = Key::copy(alloc, key)?;
    Ok(Request::CheckPresent { key })
}

/// To remove the content of a key.
pub(crate) fn remove_of(alloc: Global, key: KeyRef<'_>) -> Result<Request, NoMemory>
    requires key { IsTrue (is_sent_key (text_of key)) }
    ensures is { IfOk result (λ q. message_of q ≡ Remove (text_of key.entry)) }
    ensures mirrored { IfOk result (λ q. is_mirrored (message_of q) ≡ true) }
{
    let key = Key::copy(alloc, key)?;
    Ok(Request::Remove { key })
}
