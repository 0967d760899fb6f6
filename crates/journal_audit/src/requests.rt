// The text of an entry's line, and requests: one that a line asks after a name, and one that may be asked next.
ghost use Rattle.std.specs.Prelude.{ℕ, ◌≡◌, [], true, false, IfOk, IfSome, IsNone, length, option_and_then, option_map};
ghost use Rattle.std.specs.Str.{is_utf8};
ghost use Rattle.annex_model.specs.Messages.{is_sent_key, host_reading};
ghost use Rattle.journal_model.specs.Journal.{addressed};
ghost use Rattle.wire_msg.specs.Shown.{host_shown};
ghost use Rattle.journal_model.specs.Legality.{MayStand};
ghost use Rattle.journal_model.specs.declared.entry.What.TheVariants.{Lead};
ghost use Rattle.journal_audit.specs.Replays.{AsksAfter, MayBeNext, Says, name_in};

use ann_key::{Key, KeyRef, NoMemory, Text};
use host_core::Core;
use host_talk::request::Request;
use journal_look::{Journal, is_offered, next_job};
use std::alloc::Global;
use std::str;
use wire_msg::{HostMsg, read_host, untag};

/// The text of a line of the child, without its tag.
pub(super) fn text_of<'a>(core: &Core, child: u32, line: &'a [u8]) -> &'a [u8]
    ensures { result.now ≡ (addressed core.now.journal child line.entry.now).1 }
{
    if !core.tagged(child) {
        return line;
    }
    match untag(line) {
        Some((_, text)) => text,
        None => line,
    }
}

/// The name that the message says.
fn exported<'a>(message: &HostMsg<'a>) -> Option<&'a [u8]>
    ensures { option_map (λ n. n.now) result ≡ name_in (host_shown message.now) }
{
    match message {
        HostMsg::Export(name) => Some(name),
        _ => None,
    }
}

/// The name that the line says to the child, where it says one.
fn name_said<'a>(core: &Core, child: u32, line: &'a [u8]) -> Option<&'a [u8]>
    ensures { option_map (λ n. n.now) result ≡ option_and_then name_in (host_reading (addressed core.now.journal child line.entry.now).1) }
{
    match read_host(text_of(core, child, line)) {
        Some(message) => exported(&message),
        None => None,
    }
}

/// The text; None where the bytes are none.
#[tactic(auto, using(host_talk::proofs::RequestLemmas::Reading::no_text))]
fn text(alloc: Global, bytes: &[u8]) -> Result<Option<Text>, NoMemory>
    ensures same { IfOk result (λ r. IfSome r (λ t. t ≡ bytes.now)) }
    ensures none { IfOk result (λ r. IsNone r → is_utf8 bytes.now ≡ false) }
{
    match str::from_utf8(bytes) {
        Ok(text) => Ok(Some(Text::copy(alloc, text)?)),
        Err(_) => Ok(None),
    }
}

/// The same as text. None where the line may not stand as one that says a name.
pub(super) fn name_text(
    alloc: Global,
    core: &Core,
    child: u32,
    line: &[u8],
) -> Result<Option<Text>, NoMemory>
    ensures some { IfOk result (λ r. IfSome r (λ name. Says core.now.journal child line.now name)) }
    ensures none { IfOk result (λ r. IsNone r → (by job : ℕ) → MayStand core.now.opening core.now.journal [] (record { by = by; what = Lead child job line.now }) → ⊥) }
{
    match name_said(core, child, line) {
        Some(name) => text(alloc, name),
        None => Ok(None),
    }
}

/// The request that the line asks of the child after the name.
pub(super) fn asked_after(
    alloc: Global,
    core: &Core,
    child: u32,
    name: &Text,
    line: &[u8],
) -> Result<Option<Request>, NoMemory>
    ensures { IfOk result (AsksAfter name.now (host_reading (addressed core.now.journal child line.now).1)) }
{
    let Some(message) = read_host(text_of(core, child, line)) else {
        return Ok(None);
    };
    let name = Text::copy(alloc, name.view())?;
    match Request::read(alloc, &message)? {
        Some(request) => Ok(request.with_name(name)),
        None => Ok(None),
    }
}

/// A key that can stand in a request.
pub(super) fn some_key(alloc: Global) -> Result<Key, NoMemory>
    ensures { IfOk result (λ key. is_sent_key key ≡ true) }
{
    match KeyRef::read(b"WORM--a") {
        Ok(key) => Key::copy(alloc, key),
        Err(_) => unreachable!(),
    }
}

/// A request that is the one of its turn as the child's next job.
pub(super) fn some_request(
    alloc: Global,
    journal: &Journal,
    child: u32,
) -> Result<Request, NoMemory>
    ensures { IfOk result (MayBeNext journal.now.entries child) }
{
    match next_job(journal, child) {
        0 => Ok(Request::Extensions {
            offer: is_offered(journal, child),
        }),
        1 => Ok(Request::Prepare),
        _ => {
            let key = some_key(alloc)?;
            Ok(Request::CheckPresent { key })
        }
    }
}
