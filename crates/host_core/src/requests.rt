// Which request may be asked next.
ghost use Rattle.std.specs.Prelude.{◌≡◌, bytes_eq};
ghost use Rattle.annex_model.specs.Extensions.{names_of};
ghost use Rattle.annex_model.specs.Messages.{is_sent_key, is_askable};
ghost use Rattle.journal_model.specs.Legality.{suits_child, is_in_turn, is_text};
ghost use Rattle.host_talk.specs.Request.Requests.{message_of, name_of};
ghost use Rattle.host_core.specs.Steps.{may_request, is_named_well};

use ann_key::{Key, has_byte};
use host_talk::request::Request;
use journal_look::{Journal, is_offered, is_started, may_ask, next_job};
use std::str;

// Whether the names of an EXTENSIONS that offers ASYNC or not are those that the child is told.
fn are_offered(offer: bool, offered: bool) -> bool
    ensures { result ≡ bytes_eq (names_of offer) (names_of offered) }
{
    match (offer, offered) {
        (true, true) => true,
        (false, false) => true,
        (true, false) => false,
        (false, true) => false,
    }
}

/// Whether the bytes are text on one line.
fn is_text(file: &[u8]) -> bool
    ensures { result ≡ is_text file.now }
{
    match str::from_utf8(file) {
        Ok(_) => !has_byte(file, b'\n'),
        Err(_) => false,
    }
}

/// Whether the request's names are those that the child is told, and its files are named by text on one line.
fn suits_child(journal: &Journal, child: u32, request: &Request) -> bool
    ensures { result ≡ suits_child journal.now.entries child (message_of request.now) }
{
    match request {
        Request::Extensions { offer } => { are_offered(*offer, is_offered(journal, child)) }
        Request::Transfer { file, .. } | Request::TransferExport { file, .. } => {
            is_text(file.view().as_bytes())
        }
        Request::RenameExport { onto, .. } => is_text(onto.view().as_bytes()),
        _ => true,
    }
}

/// Whether the name that is said before the request, where one is, is text on one line.
pub(super) fn is_named_well(request: &Request) -> bool
    ensures { result ≡ is_named_well (name_of request.now) }
{
    match request.name() {
        Some(name) => is_text(name.view().as_bytes()),
        None => true,
    }
}

/// Whether the request may be asked as this job of the child.
fn is_in_turn(journal: &Journal, child: u32, job: u64, request: &Request) -> bool
    ensures { result ≡ is_in_turn journal.now.entries child job (message_of request.now) }
{
    request.turn().is_at(job) && suits_child(journal, child, request)
}

/// Whether the key can stand in a message.
fn is_sent_key(key: &Key) -> bool
    ensures { result ≡ is_sent_key key.now }
{
    !has_byte(key.view().text(), b' ')
}

/// Whether each field of the request is of its class.
fn is_askable(request: &Request) -> bool
    ensures { result ≡ is_askable (message_of request.now) }
{
    match request {
        Request::Transfer { key, .. } => is_sent_key(key),
        Request::CheckPresent { key } => is_sent_key(key),
        Request::Remove { key } => is_sent_key(key),
        Request::WhereIs { key } => is_sent_key(key),
        Request::TransferExport { key, .. } => is_sent_key(key),
        Request::CheckExport { key, .. } => is_sent_key(key),
        Request::RemoveExport { key, .. } => is_sent_key(key),
        Request::RenameExport { key, .. } => is_sent_key(key),
        _ => true,
    }
}

/// Whether this request may.
pub(super) fn may_request(
    journal: &Journal,
    by: u32,
    task: u32,
    child: u32,
    request: &Request,
) -> bool
    ensures { result ≡ may_request journal.now.entries by task child (message_of request.now) }
{
    is_started(journal, child)
        && may_ask(journal, by, task, child)
        && is_in_turn(journal, child, next_job(journal, child) as u64, request)
        && is_askable(request)
}
