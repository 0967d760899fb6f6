ghost use Rattle.std.specs.Prelude.{◌≡◌, option_map, option_copied, MatchOption, IfOk, Some, drop};
ghost use Rattle.annex_model.specs.Messages.{host_reading, HostSpells, HostMessage, host_line, IsAskable, host_row, by_rows, host_rows, no_field};
ghost use Rattle.wire_msg.specs.Shown.{host_shown, params_shown};

use crate::parameters::Parameters;
use crate::{fields, parameters};
use ann_key::{Bytes, KeyRef, NoMemory};
use std::alloc::Global;

/// What the host says, by the command word of its line, with its parameters in their order: true for `STORE`.
#[derive(Clone, Copy)]
pub enum HostMsg<'a> {
    Extensions(&'a [u8]),
    Prepare,
    Initremote,
    Transfer(bool, KeyRef<'a>, &'a [u8]),
    Checkpresent(KeyRef<'a>),
    Remove(KeyRef<'a>),
    Listconfigs,
    Getcost,
    Getavailability,
    Getinfo,
    Whereis(KeyRef<'a>),
    // Of exports: the name that the next request is about, and the requests.
    Exportsupported,
    Export(&'a [u8]),
    Transferexport(bool, KeyRef<'a>, &'a [u8]),
    Checkpresentexport(KeyRef<'a>),
    Removeexport(KeyRef<'a>),
    Renameexport(KeyRef<'a>, &'a [u8]),
    // Replies.
    Value(&'a [u8]),
    Creds(&'a [u8], &'a [u8]),
    Error(&'a [u8]),
}

/// The message that the line spells; None exactly where it spells none. It takes no memory.
pub fn read_host(line: &[u8]) -> Option<HostMsg<'_>>
    ensures reading { option_map host_shown result ≡ host_reading line.now }
    ensures spelled { MatchOption result ((m : HostMessage) → HostSpells m line.now → ⊥) (λ m. HostSpells (host_shown m) line.now) }
{
    scan(line)
}

fn scan(line: &[u8]) -> Option<HostMsg<'_>>
    ensures { option_map host_shown result ≡ host_reading line.now }
{
    by_word(fields::word_of(line), fields::field_of(line))
}

// The requests of the greeting.
fn by_word<'a>(word: &'a [u8], field: Option<&'a [u8]>) -> Option<HostMsg<'a>>
    ensures { option_map host_shown result ≡ by_rows host_rows word.entry.now (option_copied field.entry) }
{
    if fields::is_word(word, b"EXTENSIONS") {
        return Some(HostMsg::Extensions(fields::rest(field)));
    }
    if fields::is_word(word, b"PREPARE") {
        return bare(HostMsg::Prepare, field);
    }
    if fields::is_word(word, b"INITREMOTE") {
        return bare(HostMsg::Initremote, field);
    }
    key_request(word, field)
}

// Those for a key.
fn key_request<'a>(word: &'a [u8], field: Option<&'a [u8]>) -> Option<HostMsg<'a>>
    ensures { option_map host_shown result ≡ by_rows (drop 3 host_rows) word.entry.now (option_copied field.entry) }
{
    if fields::is_word(word, b"TRANSFER") {
        let (store, key, file) = fields::transfer_rest(field)?;
        return Some(HostMsg::Transfer(store, key, file));
    }
    if fields::is_word(word, b"CHECKPRESENT") {
        return Some(HostMsg::Checkpresent(fields::key(field)?));
    }
    if fields::is_word(word, b"REMOVE") {
        return Some(HostMsg::Remove(fields::key(field)?));
    }
    about_request(word, field)
}

// Those about the remote itself, and where a key is.
fn about_request<'a>(word: &'a [u8], field: Option<&'a [u8]>) -> Option<HostMsg<'a>>
    ensures { option_map host_shown result ≡ by_rows (drop 6 host_rows) word.entry.now (option_copied field.entry) }
{
    if fields::is_word(word, b"LISTCONFIGS") {
        return bare(HostMsg::Listconfigs, field);
    }
    if fields::is_word(word, b"GETCOST") {
        return bare(HostMsg::Getcost, field);
    }
    if fields::is_word(word, b"GETAVAILABILITY") {
        return bare(HostMsg::Getavailability, field);
    }
    if fields::is_word(word, b"GETINFO") {
        return bare(HostMsg::Getinfo, field);
    }
    if fields::is_word(word, b"WHEREIS") {
        return Some(HostMsg::Whereis(fields::key(field)?));
    }
    export(word, field)
}

// What is said of exports.
fn export<'a>(word: &'a [u8], field: Option<&'a [u8]>) -> Option<HostMsg<'a>>
    ensures { option_map host_shown result ≡ by_rows (drop 11 host_rows) word.entry.now (option_copied field.entry) }
{
    if fields::is_word(word, b"EXPORTSUPPORTED") {
        return bare(HostMsg::Exportsupported, field);
    }
    if fields::is_word(word, b"EXPORT") {
        return Some(HostMsg::Export(fields::rest(field)));
    }
    export_request(word, field)
}

// The requests about the name that EXPORT said.
fn export_request<'a>(word: &'a [u8], field: Option<&'a [u8]>) -> Option<HostMsg<'a>>
    ensures { option_map host_shown result ≡ by_rows (drop 13 host_rows) word.entry.now (option_copied field.entry) }
{
    if fields::is_word(word, b"TRANSFEREXPORT") {
        let (store, key, file) = fields::transfer_rest(field)?;
        return Some(HostMsg::Transferexport(store, key, file));
    }
    if fields::is_word(word, b"CHECKPRESENTEXPORT") {
        return Some(HostMsg::Checkpresentexport(fields::key(field)?));
    }
    export_change(word, field)
}

// Those that take the name away.
fn export_change<'a>(word: &'a [u8], field: Option<&'a [u8]>) -> Option<HostMsg<'a>>
    ensures { option_map host_shown result ≡ by_rows (drop 15 host_rows) word.entry.now (option_copied field.entry) }
{
    if fields::is_word(word, b"REMOVEEXPORT") {
        return Some(HostMsg::Removeexport(fields::key(field)?));
    }
    if fields::is_word(word, b"RENAMEEXPORT") {
        let (key, onto) = fields::key_rest(field)?;
        return Some(HostMsg::Renameexport(key, onto));
    }
    reply(word, field)
}

// Replies.
fn reply<'a>(word: &'a [u8], field: Option<&'a [u8]>) -> Option<HostMsg<'a>>
    ensures { option_map host_shown result ≡ by_rows (drop 17 host_rows) word.entry.now (option_copied field.entry) }
{
    if fields::is_word(word, b"VALUE") {
        return Some(HostMsg::Value(fields::rest(field)));
    }
    if fields::is_word(word, b"CREDS") {
        let (user, password) = fields::word_rest(field)?;
        return Some(HostMsg::Creds(user, password));
    }
    if fields::is_word(word, b"ERROR") {
        return Some(HostMsg::Error(fields::rest(field)));
    }
    None
}

// The message has no parameters.
fn bare<'a>(message: HostMsg<'a>, field: Option<&'a [u8]>) -> Option<HostMsg<'a>>
    ensures { option_map host_shown result ≡ no_field (host_shown message.entry) (option_copied field.entry) }
{
    match field {
        Some(_) => None,
        None => Some(message),
    }
}

/// The canonical line of the message, without byte 10. Its fields are of their classes.
pub fn write_host(alloc: Global, message: &HostMsg<'_>) -> Result<Bytes, NoMemory>
    requires { IsAskable (host_shown message.now) }
    ensures line { IfOk result (λ b. b ≡ host_line (host_shown message.now)) }
    ensures read { IfOk result (λ b. host_reading b ≡ Some (host_shown message.now)) }
{
    let line = parameters::line(alloc, word(message), parameters_of(*message))?;
    Ok(line)
}

fn parameters_of<'a>(message: HostMsg<'a>) -> Parameters<'a>
    ensures { params_shown result ≡ (host_row (host_shown message.entry)).1 }
{
    match message {
        HostMsg::Prepare
        | HostMsg::Initremote
        | HostMsg::Listconfigs
        | HostMsg::Getcost
        | HostMsg::Getavailability
        | HostMsg::Getinfo
        | HostMsg::Exportsupported => Parameters::Bare,
        HostMsg::Checkpresent(key)
        | HostMsg::Remove(key)
        | HostMsg::Whereis(key)
        | HostMsg::Checkpresentexport(key)
        | HostMsg::Removeexport(key) => Parameters::Key(key),
        HostMsg::Extensions(rest)
        | HostMsg::Export(rest)
        | HostMsg::Value(rest)
        | HostMsg::Error(rest) => Parameters::Rest(rest),
        HostMsg::Renameexport(key, rest) => Parameters::KeyRest(key, rest),
        HostMsg::Creds(word, rest) => Parameters::WordRest(word, rest),
        HostMsg::Transfer(store, key, rest) | HostMsg::Transferexport(store, key, rest) =>
            Parameters::TransferRest(store, key, rest),
    }
}

fn word(message: &HostMsg<'_>) -> &'static [u8]
    ensures { result.now ≡ (host_row (host_shown message.now)).0 }
{
    match message {
        HostMsg::Extensions(_) => b"EXTENSIONS",
        HostMsg::Prepare => b"PREPARE",
        HostMsg::Initremote => b"INITREMOTE",
        HostMsg::Transfer(_, _, _) => b"TRANSFER",
        HostMsg::Checkpresent(_) => b"CHECKPRESENT",
        HostMsg::Remove(_) => b"REMOVE",
        HostMsg::Listconfigs => b"LISTCONFIGS",
        HostMsg::Getcost => b"GETCOST",
        HostMsg::Getavailability => b"GETAVAILABILITY",
        HostMsg::Getinfo => b"GETINFO",
        HostMsg::Whereis(_) => b"WHEREIS",
        HostMsg::Exportsupported => b"EXPORTSUPPORTED",
        HostMsg::Export(_) => b"EXPORT",
        HostMsg::Transferexport(_, _, _) => b"TRANSFEREXPORT",
        HostMsg::Checkpresentexport(_) => b"CHECKPRESENTEXPORT",
        HostMsg::Removeexport(_) => b"REMOVEEXPORT",
        HostMsg::Renameexport(_, _) => b"RENAMEEXPORT",
        HostMsg::Value(_) => b"VALUE",
        HostMsg::Creds(_, _) => b"CREDS",
        HostMsg::Error(_) => b"ERROR",
    }
}
