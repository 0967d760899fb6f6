ghost use Rattle.std.specs.Prelude.{◌≡◌, option_map, option_copied, MatchOption, drop};
ghost use Rattle.annex_model.specs.Messages.{remote_reading, remote_by_word, RemoteSpells, RemoteMessage, by_rows, opening_rows, aside_rows, task_rows, about_rows, no_field};
ghost use Rattle.wire_msg.specs.Shown.{remote_shown};

use crate::fields;
use ann_key::KeyRef;

/// What a remote says, by the command word of its line, with its parameters in their order: true for `STORE` and for `GLOBAL`.
#[derive(Clone, Copy)]
pub enum RemoteMsg<'a> {
    Version(u64),
    Extensions(&'a [u8]),
    UnsupportedRequest,
    Error(&'a [u8]),
    // What a remote may say in any request.
    Progress(u64),
    Debug(&'a [u8]),
    Info(&'a [u8]),
    Dirhash(KeyRef<'a>),
    DirhashLower(KeyRef<'a>),
    Getconfig(&'a [u8]),
    Setconfig(&'a [u8], &'a [u8]),
    Getcreds(&'a [u8]),
    Setcreds(&'a [u8], &'a [u8], &'a [u8]),
    Getuuid,
    Getgitdir,
    Getgitremotename,
    Getwanted,
    Setwanted(&'a [u8]),
    Getstate(KeyRef<'a>),
    Setstate(KeyRef<'a>, &'a [u8]),
    Seturlpresent(KeyRef<'a>, &'a [u8]),
    Seturlmissing(KeyRef<'a>, &'a [u8]),
    Geturls(KeyRef<'a>, &'a [u8]),
    // The lines of answers.
    PrepareSuccess,
    PrepareFailure(&'a [u8]),
    InitremoteSuccess,
    InitremoteFailure(&'a [u8]),
    TransferSuccess(bool, KeyRef<'a>),
    TransferFailure(bool, KeyRef<'a>, &'a [u8]),
    CheckpresentSuccess(KeyRef<'a>),
    CheckpresentFailure(KeyRef<'a>),
    CheckpresentUnknown(KeyRef<'a>, &'a [u8]),
    RemoveSuccess(KeyRef<'a>),
    RemoveFailure(KeyRef<'a>, &'a [u8]),
    Config(&'a [u8], &'a [u8]),
    Configend,
    Cost(u64),
    Availability(bool),
    Infofield(&'a [u8]),
    Infovalue(&'a [u8]),
    Infoend,
    WhereisSuccess(&'a [u8]),
    WhereisFailure,
    ExportsupportedSuccess,
    ExportsupportedFailure,
    RenameexportSuccess(KeyRef<'a>),
    RenameexportFailure(KeyRef<'a>),
}

/// The message that the line spells; None exactly where it spells none. It takes no memory.
pub fn read_remote(line: &[u8]) -> Option<RemoteMsg<'_>>
    ensures reading { option_map remote_shown result ≡ remote_reading line.now }
    ensures spelled { MatchOption result ((m : RemoteMessage) → RemoteSpells m line.now → ⊥) (λ m. RemoteSpells (remote_shown m) line.now) }
{
    scan(line)
}

fn scan(line: &[u8]) -> Option<RemoteMsg<'_>>
    ensures { option_map remote_shown result ≡ remote_reading line.now }
{
    by_word(fields::word_of(line), fields::field_of(line))
}

fn by_word<'a>(word: &'a [u8], field: Option<&'a [u8]>) -> Option<RemoteMsg<'a>>
    ensures { option_map remote_shown result ≡ remote_by_word word.entry.now (option_copied field.entry) }
{
    if let Some(message) = opening(word, field) {
        return Some(message);
    }
    if let Some(message) = aside(word, field) {
        return Some(message);
    }
    if let Some(message) = task(word, field) {
        return Some(message);
    }
    about(word, field)
}

// The message has no parameters.
fn bare<'a>(message: RemoteMsg<'a>, field: Option<&'a [u8]>) -> Option<RemoteMsg<'a>>
    ensures { option_map remote_shown result ≡ no_field (remote_shown message.entry) (option_copied field.entry) }
{
    match field {
        Some(_) => None,
        None => Some(message),
    }
}

// What is said before and beside all answers.
fn opening<'a>(word: &'a [u8], field: Option<&'a [u8]>) -> Option<RemoteMsg<'a>>
    ensures { option_map remote_shown result ≡ by_rows opening_rows word.entry.now (option_copied field.entry) }
{
    if fields::is_word(word, b"VERSION") {
        return Some(RemoteMsg::Version(fields::number(field)?));
    }
    if fields::is_word(word, b"EXTENSIONS") {
        return Some(RemoteMsg::Extensions(fields::rest(field)));
    }
    if fields::is_word(word, b"UNSUPPORTED-REQUEST") {
        return bare(RemoteMsg::UnsupportedRequest, field);
    }
    if fields::is_word(word, b"ERROR") {
        return Some(RemoteMsg::Error(fields::rest(field)));
    }
    None
}

// What a remote may say in any request.
fn aside<'a>(word: &'a [u8], field: Option<&'a [u8]>) -> Option<RemoteMsg<'a>>
    ensures { option_map remote_shown result ≡ by_rows aside_rows word.entry.now (option_copied field.entry) }
{
    if fields::is_word(word, b"PROGRESS") {
        return Some(RemoteMsg::Progress(fields::number(field)?));
    }
    if fields::is_word(word, b"DEBUG") {
        return Some(RemoteMsg::Debug(fields::rest(field)));
    }
    if fields::is_word(word, b"INFO") {
        return Some(RemoteMsg::Info(fields::rest(field)));
    }
    if fields::is_word(word, b"DIRHASH") {
        return Some(RemoteMsg::Dirhash(fields::key(field)?));
    }
    if fields::is_word(word, b"DIRHASH-LOWER") {
        return Some(RemoteMsg::DirhashLower(fields::key(field)?));
    }
    setting(word, field)
}

// Those about its settings.
fn setting<'a>(word: &'a [u8], field: Option<&'a [u8]>) -> Option<RemoteMsg<'a>>
    ensures { option_map remote_shown result ≡ by_rows (drop 5 aside_rows) word.entry.now (option_copied field.entry) }
{
    if fields::is_word(word, b"GETCONFIG") {
        return Some(RemoteMsg::Getconfig(fields::rest(field)));
    }
    if fields::is_word(word, b"SETCONFIG") {
        let (name, value) = fields::word_rest(field)?;
        return Some(RemoteMsg::Setconfig(name, value));
    }
    if fields::is_word(word, b"GETCREDS") {
        return Some(RemoteMsg::Getcreds(fields::rest(field)));
    }
    if fields::is_word(word, b"SETCREDS") {
        let (setting, user, password) = fields::words_rest(field)?;
        return Some(RemoteMsg::Setcreds(setting, user, password));
    }
    repository(word, field)
}

// Those about the repository.
fn repository<'a>(word: &'a [u8], field: Option<&'a [u8]>) -> Option<RemoteMsg<'a>>
    ensures { option_map remote_shown result ≡ by_rows (drop 9 aside_rows) word.entry.now (option_copied field.entry) }
{
    if fields::is_word(word, b"GETUUID") {
        return bare(RemoteMsg::Getuuid, field);
    }
    if fields::is_word(word, b"GETGITDIR") {
        return bare(RemoteMsg::Getgitdir, field);
    }
    if fields::is_word(word, b"GETGITREMOTENAME") {
        return bare(RemoteMsg::Getgitremotename, field);
    }
    if fields::is_word(word, b"GETWANTED") {
        return bare(RemoteMsg::Getwanted, field);
    }
    if fields::is_word(word, b"SETWANTED") {
        return Some(RemoteMsg::Setwanted(fields::rest(field)));
    }
    state(word, field)
}

// Those about what is kept for a key.
fn state<'a>(word: &'a [u8], field: Option<&'a [u8]>) -> Option<RemoteMsg<'a>>
    ensures { option_map remote_shown result ≡ by_rows (drop 14 aside_rows) word.entry.now (option_copied field.entry) }
{
    if fields::is_word(word, b"GETSTATE") {
        return Some(RemoteMsg::Getstate(fields::key(field)?));
    }
    if fields::is_word(word, b"SETSTATE") {
        let (key, value) = fields::key_rest(field)?;
        return Some(RemoteMsg::Setstate(key, value));
    }
    if fields::is_word(word, b"SETURLPRESENT") {
        let (key, url) = fields::key_rest(field)?;
        return Some(RemoteMsg::Seturlpresent(key, url));
    }
    if fields::is_word(word, b"SETURLMISSING") {
        let (key, url) = fields::key_rest(field)?;
        return Some(RemoteMsg::Seturlmissing(key, url));
    }
    if fields::is_word(word, b"GETURLS") {
        let (key, prefix) = fields::key_rest(field)?;
        return Some(RemoteMsg::Geturls(key, prefix));
    }
    None
}

// The lines that answer a request of the greeting or for a key.
fn task<'a>(word: &'a [u8], field: Option<&'a [u8]>) -> Option<RemoteMsg<'a>>
    ensures { option_map remote_shown result ≡ by_rows task_rows word.entry.now (option_copied field.entry) }
{
    if fields::is_word(word, b"PREPARE-SUCCESS") {
        return bare(RemoteMsg::PrepareSuccess, field);
    }
    if fields::is_word(word, b"PREPARE-FAILURE") {
        return Some(RemoteMsg::PrepareFailure(fields::rest(field)));
    }
    if fields::is_word(word, b"INITREMOTE-SUCCESS") {
        return bare(RemoteMsg::InitremoteSuccess, field);
    }
    if fields::is_word(word, b"INITREMOTE-FAILURE") {
        return Some(RemoteMsg::InitremoteFailure(fields::rest(field)));
    }
    transfer(word, field)
}

// Those that answer `TRANSFER`.
fn transfer<'a>(word: &'a [u8], field: Option<&'a [u8]>) -> Option<RemoteMsg<'a>>
    ensures { option_map remote_shown result ≡ by_rows (drop 4 task_rows) word.entry.now (option_copied field.entry) }
{
    if fields::is_word(word, b"TRANSFER-SUCCESS") {
        let (store, key) = fields::transfer(field)?;
        return Some(RemoteMsg::TransferSuccess(store, key));
    }
    if fields::is_word(word, b"TRANSFER-FAILURE") {
        let (store, key, text) = fields::transfer_rest(field)?;
        return Some(RemoteMsg::TransferFailure(store, key, text));
    }
    checkpresent(word, field)
}

// Those that answer `CHECKPRESENT`.
fn checkpresent<'a>(word: &'a [u8], field: Option<&'a [u8]>) -> Option<RemoteMsg<'a>>
    ensures { option_map remote_shown result ≡ by_rows (drop 6 task_rows) word.entry.now (option_copied field.entry) }
{
    if fields::is_word(word, b"CHECKPRESENT-SUCCESS") {
        return Some(RemoteMsg::CheckpresentSuccess(fields::key(field)?));
    }
    if fields::is_word(word, b"CHECKPRESENT-FAILURE") {
        return Some(RemoteMsg::CheckpresentFailure(fields::key(field)?));
    }
    if fields::is_word(word, b"CHECKPRESENT-UNKNOWN") {
        let (key, text) = fields::key_rest(field)?;
        return Some(RemoteMsg::CheckpresentUnknown(key, text));
    }
    remove(word, field)
}

// Those that answer `REMOVE`.
fn remove<'a>(word: &'a [u8], field: Option<&'a [u8]>) -> Option<RemoteMsg<'a>>
    ensures { option_map remote_shown result ≡ by_rows (drop 9 task_rows) word.entry.now (option_copied field.entry) }
{
    if fields::is_word(word, b"REMOVE-SUCCESS") {
        return Some(RemoteMsg::RemoveSuccess(fields::key(field)?));
    }
    if fields::is_word(word, b"REMOVE-FAILURE") {
        let (key, text) = fields::key_rest(field)?;
        return Some(RemoteMsg::RemoveFailure(key, text));
    }
    None
}

// The lines that answer a request about the remote itself.
fn about<'a>(word: &'a [u8], field: Option<&'a [u8]>) -> Option<RemoteMsg<'a>>
    ensures { option_map remote_shown result ≡ by_rows about_rows word.entry.now (option_copied field.entry) }
{
    if fields::is_word(word, b"CONFIG") {
        let (name, description) = fields::word_rest(field)?;
        return Some(RemoteMsg::Config(name, description));
    }
    if fields::is_word(word, b"CONFIGEND") {
        return bare(RemoteMsg::Configend, field);
    }
    if fields::is_word(word, b"COST") {
        return Some(RemoteMsg::Cost(fields::number(field)?));
    }
    if fields::is_word(word, b"AVAILABILITY") {
        return Some(RemoteMsg::Availability(fields::scope(field)?));
    }
    info(word, field)
}

// Those that answer `GETINFO` and `WHEREIS`.
fn info<'a>(word: &'a [u8], field: Option<&'a [u8]>) -> Option<RemoteMsg<'a>>
    ensures { option_map remote_shown result ≡ by_rows (drop 4 about_rows) word.entry.now (option_copied field.entry) }
{
    if fields::is_word(word, b"INFOFIELD") {
        return Some(RemoteMsg::Infofield(fields::rest(field)));
    }
    if fields::is_word(word, b"INFOVALUE") {
        return Some(RemoteMsg::Infovalue(fields::rest(field)));
    }
    if fields::is_word(word, b"INFOEND") {
        return bare(RemoteMsg::Infoend, field);
    }
    if fields::is_word(word, b"WHEREIS-SUCCESS") {
        return Some(RemoteMsg::WhereisSuccess(fields::rest(field)));
    }
    if fields::is_word(word, b"WHEREIS-FAILURE") {
        return bare(RemoteMsg::WhereisFailure, field);
    }
    export(word, field)
}

// Those of exports that answer nothing else.
fn export<'a>(word: &'a [u8], field: Option<&'a [u8]>) -> Option<RemoteMsg<'a>>
    ensures { option_map remote_shown result ≡ by_rows (drop 9 about_rows) word.entry.now (option_copied field.entry) }
{
    if fields::is_word(word, b"EXPORTSUPPORTED-SUCCESS") {
        return bare(RemoteMsg::ExportsupportedSuccess, field);
    }
    if fields::is_word(word, b"EXPORTSUPPORTED-FAILURE") {
        return bare(RemoteMsg::ExportsupportedFailure, field);
    }
    if fields::is_word(word, b"RENAMEEXPORT-SUCCESS") {
        return Some(RemoteMsg::RenameexportSuccess(fields::key(field)?));
    }
    if fields::is_word(word, b"RENAMEEXPORT-FAILURE") {
        return Some(RemoteMsg::RenameexportFailure(fields::key(field)?));
    }
    None
}
