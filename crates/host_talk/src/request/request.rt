ghost use Rattle.std.specs.Prelude.{◌≡◌, true, false, None, Some, IfOk, IfSome, IsNone, bytes_eq, option_map};
ghost use Rattle.std.specs.Str.{is_utf8};
ghost use Rattle.ann_key.specs.KeyRefs.{text_of};
ghost use Rattle.annex_model.specs.Messages.{Transfer, Transferexport, Renameexport};
ghost use Rattle.wire_msg.specs.Shown.{host_shown};
ghost use Rattle.annex_model.specs.Extensions.{names_of};
ghost use Rattle.annex_model.specs.Turns.{turn_of};
ghost use Rattle.host_talk.specs.Request.Requests.{message_of, name_of, lead_of, is_request};
ghost use Rattle.host_talk.specs.declared.request.request.Request.TheVariants.{TransferExport, RenameExport};

use ann_key::{Key, KeyRef, NoMemory, Text};
use annex_model::Turn;
use std::alloc::Global;
use std::str;
use wire_msg::HostMsg;

/// What a host asks of a remote.
#[derive(Drop)]
pub enum Request {
    /// Which extensions of the protocol the remote knows. The host knows INFO and GETGITREMOTENAME, and offers ASYNC or not.
    Extensions {
        offer: bool,
    },
    /// To get ready.
    Prepare,
    /// To set up the remote, or to check how it is set up.
    InitRemote,
    /// What can be configured.
    ListConfigs,
    /// What a use of the remote costs.
    GetCost,
    /// Whether the remote is to be had from here alone.
    GetAvailability,
    /// What is to be told of the remote.
    GetInfo,
    /// To store the file's content as the key's, or to retrieve the key's content into the file.
    Transfer {
        store: bool,
        key: Key,
        file: Text,
    },
    /// Whether the remote has the key's content.
    CheckPresent {
        key: Key,
    },
    /// To remove the key's content.
    Remove {
        key: Key,
    },
    /// Where the key's content can be found.
    WhereIs {
        key: Key,
    },
    /// Whether the remote can keep files under names of their own: exports.
    ExportSupported,
    /// To store the file's content, which is the key's, under the name, or to retrieve into the file what is there.
    TransferExport {
        store: bool,
        key: Key,
        file: Text,
        name: Text,
    },
    /// Whether the key's content is there under the name.
    CheckExport {
        key: Key,
        name: Text,
    },
    /// To remove the key's content under the name.
    RemoveExport {
        key: Key,
        name: Text,
    },
    /// To give the key's content under the name another one.
    RenameExport {
        key: Key,
        name: Text,
        onto: Text,
    },
}

/// The names of extensions that an EXTENSIONS of the host lists, with ASYNC where it is offered.
pub fn extension_names(offer: bool) -> &'static [u8]
    ensures { result.now ≡ names_of offer }
{
    if offer {
        b"INFO GETGITREMOTENAME ASYNC"
    } else {
        b"INFO GETGITREMOTENAME"
    }
}

fn are_told(names: &[u8], offer: bool) -> bool
    ensures { result ≡ bytes_eq names.now (names_of offer) }
{
    names == extension_names(offer)
}

/// Whether names that a host tells offer ASYNC; None where no host tells them.
#[tactic(auto, using(crate::proofs::RequestLemmas::Reading::told_names))]
fn offer_of(names: &[u8]) -> Option<bool>
    ensures told { IfSome result (λ offer. names_of offer ≡ names.now) }
    ensures none { IsNone result → (bytes_eq names.now (names_of true) ≡ false) × (bytes_eq names.now (names_of false) ≡ false) }
{
    if are_told(names, true) {
        Some(true)
    } else if are_told(names, false) {
        Some(false)
    } else {
        None
    }
}

// Copies of a key and a text. In one place, since what lets the key go, where no memory is left for the text, goes by its kind.
fn both(alloc: Global, key: KeyRef<'_>, text: &str) -> Result<(Key, Text), NoMemory>
    ensures { IfOk result (λ b. (b.0 ≡ text_of key.entry) × (b.1 ≡ text.now)) }
{
    let key = Key::copy(alloc, key)?;
    let text = Text::copy(alloc, text)?;
    Ok((key, text))
}

/// The key, and the text; None where the bytes are none.
#[tactic(auto, using(crate::proofs::RequestLemmas::Reading::no_text))]
fn key_and_text(
    alloc: Global,
    key: KeyRef<'_>,
    bytes: &[u8],
) -> Result<Option<(Key, Text)>, NoMemory>
    ensures same { IfOk result (λ r. IfSome r (λ b. (b.0 ≡ text_of key.entry) × (b.1 ≡ bytes.now))) }
    ensures none { IfOk result (λ r. IsNone r → is_utf8 bytes.now ≡ false) }
{
    match str::from_utf8(bytes) {
        Ok(text) => Ok(Some(both(alloc, key, text)?)),
        Err(_) => Ok(None),
    }
}

/// The request that transfers, where the file's name is text.
fn transfer(
    alloc: Global,
    store: bool,
    key: KeyRef<'_>,
    file: &[u8],
) -> Result<Option<Request>, NoMemory>
    ensures asks { IfOk result (λ r. IfSome r (λ r. message_of r ≡ Transfer store (text_of key.entry) file.now)) }
    ensures none { IfOk result (λ r. IsNone r → is_utf8 file.now ≡ false) }
{
    match key_and_text(alloc, key, file)? {
        Some((key, file)) => Ok(Some(Request::Transfer { store, key, file })),
        None => Ok(None),
    }
}

/// The request that transfers an exported file, without its name, where the file's name is text.
fn transfer_export(
    alloc: Global,
    store: bool,
    key: KeyRef<'_>,
    file: &[u8],
) -> Result<Option<Request>, NoMemory>
    ensures asks { IfOk result (λ r. IfSome r (λ r. message_of r ≡ Transferexport store (text_of key.entry) file.now)) }
    ensures none { IfOk result (λ r. IsNone r → is_utf8 file.now ≡ false) }
{
    match key_and_text(alloc, key, file)? {
        Some((key, file)) => Ok(Some(Request::TransferExport {
            store,
            key,
            file,
            name: Text::from_string(String::new(alloc)),
        })),
        None => Ok(None),
    }
}

/// The request that renames, without the name that it has, where the new one is text.
fn rename_export(alloc: Global, key: KeyRef<'_>, onto: &[u8]) -> Result<Option<Request>, NoMemory>
    ensures asks { IfOk result (λ r. IfSome r (λ r. message_of r ≡ Renameexport (text_of key.entry) onto.now)) }
    ensures none { IfOk result (λ r. IsNone r → is_utf8 onto.now ≡ false) }
{
    match key_and_text(alloc, key, onto)? {
        Some((key, onto)) => Ok(Some(Request::RenameExport {
            key,
            name: Text::from_string(String::new(alloc)),
            onto,
        })),
        None => Ok(None),
    }
}

fn copy_transfer(
    alloc: Global,
    store: bool,
    key: &Key,
    file: &Text,
    name: &Text,
) -> Result<Request, NoMemory>
    ensures { IfOk result (λ r. r ≡ TransferExport store key.now file.now name.now) }
{
    let name = Text::copy(alloc, name.view())?;
    let (key, file) = both(alloc, key.view(), file.view())?;
    Ok(Request::TransferExport {
        store,
        key,
        file,
        name,
    })
}

fn copy_rename(alloc: Global, key: &Key, name: &Text, onto: &Text) -> Result<Request, NoMemory>
    ensures { IfOk result (λ r. r ≡ RenameExport key.now name.now onto.now) }
{
    let onto = Text::copy(alloc, onto.view())?;
    let (key, name) = both(alloc, key.view(), name.view())?;
    Ok(Request::RenameExport { key, name, onto })
}

impl Request {
    /// The request that the message asks; None exactly where no request does. A name that is said before the message isn't in it, and
    /// is empty here.
    #[tactic(auto, using(crate::proofs::RequestLemmas::Reading::same_offer, crate::proofs::RequestLemmas::Reading::unoffered))]
    pub fn read(alloc: Global, message: &HostMsg<'_>) -> Result<Option<Request>, NoMemory>
        ensures asks { IfOk result (λ r. IfSome r (λ r. message_of r ≡ host_shown message.now)) }
        ensures none { IfOk result (λ r. IsNone r → is_request (host_shown message.now) ≡ false) }
    {
        match message {
            HostMsg::Extensions(names) => match offer_of(names) {
                Some(offer) => Ok(Some(Request::Extensions { offer })),
                None => Ok(None),
            },
            HostMsg::Prepare => Ok(Some(Request::Prepare)),
            HostMsg::Initremote => Ok(Some(Request::InitRemote)),
            HostMsg::Transfer(store, key, file) => transfer(alloc, *store, *key, file),
            HostMsg::Checkpresent(key) => {
                let key = Key::copy(alloc, *key)?;
                Ok(Some(Request::CheckPresent { key }))
            }
            HostMsg::Remove(key) => {
                let key = Key::copy(alloc, *key)?;
                Ok(Some(Request::Remove { key }))
            }
            HostMsg::Listconfigs => Ok(Some(Request::ListConfigs)),
            HostMsg::Getcost => Ok(Some(Request::GetCost)),
            HostMsg::Getavailability => Ok(Some(Request::GetAvailability)),
            HostMsg::Getinfo => Ok(Some(Request::GetInfo)),
            HostMsg::Whereis(key) => {
                let key = Key::copy(alloc, *key)?;
                Ok(Some(Request::WhereIs { key }))
            }
            HostMsg::Exportsupported => Ok(Some(Request::ExportSupported)),
            HostMsg::Transferexport(store, key, file) => transfer_export(alloc, *store, *key, file),
            HostMsg::Checkpresentexport(key) => {
                let key = Key::copy(alloc, *key)?;
                Ok(Some(Request::CheckExport {
                    key,
                    name: Text::from_string(String::new(alloc)),
                }))
            }
            HostMsg::Removeexport(key) => {
                let key = Key::copy(alloc, *key)?;
                Ok(Some(Request::RemoveExport {
                    key,
                    name: Text::from_string(String::new(alloc)),
                }))
            }
            HostMsg::Renameexport(key, onto) => rename_export(alloc, *key, onto),
            HostMsg::Export(_) | HostMsg::Value(_) | HostMsg::Creds(_, _) | HostMsg::Error(_) => {
                Ok(None)
            }
        }
    }

    /// The same request, with this name said before it; None exactly where none is.
    pub fn with_name(self, name: Text) -> Option<Request>
        ensures asks { IfSome result (λ r. message_of r ≡ message_of self) }
        ensures named { IfSome result (λ r. name_of r ≡ Some name) }
        ensures none { IsNone result → name_of self ≡ None }
    {
        match self {
            Request::TransferExport {
                store,
                key,
                file,
                ..
            } => Some(Request::TransferExport {
                store,
                key,
                file,
                name,
            }),
            Request::CheckExport { key, .. } => Some(Request::CheckExport { key, name }),
            Request::RemoveExport { key, .. } => Some(Request::RemoveExport { key, name }),
            Request::RenameExport { key, onto, .. } => {
                Some(Request::RenameExport { key, name, onto })
            }
            _ => None,
        }
    }

    /// Which of a child's jobs may ask it.
    pub fn turn(&self) -> Turn
        ensures { result ≡ turn_of (message_of self.now) }
    {
        match self {
            Request::Extensions { .. } => Turn::First,
            Request::Prepare | Request::InitRemote => Turn::Second,
            Request::ListConfigs
            | Request::GetCost
            | Request::GetAvailability
            | Request::GetInfo
            | Request::Transfer { .. }
            | Request::CheckPresent { .. }
            | Request::Remove { .. }
            | Request::WhereIs { .. }
            | Request::ExportSupported
            | Request::TransferExport { .. }
            | Request::CheckExport { .. }
            | Request::RemoveExport { .. }
            | Request::RenameExport { .. } => Turn::Later,
        }
    }

    /// The message that asks it. It takes no memory.
    pub fn message(&self) -> HostMsg<'_>
        ensures { host_shown result ≡ message_of self.now }
    {
        match self {
            Request::Extensions { offer } => HostMsg::Extensions(extension_names(*offer)),
            Request::Prepare => HostMsg::Prepare,
            Request::InitRemote => HostMsg::Initremote,
            Request::ListConfigs => HostMsg::Listconfigs,
            Request::GetCost => HostMsg::Getcost,
            Request::GetAvailability => HostMsg::Getavailability,
            Request::GetInfo => HostMsg::Getinfo,
            Request::Transfer { store, key, file } => {
                HostMsg::Transfer(*store, key.view(), file.view().as_bytes())
            }
            Request::CheckPresent { key } => HostMsg::Checkpresent(key.view()),
            Request::Remove { key } => HostMsg::Remove(key.view()),
            Request::WhereIs { key } => HostMsg::Whereis(key.view()),
            Request::ExportSupported => HostMsg::Exportsupported,
            Request::TransferExport {
                store,
                key,
                file,
                ..
            } => HostMsg::Transferexport(*store, key.view(), file.view().as_bytes()),
            Request::CheckExport { key, .. } => HostMsg::Checkpresentexport(key.view()),
            Request::RemoveExport { key, .. } => HostMsg::Removeexport(key.view()),
            Request::RenameExport { key, onto, .. } => {
                HostMsg::Renameexport(key.view(), onto.view().as_bytes())
            }
        }
    }

    /// The name that a request of an exported file says before its own message; None exactly for all other requests.
    pub fn name(&self) -> Option<&Text>
        ensures { option_map (λ t. t.now) result ≡ name_of self.now }
    {
        match self {
            Request::TransferExport { name, .. }
            | Request::CheckExport { name, .. }
            | Request::RemoveExport { name, .. }
            | Request::RenameExport { name, .. } => Some(name),
            _ => None,
        }
    }

    /// The message that is said before its own: `EXPORT` with the name of an exported file; None exactly for all other requests. It takes
    /// no memory.
    pub fn lead(&self) -> Option<HostMsg<'_>>
        ensures { option_map host_shown result ≡ lead_of self.now }
    {
        match self.name() {
            Some(name) => Some(HostMsg::Export(name.view().as_bytes())),
            None => None,
        }
    }

    /// An equal request.
    pub fn copy(&self, alloc: Global) -> Result<Request, NoMemory>
        ensures { IfOk result (λ r. r ≡ self.now) }
    {
        match self {
            Request::Extensions { offer } => Ok(Request::Extensions { offer: *offer }),
            Request::Prepare => Ok(Request::Prepare),
            Request::InitRemote => Ok(Request::InitRemote),
            Request::ListConfigs => Ok(Request::ListConfigs),
            Request::GetCost => Ok(Request::GetCost),
            Request::GetAvailability => Ok(Request::GetAvailability),
            Request::GetInfo => Ok(Request::GetInfo),
            Request::Transfer { store, key, file } => {
                let (key, file) = both(alloc, key.view(), file.view())?;
                Ok(Request::Transfer {
                    store: *store,
                    key,
                    file,
                })
            }
            Request::CheckPresent { key } => {
                let key = Key::copy(alloc, key.view())?;
                Ok(Request::CheckPresent { key })
            }
            Request::Remove { key } => {
                let key = Key::copy(alloc, key.view())?;
                Ok(Request::Remove { key })
            }
            Request::WhereIs { key } => {
                let key = Key::copy(alloc, key.view())?;
                Ok(Request::WhereIs { key })
            }
            Request::ExportSupported => Ok(Request::ExportSupported),
            Request::TransferExport {
                store,
                key,
                file,
                name,
            } => copy_transfer(alloc, *store, key, file, name),
            Request::CheckExport { key, name } => {
                let (key, name) = both(alloc, key.view(), name.view())?;
                Ok(Request::CheckExport { key, name })
            }
            Request::RemoveExport { key, name } => {
                let (key, name) = both(alloc, key.view(), name.view())?;
                Ok(Request::RemoveExport { key, name })
            }
            Request::RenameExport { key, name, onto } => copy_rename(alloc, key, name, onto),
        }
    }
}
