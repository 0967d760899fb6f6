// Requests, each from its command word in lower case and what stands after it.
use crate::words;
use ann_key::{Key, KeyRef, NoMemory, Text};
use host_talk::request::Request;
use std::alloc::Global;

/// The request. Its key stands after the word; the file of a transfer is `f`, and so is the new name of an exported file, the name of
/// which is `x y`.
pub(crate) fn request(alloc: Global, text: &str) -> Result<Option<Request>, NoMemory> {
    let (word, rest) = words::cut(text);
    if let Some(request) = keyless(word, rest) {
        return Ok(Some(request));
    }
    match KeyRef::read(rest.as_bytes()) {
        Ok(key) => {
            let key = Key::copy(alloc, key)?;
            let file = Text::copy(alloc, "f")?;
            match word.strip_prefix("export") {
                Some(word) => Ok(exported(word, key, file, Text::copy(alloc, "x y")?)),
                None => Ok(keyed(word, key, file)),
            }
        }
        Err(_) => Ok(None),
    }
}

fn keyless(word: &str, rest: &str) -> Option<Request> {
    match word {
        "extensions" => Some(Request::Extensions {
            offer: rest == "async",
        }),
        "prepare" => Some(Request::Prepare),
        "initremote" => Some(Request::InitRemote),
        "listconfigs" => Some(Request::ListConfigs),
        "getcost" => Some(Request::GetCost),
        "getavailability" => Some(Request::GetAvailability),
        "getinfo" => Some(Request::GetInfo),
        "exportsupported" => Some(Request::ExportSupported),
        _ => None,
    }
}

fn keyed(word: &str, key: Key, file: Text) -> Option<Request> {
    match word {
        "store" => Some(Request::Transfer {
            store: true,
            key,
            file,
        }),
        "retrieve" => Some(Request::Transfer {
            store: false,
            key,
            file,
        }),
        "checkpresent" => Some(Request::CheckPresent { key }),
        "remove" => Some(Request::Remove { key }),
        "whereis" => Some(Request::WhereIs { key }),
        _ => None,
    }
}

// A request of an exported file.
fn exported(word: &str, key: Key, file: Text, name: Text) -> Option<Request> {
    match word {
        "store" => Some(Request::TransferExport {
            store: true,
            key,
            file,
            name,
        }),
        "retrieve" => Some(Request::TransferExport {
            store: false,
            key,
            file,
            name,
        }),
        "check" => Some(Request::CheckExport { key, name }),
        "remove" => Some(Request::RemoveExport { key, name }),
        "rename" => Some(Request::RenameExport {
            key,
            name,
            onto: file,
        }),
        _ => None,
    }
}
