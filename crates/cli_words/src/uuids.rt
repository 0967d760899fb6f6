// UUIDs among the words.
ghost use Rattle.std.specs.Prelude.{◌≡◌, IfOk, option_map};
ghost use Rattle.uuid.specs.Text.{hyphenated_text, lower, parsed};
ghost use Rattle.cli_words.specs.Values.{uuid_in};

use ann_key::{NoMemory, Text};
use std::alloc::Global;
use uuid::Uuid;

/// The UUID of the text, in lower case with hyphens, if it spells one in any of the usual forms.
pub(super) fn uuid_in(alloc: Global, text: &str) -> Result<Option<Text>, NoMemory>
    ensures { IfOk result (λ uuid. uuid ≡ uuid_in text.now) }
{
    match parsed(text) {
        Some(uuid) => Ok(Some(written(alloc, uuid)?)),
        None => Ok(None),
    }
}

fn parsed(text: &str) -> Option<Uuid>
    ensures { result ≡ parsed text.now }
{
    match Uuid::try_parse(text) {
        Ok(uuid) => Some(uuid),
        Err(_) => None,
    }
}

fn written(alloc: Global, uuid: Uuid) -> Result<Text, NoMemory>
    ensures { IfOk result (λ text. text ≡ hyphenated_text lower uuid) }
{
    let mut buffer = [0; 36];
    Text::copy(alloc, uuid.hyphenated().encode_lower(&mut buffer))
}
