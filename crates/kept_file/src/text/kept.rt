// The lines of a kept file, one at a time.
ghost use Rattle.std.specs.Prelude.{◌≡◌, option_map, option_copied, drop};
ghost use Rattle.annex_model.specs.Messages.{by_rows};
ghost use Rattle.kept_file.specs.Text.KeptLines.{kept_reading, kept_rows};
ghost use Rattle.kept_file.specs.Text.Shown.{kept_shown};

use ann_key::KeyRef;
use wire_msg::fields;

/// What a line says.
#[derive(Clone, Copy)]
pub(crate) enum Kept<'a> {
    Setting(&'a [u8], &'a [u8]),
    Expression(&'a [u8]),
    State(KeyRef<'a>, &'a [u8]),
    Url(KeyRef<'a>, &'a [u8]),
    Chunks(KeyRef<'a>, &'a [u8]),
}

/// What the line says, where it is one of a kept file; its chunk log line isn't looked at.
pub(crate) fn read_kept(line: &[u8]) -> Option<Kept<'_>>
    ensures { option_map kept_shown result ≡ kept_reading line.now }
{
    by_word(fields::word_of(line), fields::field_of(line))
}

fn by_word<'a>(word: &'a [u8], field: Option<&'a [u8]>) -> Option<Kept<'a>>
    ensures { option_map kept_shown result ≡ by_rows kept_rows word.entry.now (option_copied field.entry) }
{
    if fields::is_word(word, b"config") {
        let (name, value) = fields::word_rest(field)?;
        Some(Kept::Setting(name, value))
    } else if fields::is_word(word, b"wanted") {
        Some(Kept::Expression(fields::rest(field)))
    } else {
        of_key(word, field)
    }
}

// The lines of a key.
fn of_key<'a>(word: &'a [u8], field: Option<&'a [u8]>) -> Option<Kept<'a>>
    ensures { option_map kept_shown result ≡ by_rows (drop 2 kept_rows) word.entry.now (option_copied field.entry) }
{
    if fields::is_word(word, b"state") {
        let (key, value) = fields::key_rest(field)?;
        Some(Kept::State(key, value))
    } else if fields::is_word(word, b"url") {
        let (key, url) = fields::key_rest(field)?;
        Some(Kept::Url(key, url))
    } else if fields::is_word(word, b"chunks") {
        let (key, log) = fields::key_rest(field)?;
        Some(Kept::Chunks(key, log))
    } else {
        None
    }
}
