// The directories of a key, by its text.
ghost use Rattle.std.specs.Prelude.{◌≡◌};
ghost use Rattle.ann_key.specs.KeyRefs.{text_of};
ghost use Rattle.journal_model.specs.Replies.{mixed_at, lower_at};

use ann_key::KeyRef;

pub(crate) fn mixed(key: KeyRef<'_>) -> [u8; 5]
    ensures { result ≡ mixed_at (text_of key.entry) }
{
    ann_digest::mixed(key)
}

pub(crate) fn lower(key: KeyRef<'_>) -> [u8; 7]
    ensures { result ≡ lower_at (text_of key.entry) }
{
    ann_digest::lower(key)
}
