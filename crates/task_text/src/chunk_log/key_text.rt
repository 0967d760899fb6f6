// The text of a key, which is compared without being read.
ghost use Rattle.std.specs.Prelude.{◌≡◌, IfOk};
ghost use Rattle.ann_key.specs.KeyRefs.{text_of};

use ann_key::{Bytes, KeyRef, NoMemory};
use std::alloc::Global;
use std::marker::Model;

/// A key that owns its text. Unlike `Key` it gives the text as it is kept, so to compare two is to compare bytes.
#[derive(Drop)]
pub(crate) struct KeyText {
    text: Bytes,
}

impl Model for KeyText {
    ghost use Rattle.std.specs.Prelude.{List, ℕ, IsTrue};
    ghost use Rattle.ann_key.specs.Keys.{is_key};

    ghost Value = { List ℕ };

    ghost view = { λ k. k.text };

    ghost invariant = { λ k. IsTrue (is_key k.text) };
}

impl KeyText {
    /// The text of the key.
    pub(crate) fn copy(alloc: Global, key: KeyRef<'_>) -> Result<KeyText, NoMemory>
        ensures { IfOk result (λ k. k ≡ text_of key.entry) }
    {
        let text = Bytes::copy(alloc, key.text())?;
        Ok(KeyText { text })
    }

    /// The text, lent. It takes no memory.
    pub(crate) fn bytes(&self) -> &[u8]
        ensures { result.now ≡ self.now }
    {
        self.text.view()
    }

    /// The key that the text spells, lent. It takes no memory.
    pub(crate) fn read(&self) -> KeyRef<'_>
        ensures { text_of result ≡ self.now }
    {
        match KeyRef::read(self.text.view()) {
            Ok(key) => key,
            Err(_) => unreachable!(),
        }
    }
}
