// What a get goes by, and what it goes by in one layout.
ghost use Rattle.std.specs.Prelude.{◌≡◌, ◌<◌, None, Some, true, false};
ghost use Rattle.ann_key.specs.KeyRefs.{parts_of, text_of};
ghost use Rattle.annex_model.specs.Lines.{has_newline};
ghost use Rattle.annex_model.specs.Messages.{is_sent_key};
ghost use Rattle.task_model.specs.Names.{part_of};

use ann_key::KeyRef;
use task_model::{Setup, TaskTurn};

/// A get of a whole key into a file, by way of the file's part.
#[derive(Clone, Copy)]
pub struct Get<'a, 'k> {
    pub turn: TaskTurn,
    pub setup: &'a Setup,
    pub key: KeyRef<'k>,
    pub file: &'a str,
    pub part: &'a str,
    ghost whole: { (parts_of key).chunk ≡ None },
    ghost sent: { is_sent_key (text_of key) ≡ true },
    ghost named: { part.now ≡ part_of file.now },
    ghost folder: { has_newline setup.now.work ≡ false },
}

/// A get in chunks of one size, of a key that says the content's size.
#[derive(Clone, Copy)]
pub struct Layout<'a, 'k> {
    pub get: Get<'a, 'k>,
    pub size: u64,
    pub chunk: u64,
    ghost sized: { (parts_of get.key).size ≡ Some size },
    ghost chunked: { 0 < chunk },
}
