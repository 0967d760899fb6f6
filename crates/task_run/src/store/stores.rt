// What storing in chunks goes by.
ghost use Rattle.std.specs.Prelude.{◌≡◌, ◌<◌, None, Some, true, false};
ghost use Rattle.ann_key.specs.KeyRefs.{parts_of, text_of};
ghost use Rattle.annex_model.specs.Lines.{has_newline};
ghost use Rattle.annex_model.specs.Messages.{is_sent_key};

use ann_key::KeyRef;
use task_model::{Setup, TaskTurn};

/// A file that is stored in the setup's chunks, as a whole key that says its size.
#[derive(Clone, Copy)]
pub struct Store<'a> {
    pub turn: TaskTurn,
    pub setup: &'a Setup,
    pub key: KeyRef<'a>,
    pub size: u64,
    pub file: &'a str,
    ghost whole: { (parts_of key).chunk ≡ None },
    ghost sent: { is_sent_key (text_of key) ≡ true },
    ghost sized: { (parts_of key).size ≡ Some size },
    ghost chunked: { 0 < setup.now.chunk },
    ghost folder: { has_newline setup.now.work ≡ false },
}

/// A chunk by its number, from 1 on: where it stands in the file, and the name of the file that it is copied to.
#[derive(Clone, Copy)]
pub struct Chunk<'a> {
    pub number: u64,
    pub from: u64,
    pub to: u64,
    pub name: &'a str,
}
