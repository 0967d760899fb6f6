// What lines say by themselves, and the next line that is to be written.
ghost use Rattle.std.specs.Prelude.{◌≡◌, ◌++◌, ◌∷◌, [], false, IfOk, IsOk};
ghost use Rattle.annex_model.specs.Messages.{remote_reading};
ghost use Rattle.journal_model.specs.Journal.{unsent};
ghost use Rattle.journal_model.specs.Due.{is_error};
ghost use Rattle.host_core.specs.Steps.{needs_memory, next_line};

use crate::event::Reply;
use ann_key::{Bytes, NoMemory};
use journal_look::{Journal, first_unsent};
use std::alloc::Global;
use wire_msg::{RemoteMsg, read_remote};

/// Whether the line spells ERROR.
pub(super) fn is_error(line: &[u8]) -> bool
    ensures { result ≡ is_error (remote_reading line.now) }
{
    matches!(read_remote(line), Some(RemoteMsg::Error(_)))
}

fn with_newline(alloc: Global, line: &[u8]) -> Result<Bytes, NoMemory>
    ensures { IfOk result (λ b. b ≡ line.now ++ 10 ∷ []) }
{
    let mut bytes = Vec::from_slice(alloc, line)?;
    bytes.push(10)?;
    Ok(Bytes::from_vec(bytes))
}

/// The first of the lines for the child that were not written whole, with its byte 10, or else the other reply.
pub(super) fn next_line(
    alloc: Global,
    journal: &Journal,
    child: u32,
    rest: Reply,
) -> Result<Reply, NoMemory>
    ensures line { IfOk result (λ reply. reply ≡ next_line rest (unsent journal.now.entries child)) }
    ensures free { needs_memory (next_line rest (unsent journal.now.entries child)) ≡ false → IsOk result }
{
    match first_unsent(journal, child) {
        Some(line) => {
            drop(rest);
            Ok(Reply::Line(with_newline(alloc, line)?))
        }
        None => Ok(rest),
    }
}
