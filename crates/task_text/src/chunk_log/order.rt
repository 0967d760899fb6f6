// Which stamp is newer.
ghost use Rattle.std.specs.Prelude.{◌≡◌};
ghost use Rattle.task_text.specs.ChunkLog.NoteBooks.{is_no_later};

use crate::chunk_log::stamp::Stamp;

pub fn is_no_later(a: Stamp, b: Stamp) -> bool
    ensures { result ≡ is_no_later a b }
{
    a.seconds < b.seconds || a.seconds == b.seconds && a.nanos <= b.nanos
}
