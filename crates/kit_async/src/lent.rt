// Entries of a journal, lent.
ghost use Rattle.std.specs.Prelude.{◌≡◌, Some};
ghost use Rattle.kit_async.specs.Served.{entry_shown};

use crate::why::Why;
use kit_async_model::Entry;
use kit_serve::kit::Said;

/// An entry of a kit's journal, lent. [`Entry`] has what each means.
#[derive(Clone, Copy)]
pub enum KitEntry<'a> {
    Heard {
        line: &'a [u8],
    },
    Take {
        job: u64,
        remote: u32,
    },
    Call {
        job: u64,
        remote: u32,
        said: &'a Said,
    },
    Say {
        job: u64,
        line: &'a [u8],
    },
    Wrote,
    Close,
    Lack,
    /// The kit stopped. It is the last entry.
    Stop {
        why: Why,
    },
}

pub(crate) fn shown(entry: &Entry) -> KitEntry<'_>
    ensures { entry_shown result ≡ Some entry.now }
{
    match entry {
        Entry::Heard { line } => KitEntry::Heard { line: line.view() },
        Entry::Take { job, remote } => KitEntry::Take {
            job: *job,
            remote: *remote,
        },
        Entry::Call { job, remote, said } => KitEntry::Call {
            job: *job,
            remote: *remote,
            said,
        },
        Entry::Say { job, line } => KitEntry::Say {
            job: *job,
            line: line.view(),
        },
        Entry::Wrote => KitEntry::Wrote,
        Entry::Close => KitEntry::Close,
        Entry::Lack => KitEntry::Lack,
    }
}
