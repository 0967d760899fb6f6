// The command `recover`: what the text of a run says so far, and what is kept after it.
ghost use Rattle.std.specs.Prelude.{◌≡◌};
ghost use Rattle.special_cli.specs.Recoveries.{HasRecovered, end_of_recovery};

use crate::end::End;
use crate::outside::Outside;
use crate::ran::Ran;
use ann_key::Text;
use ann_outside::{Desks, Programs};
use audit_command::recover::RecoverEnd;
use cli_words::Reason;
use journal_audit::Audit;
use std::alloc::Global;

/// Reads the text of that name, and puts what is kept after it in the place of the kept file, where one is named. No program is
/// started.
pub(crate) fn recover<P: Programs, K: Desks>(
    alloc: Global,
    journal: &str,
    keep: &Option<Text>,
    outside: Outside<P, K>,
) -> Ran<P, K>
where
    K::Desk: Drop,
    ensures { HasRecovered (record { journal = journal.now; keep = keep.now }) outside result }
{
    let Outside {
        programs,
        mut desks,
    } = outside;
    let made = audit_command::recover::recover(alloc, journal, keep, &mut desks);
    Ran {
        outside: Outside { programs, desks },
        journal: made.journal,
        answers: Vec::new(alloc),
        wires: Vec::new(alloc),
        tables: made.tables,
        end: end_of_recovery(made.end),
    }
}

// What is to be told of a recovery that ended so.
fn end_of_recovery(end: RecoverEnd) -> End
    ensures { result ≡ end_of_recovery end }
{
    match end {
        RecoverEnd::FileFailed | RecoverEnd::TextTooLarge => End::FileFailed,
        RecoverEnd::Refused { line } => End::Refused {
            line,
            reason: Reason::Entry,
        },
        RecoverEnd::Memory => End::Memory,
        RecoverEnd::Unbegun => End::Unbegun,
        RecoverEnd::Wrong(misplaced) => End::Audited(Audit::Wrong {
            entry: misplaced.entry,
            kind: misplaced.kind,
        }),
        RecoverEnd::Answered { answers, kept } => End::Recovered { answers, kept },
    }
}
