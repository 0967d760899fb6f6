// The command `info`: what one child says of itself.
ghost use Rattle.std.specs.Prelude.{◌≡◌};
ghost use Rattle.cli_words.specs.Refusals.{refusal_if};
ghost use Rattle.special_cli.specs.Commands.{HasInformed, UnlessRefused};
ghost use Rattle.special_cli.specs.Informs.{end_of_info};

use crate::end::End;
use crate::outside::Outside;
use crate::ran::Ran;
use ann_key::Text;
use ann_outside::{Desks, Programs};
use info_and_init::info::{InfoEnd, inform};
use std::alloc::Global;

/// Asks the remote that the program serves about itself, and for the key where there is one, unless that is refused.
pub(crate) fn info<P: Programs, K: Desks>(
    alloc: Global,
    program: &str,
    key: &Option<Text>,
    outside: Outside<P, K>,
) -> Ran<P, K>
where
    P::Inlet: Drop,
    P::Outlet: Drop,
    K::Desk: Drop,
    ensures { UnlessRefused (refusal_if key.now) outside result (HasInformed program.now key.now outside result) }
{
    let Outside {
        mut programs,
        desks,
    } = outside;
    let made = inform(alloc, program, key, &mut programs);
    let answers = Vec::new(alloc);
    let tables = Vec::new(alloc);
    Ran {
        outside: Outside { programs, desks },
        journal: made.journal,
        answers,
        wires: made.wires,
        tables,
        end: end_of_info(made.end),
    }
}

// What is to be told of an info that ended so.
fn end_of_info(end: InfoEnd) -> End
    ensures { result ≡ end_of_info end }
{
    match end {
        InfoEnd::Refused(reason) => End::Refused { line: 1, reason },
        InfoEnd::Memory => End::Memory,
        InfoEnd::Asked(key) => End::Informed(key),
    }
}
