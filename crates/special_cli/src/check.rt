// The command `check`: whether the remote has a key.
ghost use Rattle.std.specs.Prelude.{◌≡◌, None};
ghost use Rattle.ann_key.specs.KeyRefs.{text_of};
ghost use Rattle.cli_words.specs.Refusals.{reason_refused};
ghost use Rattle.special_cli.specs.Commands.{HasChecked, UnlessRefused, end_of_check};

use crate::end::End;
use crate::outside::Outside;
use crate::ran::Ran;
use ann_key::KeyRef;
use ann_outside::{Clock, Desks, Programs};
use cli_words::refusal;
use run_and_check::check::{CheckEnd, do_check};
use std::alloc::Global;

/// Asks the remote that the program serves for the key, unless that is refused.
pub(crate) fn check<P: Programs, K: Desks, C: Clock>(
    alloc: Global,
    program: &str,
    key: &str,
    outside: Outside<P, K>,
    clock: &mut C,
) -> Ran<P, K>
where
    P::Inlet: Drop,
    P::Outlet: Drop,
    K::Desk: Drop,
    ensures { UnlessRefused (reason_refused key.now) outside result (HasChecked (C.answer clock.old) program.now key.now outside result) }
{
    let bytes = key.as_bytes();
    if let Some(reason) = refusal(bytes) {
        return Ran::nothing(alloc, outside, End::Refused { line: 1, reason });
    }
    match KeyRef::read(bytes) {
        Ok(key) => check_key(alloc, program, key, outside, clock),
        Err(_) => unreachable!(),
    }
}

// The same of a key that is fit.
fn check_key<P: Programs, K: Desks, C: Clock>(
    alloc: Global,
    program: &str,
    key: KeyRef<'_>,
    outside: Outside<P, K>,
    clock: &mut C,
) -> Ran<P, K>
where
    P::Inlet: Drop,
    P::Outlet: Drop,
    K::Desk: Drop,
    requires key { reason_refused (text_of key) ≡ None }
    ensures { HasChecked (C.answer clock.old) program.now (text_of key.entry) outside result }
{
    let Outside {
        mut programs,
        desks,
    } = outside;
    let made = do_check(alloc, program, key, &mut programs, clock);
    Ran {
        outside: Outside { programs, desks },
        journal: made.journal,
        answers: made.answers,
        wires: made.wires,
        tables: Vec::new(alloc),
        end: end_of(made.end),
    }
}

// What is to be told of a check that ended so.
fn end_of(end: CheckEnd) -> End
    ensures { result ≡ end_of_check end }
{
    match end {
        CheckEnd::Answered => End::Answered,
        CheckEnd::Memory => End::Memory,
    }
}
