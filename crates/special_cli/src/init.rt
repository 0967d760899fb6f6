// The command `init`: a remote is set up, and what it is set to is kept.
ghost use Rattle.std.specs.Prelude.{◌≡◌};
ghost use Rattle.info_and_init.specs.Init.Inits.{AreSound};
ghost use Rattle.special_cli.specs.Setups.{HasSetUp, end_of_init};

use crate::end::End;
use crate::outside::Outside;
use crate::ran::Ran;
use ann_outside::{Desks, Programs};
use cli_words::InitWords;
use info_and_init::init::{InitEnd, set_up};
use std::alloc::Global;

/// Sets the remote up that the program serves, and keeps what it is set to.
pub(crate) fn init<P: Programs, K: Desks>(
    alloc: Global,
    words: &InitWords,
    outside: Outside<P, K>,
) -> Ran<P, K>
where
    P::Inlet: Drop,
    P::Outlet: Drop,
    K::Desk: Drop,
    requires words { AreSound words.now }
    ensures { HasSetUp words.now outside result }
{
    let Outside {
        mut programs,
        mut desks,
    } = outside;
    let made = set_up(alloc, words, &mut programs, &mut desks);
    Ran {
        outside: Outside { programs, desks },
        journal: made.journal,
        answers: Vec::new(alloc),
        wires: made.wires,
        tables: made.tables,
        end: end_of_init(made.end),
    }
}

// What is to be told of an init that ended so.
fn end_of_init(end: InitEnd) -> End
    ensures { result ≡ end_of_init end }
{
    match end {
        InitEnd::BadKept(line) => End::BadKept(line),
        InitEnd::KeptTooLarge => End::KeptTooLarge,
        InitEnd::FileFailed => End::FileFailed,
        InitEnd::Memory => End::Memory,
        InitEnd::SetUp(written) => End::SetUp(written),
        InitEnd::NotSetUp(answer) => End::NotSetUp(answer),
    }
}
