// What is said on out and err, and what a write that fails makes of it.
ghost use Rattle.std.specs.Prelude.{◌≡◌, true};
ghost use Rattle.special_cli.specs.Sayings.{IsSaidBy, Prints, PrintsThen, Says, Warns, text_in};
ghost use Rattle.special_cli.specs.Tells.{flow, IsMemoryTold, IsWritten};

use ann_key::{Bytes, NoMemory};
use ann_outside::{Failed, Sink, write_all};
use cli_words::memory_line;

/// A text that stands in the program, or one that was made.
#[derive(Drop)]
pub(crate) enum Words {
    Fixed(&'static [u8]),
    Made(Bytes),
}

impl Words {
    fn view(&self) -> &[u8]
        ensures { result.now ≡ text_in self.now }
    {
        match self {
            Words::Fixed(text) => text,
            Words::Made(text) => text.view(),
        }
    }
}

/// What is to be said, and the status that goes with it where it is written whole.
#[derive(Drop)]
pub(crate) enum Saying {
    OnOut(Words, u8),
    OnErr(Words, u8),
    /// The first text on out, and then the second on err.
    OnBoth(Words, &'static [u8], u8),
}

impl Saying {
    /// That no memory was found.
    pub(crate) fn no_memory() -> Saying
        ensures { Says result IsMemoryTold }
    {
        Saying::OnErr(Words::Fixed(memory_line()), 7)
    }

    /// A text that was made for out, if memory was found for it.
    pub(crate) fn on_out(made: Result<Bytes, NoMemory>, status: u8) -> Saying
        ensures { Prints made status result }
    {
        match made {
            Ok(text) => Saying::OnOut(Words::Made(text), status),
            Err(NoMemory) => Saying::no_memory(),
        }
    }

    /// A text that was made for err, if memory was found for it.
    pub(crate) fn on_err(made: Result<Bytes, NoMemory>, status: u8) -> Saying
        ensures { Warns made status result }
    {
        match made {
            Ok(text) => Saying::OnErr(Words::Made(text), status),
            Err(NoMemory) => Saying::no_memory(),
        }
    }

    /// A text that was made for out, if memory was found for it, and then this cause on err.
    pub(crate) fn on_both(made: Result<Bytes, NoMemory>, cause: &'static [u8], status: u8) -> Saying
        ensures { PrintsThen made cause.now status result }
    {
        match made {
            Ok(text) => Saying::OnBoth(Words::Made(text), cause, status),
            Err(NoMemory) => Saying::no_memory(),
        }
    }

    /// Writes it, and answers the status: its own, or 5 where a write fails.
    pub(crate) fn say<O: Sink, E: Sink>(&self, out: &mut O, err: &mut E) -> u8
        requires open { ((O.told out.old).is_open ≡ true) × ((E.told err.old).is_open ≡ true) }
        ensures { IsSaidBy self.now result (flow (O.told out.old) (O.told out.new)) (flow (E.told err.old) (E.told err.new)) }
    {
        match self {
            Saying::OnOut(text, status) => write(out, text.view(), *status),
            Saying::OnErr(text, status) => write(err, text.view(), *status),
            Saying::OnBoth(first, second, status) => match write_all(out, first.view()) {
                Ok(()) => write(err, second, *status),
                Err(Failed) => 5,
            },
        }
    }
}

// Writes a text; the status is this one, or 5 where a write fails.
fn write<S: Sink>(sink: &mut S, text: &[u8], status: u8) -> u8
    requires { (S.told sink.old).is_open ≡ true }
    ensures { IsWritten status text.now result (flow (S.told sink.old) (S.told sink.new)) }
{
    match write_all(sink, text) {
        Ok(()) => status,
        Err(Failed) => 5,
    }
}
