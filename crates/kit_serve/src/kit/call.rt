// What is asked of a remote, and what it says.
ghost use Rattle.std.specs.Prelude.{◌≡◌, ◌==◌, position, IfOk, IsTrue};
ghost use Rattle.std.specs.List.{before_first};
ghost use Rattle.kit_serve.specs.Kit.Calls.{is_line_said};

use crate::kit::lists::{Pairs, Values};
use ann_key::{Bytes, Key, NoMemory, Text};
use std::alloc::Global;

/// What a remote says when it was asked for something.
#[derive(Drop)]
pub enum Said {
    /// It is done, or the content is there.
    Yes,
    /// It isn't done, or the content isn't there.
    No,
    /// It couldn't be done, or found out, for this reason. The text holds no line end.
    Failure(Bytes),
    /// It is done. Of `initialize` it also has the host set these settings, by SETCONFIG, and keep them in the place of those that the
    /// user gave. A name holds no space, and neither it nor its value holds a line end.
    Set(Pairs),
}

// Where the first line ends.
fn line_end(text: &[u8]) -> Option<usize>
    ensures { result ≡ position (λ b. b == 10) text.now }
{
    text.iter().position(|b| *b == b'\n')
}

/// The text before its first line end, or all of it. It takes no memory.
pub fn first_line(text: &[u8]) -> &[u8]
    ensures { result.now ≡ before_first (λ b. b == 10) text.now }
{
    match line_end(text) {
        Some(end) => &text[..end],
        None => text,
    }
}

impl Said {
    /// A failure for this reason, which is cut before its first line end: so any text will do, also one of another program.
    pub fn failure(alloc: Global, text: &[u8]) -> Result<Said, NoMemory>
        ensures text { IfOk result (λ said. said ≡ Said.Failure (before_first (λ b. b == 10) text.now)) }
        ensures line { IfOk result (λ said. IsTrue (is_line_said said)) }
    {
        let text = Bytes::copy(alloc, first_line(text))?;
        Ok(Said::Failure(text))
    }

    /// The same word.
    pub fn copy(&self, alloc: Global) -> Result<Said, NoMemory>
        ensures { IfOk result (λ s. s ≡ self.now) }
    {
        match self {
            Said::Yes => Ok(Said::Yes),
            Said::No => Ok(Said::No),
            Said::Failure(text) => {
                let copy = Bytes::copy(alloc, text.view())?;
                Ok(Said::Failure(copy))
            }
            Said::Set(pairs) => Ok(Said::Set(pairs.copy(alloc)?)),
        }
    }
}

/// What a remote is asked for, by the name of its call, with the arguments.
#[derive(Drop)]
pub enum Asked {
    Prepare(Values),
    Initialize(Values),
    Store(Key, Text),
    Retrieve(Key, Text),
    Check(Key),
    Remove(Key),
}

/// A call of a remote: what it was asked for, and what it said.
#[derive(Drop)]
pub struct Call {
    pub asked: Asked,
    pub said: Said,
}
