// Printing a text.
ghost use Rattle.std.specs.Prelude.{◌≡◌, true};
ghost use Rattle.ann_os.specs.RemoteWords.Printed.{IsPrinted, Writes};

use ann_outside::{Failed, Sink, write_all};

// The status where a text can't be written.
const UNWRITTEN: u8 = 5;

/// Prints the text, and gives the status to end with: the one that is asked for, or 5 if the text can't be written.
pub fn print<W: Sink>(sink: &mut W, text: &[u8], status: u8) -> u8
    requires { (W.told sink.old).is_open ≡ true }
    ensures printed { IsPrinted (W.told sink.old) (W.told sink.new) text.now status result }
    ensures open { (W.told sink.new).is_open ≡ true }
{
    match write_whole(sink, text) {
        Ok(()) => status,
        Err(Failed) => UNWRITTEN,
    }
}

fn write_whole<W: Sink>(sink: &mut W, text: &[u8]) -> Result<(), Failed>
    requires { (W.told sink.old).is_open ≡ true }
    ensures writes { Writes (W.told sink.old) (W.told sink.new) text.now result }
    ensures open { (W.told sink.new).is_open ≡ true }
{
    write_all(sink, text)?;
    sink.flush()
}
