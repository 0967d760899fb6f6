// The lines of an input, one at a time.
ghost use Rattle.std.specs.Prelude.{◌≡◌};
ghost use Rattle.cli_words.specs.TaskInput.InputLines.{has_line};

use ann_key::has_byte;

/// Whether a line begins the text: one with its end, or any byte where the last line may lack it.
pub(super) fn has_line(last: bool, text: &[u8]) -> bool
    ensures { result ≡ has_line last text.now }
{
    if last {
        !text.is_empty()
    } else {
        has_byte(text, b'\n')
    }
}
