// What is said where a folder isn't as it is wanted.
ghost use Rattle.std.specs.Prelude.{◌≡◌, ◌++◌, None, Ok, IfOk, IsTrue};
ghost use Rattle.std.specs.Option.{option_copied};
ghost use Rattle.kit_serve.specs.Kit.Calls.{is_line_said};
ghost use Rattle.kit_serve.specs.declared.kit.call.Said.TheVariants.{Failure};
ghost use Rattle.dir_remote.specs.Guard.Sentences.{founded_words, full_words, line_of, made_words, relative_sentence, sentence_of, way_words, words_of};

use crate::guard::place::{Seen, Want};
use ann_key::{NoMemory, Text};
use kit_serve::kit::Said;
use std::alloc::Global;

// An empty folder may be a mount point without its disk.
fn full_words(seen: Seen) -> Option<&'static str>
    ensures { option_copied result ≡ full_words seen }
{
    match seen {
        Seen::Fits => None,
        Seen::Empty => {
            Some(" is empty: is its disk mounted? If it is, make a file .annex-remote-dir in it")
        }
        Seen::Missing => Some(" is not there: is its disk mounted?"),
        Seen::Blocked => Some(" is not a folder"),
        Seen::Failed => Some(" can't be read"),
    }
}

fn way_words(seen: Seen) -> Option<&'static str>
    ensures { option_copied result ≡ way_words seen }
{
    match seen {
        Seen::Fits | Seen::Empty | Seen::Missing => None,
        Seen::Blocked => Some(" is not a folder"),
        Seen::Failed => Some(" can't be read"),
    }
}

fn made_words(seen: Seen) -> Option<&'static str>
    ensures { option_copied result ≡ made_words seen }
{
    match seen {
        Seen::Fits | Seen::Empty => None,
        Seen::Missing | Seen::Failed => Some(" can't be made"),
        Seen::Blocked => Some(" is not a folder"),
    }
}

fn founded_words(seen: Seen) -> Option<&'static str>
    ensures { option_copied result ≡ founded_words seen }
{
    match seen {
        Seen::Fits => None,
        Seen::Empty => Some(" can't be written to"),
        Seen::Missing | Seen::Failed => Some(" can't be made"),
        Seen::Blocked => Some(" is not a folder"),
    }
}

fn words_of(want: Want, seen: Seen) -> Option<&'static str>
    ensures { option_copied result ≡ words_of want seen }
{
    match want {
        Want::Full => full_words(seen),
        Want::Way => way_words(seen),
        Want::Made | Want::Whole => made_words(seen),
        Want::Founded => founded_words(seen),
    }
}

// The path, and these words after it.
fn after_path(alloc: Global, path: &str, words: &str) -> Result<Text, NoMemory>
    ensures { IfOk result (λ text. text ≡ path.now ++ words.now) }
{
    let mut text = String::from_str(alloc, path)?;
    text.push_str(words)?;
    Ok(Text::from_string(text))
}

/// The sentence that stops a call, if one does.
pub fn sentence(alloc: Global, want: Want, path: &str, seen: Seen) -> Result<Option<Text>, NoMemory>
    ensures text { IfOk result (λ text. text ≡ sentence_of want path.now seen) }
    ensures none { sentence_of want path.now seen ≡ None → result ≡ Ok None }
{
    match words_of(want, seen) {
        Some(words) => {
            let text = after_path(alloc, path, words)?;
            Ok(Some(text))
        }
        None => Ok(None),
    }
}

/// What is said of a directory that isn't whole.
pub fn relative(alloc: Global) -> Result<Said, NoMemory>
    ensures text { IfOk result (λ said. said ≡ Failure (line_of relative_sentence)) }
    ensures line { IfOk result (λ said. IsTrue (is_line_said said)) }
{
    Said::failure(
        alloc,
        b"directory is relative: give the whole path, such as /home/me/backup",
    )
}
