// What a word may be a value of.
ghost use Rattle.std.specs.Prelude.{◌≡◌};
ghost use Rattle.std.specs.List.{list_all};
ghost use Rattle.cli_words.specs.Values.{is_request, is_text, is_word_of_command, texts_of};

use ann_key::has_byte;

/// Whether it isn't empty and holds no line's end.
pub(super) fn is_text(text: &str) -> bool
    ensures { result ≡ is_text text.now }
{
    !text.is_empty() && !has_byte(text.as_bytes(), b'\n')
}

fn is_request(word: &str) -> bool
    ensures { result ≡ is_request word.now }
{
    word == "--help" || word == "--version"
}

fn is_word_of_command(word: &str) -> bool
    ensures { result ≡ is_word_of_command word.now }
{
    is_text(word) && !is_request(word)
}

/// Whether each of them may follow a command's name.
pub(super) fn are_words_of_command(words: &[String]) -> bool
    ensures { result ≡ list_all is_word_of_command (texts_of words.now) }
{
    for word in words {
        if !is_word_of_command(word.as_str()) {
            return false;
        }
    }
    true
}
