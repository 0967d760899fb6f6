// Numbers among the words.
ghost use Rattle.std.specs.Prelude.{◌≡◌, ◌≤◌, IfSome};
ghost use Rattle.cli_words.specs.Values.{number_in, padded_number_in};

use ann_key::{number_of, numeral_of};

/// The number of the text, where it is one from `least` to `most`, without leading zeros or a sign.
pub(super) fn number_in(text: &str, least: u64, most: u64) -> Option<u64>
    ensures value { result ≡ number_in least most text.now }
    ensures most_one { IfSome result (λ n. n ≤ most) }
{
    match numeral_of(text.as_bytes()) {
        Some(number) if least <= number && number <= most => Some(number),
        _ => None,
    }
}

/// The number of the text, where it is one from `least` to `most`. It may have leading zeros.
pub(super) fn padded_number_in(text: &str, least: u64, most: u64) -> Option<u64>
    ensures value { result ≡ padded_number_in least most text.now }
    ensures most_one { IfSome result (λ n. (least ≤ n) × (n ≤ most)) }
{
    match number_of(text.as_bytes()) {
        Some(number) if least <= number && number <= most => Some(number),
        _ => None,
    }
}
