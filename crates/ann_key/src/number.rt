// Decimal numbers in bytes.
ghost use Rattle.std.specs.Prelude.{◌≡◌, ◌≤◌, length, true};
ghost use Rattle.std.specs.List.{list_all};
ghost use Rattle.ann_key.specs.Numbers.{is_digit, value_of, number_of, numeral_of};

pub(super) fn is_digit(b: u8) -> bool
    ensures { result ≡ is_digit b }
{
    b'0' <= b && b <= b'9'
}

/// Whether each byte is a decimal digit. True if there are no bytes.
pub fn all_digits(bytes: &[u8]) -> bool
    ensures { result ≡ list_all is_digit bytes.now }
{
    bytes.iter().all(|b| is_digit(*b))
}

fn digits_value(field: &[u8]) -> u128
    requires few { length field.now ≤ 20 }
    requires digits { list_all is_digit field.now ≡ true }
    ensures { result ≡ value_of field.now }
{
    let mut n: u128 = 0;
    for b in field {
        n = 10 * n + (*b - b'0') as u128;
    }
    n
}

/// The number that the field spells in 1 to 20 digits, where it is below 2^64. It may have leading zeros.
pub fn number_of(field: &[u8]) -> Option<u64>
    ensures { result ≡ number_of field.now }
{
    if field.is_empty() || field.len() > 20 || !all_digits(field) {
        return None;
    }
    let value = digits_value(field);
    if value < 18_446_744_073_709_551_616 {
        Some(value as u64)
    } else {
        None
    }
}

/// The number that the field spells without leading zeros, where it is below 2^64.
pub fn numeral_of(field: &[u8]) -> Option<u64>
    ensures { result ≡ numeral_of field.now }
{
    if field.len() > 1 && field[0] == b'0' {
        return None;
    }
    number_of(field)
}
