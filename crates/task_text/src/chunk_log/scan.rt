// Cuts bytes, and reads the numbers in them.
ghost use Rattle.std.specs.Prelude.{◌≡◌, ◌≤◌, ◌<◌, ◌^◌, ◌==◌, ◌&&◌, not, length, Some, None, true, if◌then◌else◌, nat_le, nat_lt};
ghost use Rattle.std.specs.List.{list_all, before_last, after_last, suffix_len};
ghost use Rattle.ann_key.specs.Numbers.{is_digit, value_of};

use ann_key::all_digits;

/// How many bytes follow the last such byte.
fn behind_last(bytes: &[u8], byte: u8) -> usize
    ensures value { result ≡ suffix_len (λ b. not (b == byte)) bytes.now }
    ensures bound { result ≤ length bytes.now }
{
    bytes.iter().rev().take_while(|b| **b != byte).count()
}

pub fn before_last(bytes: &[u8], byte: u8) -> &[u8]
    ensures { result.now ≡ before_last (λ b. b == byte) bytes.now }
{
    let end = bytes.len() - behind_last(bytes, byte);
    &bytes[..end.max(1) - 1]
}

pub fn after_last(bytes: &[u8], byte: u8) -> &[u8]
    ensures { result.now ≡ after_last (λ b. b == byte) bytes.now }
{
    &bytes[bytes.len() - behind_last(bytes, byte)..]
}

/// Whether all bytes are digits, and there is one.
pub fn is_digits(bytes: &[u8]) -> bool
    ensures { result ≡ (nat_le 1 (length bytes.now) && list_all is_digit bytes.now) }
{
    !bytes.is_empty() && all_digits(bytes)
}

/// What the digits say, where it is below 2^64.
pub fn value(digits: &[u8]) -> Option<u64>
    requires { list_all is_digit digits.now ≡ true }
    ensures { result ≡ (if nat_lt (value_of digits.now) (2 ^ 64) then Some (value_of digits.now) else None) }
{
    let mut n: u64 = 0;
    for digit in digits {
        let next = 10 * n as u128 + (*digit - 48) as u128;
        if next >= 18_446_744_073_709_551_616 {
            return None;
        }
        n = next as u64;
    }
    Some(n)
}
