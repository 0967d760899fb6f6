// Searches for a byte, and cuts bytes at it.
ghost use Rattle.std.specs.Prelude.{◌≡◌, ◌≤◌, ◌==◌, length};
ghost use Rattle.std.specs.List.{after_first, before_first, list_any, position_or_len};

/// Whether the byte is among them.
pub fn has_byte(bytes: &[u8], byte: u8) -> bool
    ensures { result ≡ list_any (λ b. b == byte) bytes.now }
{
    bytes.iter().any(|b| *b == byte)
}

/// How many bytes stand before the first such byte. If there is none: how many there are.
pub fn len_before(bytes: &[u8], byte: u8) -> usize
    ensures value { result ≡ position_or_len (λ b. b == byte) bytes.now }
    ensures bound { result ≤ length bytes.now }
{
    bytes.iter().take_while(|b| **b != byte).count()
}

/// What comes before the first such byte, and what comes after it. If there is none: all, and nothing.
pub fn cut_at(bytes: &[u8], byte: u8) -> (&[u8], &[u8])
    ensures before { result.0.now ≡ before_first (λ b. b == byte) bytes.now }
    ensures after { result.1.now ≡ after_first (λ b. b == byte) bytes.now }
{
    let at = len_before(bytes, byte);
    if at < bytes.len() {
        (&bytes[..at], &bytes[at + 1..])
    } else {
        (bytes, &[])
    }
}
