// The parts of a stamp's text.
ghost use Rattle.std.specs.Prelude.{◌≡◌, ◌≤◌, ◌<◌, ◌-◌, ◌++◌, length, replicate, true, IfSome};
ghost use Rattle.std.specs.List.{list_all};
ghost use Rattle.ann_key.specs.Numbers.{is_digit, value_of};
ghost use Rattle.task_text.specs.ChunkLog.Stamps.{nanos_in, seconds_in};

use crate::chunk_log::scan;

pub fn seconds(digits: &[u8]) -> Option<u64>
    ensures { result ≡ seconds_in digits.now }
{
    if scan::is_digits(digits) {
        scan::value(digits)
    } else {
        None
    }
}

pub fn nanos(fraction: &[u8]) -> Option<u32>
    ensures value { result ≡ nanos_in fraction.now }
    ensures small { IfSome result (λ nanos. nanos < 1000000000) }
{
    match fraction {
        [] => Some(0),
        [dot, digits @ ..] => {
            if *dot == b'.' && digits.len() <= 9 && scan::is_digits(digits) {
                Some(billionths(digits))
            } else {
                None
            }
        }
    }
}

fn billionths(digits: &[u8]) -> u32
    requires few { length digits.now ≤ 9 }
    requires digits { list_all is_digit digits.now ≡ true }
    ensures value { result ≡ value_of (digits.now ++ replicate (9 - length digits.now) 48) }
    ensures small { result < 1000000000 }
{
    let mut nanos = 0;
    for digit in digits {
        nanos = 10 * nanos + (*digit - 48) as u32;
    }
    for _place in digits.len()..9 {
        nanos *= 10;
    }
    nanos
}
