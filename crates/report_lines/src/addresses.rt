//! Addresses in a line, which are written in hexadecimal.

ghost use Rattle.std.specs.Prelude.{◌≡◌, ◌+◌, ◌*◌};
ghost use Rattle.std.specs.Option.{option_and_then};
ghost use Rattle.report_lines.specs.Words.{address_at, hexadecimal_digit, hexadecimal_from, narrow};

use crate::words::bytes_behind;
use advice::word_at;

/// What a lower case hexadecimal digit counts.
fn hexadecimal_digit(byte: u8) -> Option<u8>
    ensures { result ≡ hexadecimal_digit byte }
{
    match byte {
        b'0'..=b'9' => Some(byte - b'0'),
        b'a'..=b'f' => Some(byte - b'a' + 10),
        _ => None,
    }
}

/// This number, if it is below 2^64.
fn narrow(value: u128) -> Option<u64>
    ensures { result ≡ narrow value }
{
    if value <= u64::MAX as u128 {
        Some(value as u64)
    } else {
        None
    }
}

/// The number with one more digit behind it, if it is below 2^64.
fn with_digit(value: u64, byte: u8) -> Option<u64>
    ensures { result ≡ option_and_then (λ digit. narrow (value * 16 + digit)) (hexadecimal_digit byte) }
{
    let digit = hexadecimal_digit(byte)?;
    narrow(value as u128 * 16 + digit as u128)
}

/// The number of these digits, if it is below 2^64 and each byte is a digit.
fn hexadecimal(digits: &[u8]) -> Option<u64>
    ensures { result ≡ hexadecimal_from 0 digits.now }
{
    let mut value = 0;
    for byte in digits {
        value = with_digit(value, *byte)?;
    }
    Some(value)
}

/// Returns the address at a place of a line, which has `0x` before its digits, or 0.
pub fn address_at(place: usize, line: &[u8]) -> u64
    ensures { result ≡ address_at place line.now }
{
    hexadecimal(bytes_behind(2, word_at(place, line))).unwrap_or(0)
}
