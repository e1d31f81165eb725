//! Decimal numbers.

ghost use Rattle.std.specs.Prelude.{◌≡◌, ◌≤◌, length};
ghost use Rattle.pn_text.specs.Numbers.{decimal_from, small_number};

/// The number of these digits, of which there are at most ten, or None where a byte is no digit.
fn decimal(digits: &[u8]) -> Option<u64>
    requires { length digits.now ≤ 10 }
    ensures { result ≡ decimal_from 0 digits.now }
{
    let mut value = 0u64;
    for byte in digits {
        if *byte < b'0' || *byte > b'9' {
            return None;
        }
        value = value * 10 + (*byte - b'0') as u64;
    }
    Some(value)
}

/// Returns the decimal number that the text spells. None exactly where the text isn't 1 to 10 digits, or the number is above
/// `most`. Zeros may lead.
pub fn number(text: &[u8], most: u64) -> Option<u64>
    ensures { result ≡ small_number text.now most }
{
    if text.is_empty() || text.len() > 10 {
        return None;
    }
    let value = decimal(text)?;
    if value <= most { Some(value) } else { None }
}
