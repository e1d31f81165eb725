//! How many bytes a statement has.

ghost use Rattle.std.specs.Prelude.{◌≡◌, ◌≤◌, ◌<◌, ◌^◌, true, false, length};
ghost use Rattle.rv_asm.specs.Checks.{numbers_fit};
ghost use Rattle.rv_asm.specs.Layout.{width_len, unit_of, padding, escaped_byte, unescaped, len_of};

use crate::statement::{Statement, ValueWidth};

impl ValueWidth {
    /// How many bytes a value of this width has.
    pub(crate) fn len(self) -> usize
        ensures value { result ≡ width_len self }
        ensures small { result ≤ 8 }
    {
        match self {
            ValueWidth::Byte => 1,
            ValueWidth::Half => 2,
            ValueWidth::Word => 4,
            ValueWidth::Doubleword => 8,
        }
    }
}

/// A power of 2, up to 2^12.
fn unit(n: u128) -> u128
    ensures value { result ≡ unit_of n }
    ensures positive { 0 < result }
    ensures small { result ≤ 4096 }
{
    1 << n.min(12)
}

/// How many bytes lead from the address to a multiple of 2^n.
#[tactic(auto, unfolding(crate::specs::Layout::padding))]
pub(crate) fn padding(n: u128, at: u128) -> u128
    ensures value { result ≡ padding n at }
    ensures small { result < 4096 }
{
    let unit = unit(n);
    (unit - at % unit) % unit
}

/// How many bytes the string has of which this stands between its quotes.
fn string_len(written: &[u8]) -> usize
    ensures value { result ≡ length (unescaped false written.now) }
    ensures small { result ≤ length written.now }
{
    let mut escaped = false;
    let mut len = 0;
    for byte in written {
        if escaped {
            escaped = false;
            len += 1;
        } else if *byte == b'\\' {
            escaped = true;
        } else {
            len += 1;
        }
    }
    len
}

/// How many bytes the statement has at the address.
#[tactic(auto, unfolding(crate::specs::Layout::len_of, crate::specs::Checks::numbers_fit, crate::specs::Numbers::within))]
pub(crate) fn len(at: u128, statement: &Statement, text: &[u8]) -> u128
    requires { numbers_fit statement.now ≡ true }
    ensures value { result ≡ len_of at statement.now text.now }
    ensures small { result ≤ 2 ^ 64 }
{
    match *statement {
        Statement::Value(width, _) => width.len() as u128,
        Statement::Zeros(number) => number.size,
        Statement::Align(number) => padding(number.size, at),
        Statement::Ascii => string_len(text) as u128,
        Statement::Instruction(_) | Statement::Numbered(_, _) | Statement::Jump(_) => 4,
        Statement::LoadNumber(_, number) => { if number.is_within(2048, 2047) { 4 } else { 8 } }
        Statement::LoadAddress(_) => 8,
        _ => 0,
    }
}
