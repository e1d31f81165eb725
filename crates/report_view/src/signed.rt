//! Values of 64 bits of which the upper half are negative numbers.

ghost use Rattle.std.specs.Prelude.{◌≡◌, ◌++◌, ◌<◌, IfOk, OnOk, if◌then◌else◌, nat_lt};
ghost use Rattle.report_view.specs.Signed.{greatest, is_negative, least, quotient_text, rank, signed_number, sum_of};

use crate::pieces::add_number;
use pn_types::NoMemory;
use std::alloc::Global;

/// Returns whether a value is a negative number.
pub fn is_negative(value: u64) -> bool
    ensures { result ≡ is_negative value }
{
    value > 9_223_372_036_854_775_807
}

/// Returns the sum of values, modulo 2^64.
pub fn sum_of(values: &[u64]) -> u64
    ensures { result ≡ sum_of values.now }
{
    let mut sum: u64 = 0;
    for value in values {
        sum = sum.wrapping_add(*value);
    }
    sum
}

/// Returns where a value stands among all, the least at 0.
fn rank(value: u64) -> u64
    ensures { result ≡ rank value }
{
    value.wrapping_add(9_223_372_036_854_775_808)
}

/// Returns the second of two values where it is less than the first, else the first.
fn lesser(a: u64, b: u64) -> u64
    ensures { result ≡ (if nat_lt (rank b) (rank a) then b else a) }
{
    if rank(b) < rank(a) { b } else { a }
}

/// Returns the second of two values where it is greater than the first, else the first.
fn greater(a: u64, b: u64) -> u64
    ensures { result ≡ (if nat_lt (rank a) (rank b) then b else a) }
{
    if rank(a) < rank(b) { b } else { a }
}

/// Returns the least of some values, or 0 of none.
pub fn least(values: &[u64]) -> u64
    ensures { result ≡ least values.now }
{
    values
        .iter()
        .copied()
        .reduce(|a, b| lesser(a, b))
        .unwrap_or(0)
}

/// Returns the greatest of some values, or 0 of none.
pub fn greatest(values: &[u64]) -> u64
    ensures { result ≡ greatest values.now }
{
    values
        .iter()
        .copied()
        .reduce(|a, b| greater(a, b))
        .unwrap_or(0)
}

/// Adds a value that is divided by a count, rounded towards 0.
///
/// # Errors
///
/// `NoMemory` where memory runs out.
pub fn add_quotient(
    alloc: Global,
    out: &mut Vec<u8>,
    value: u64,
    count: u64,
) -> Result<(), NoMemory>
    requires { 0 < count }
    ensures { OnOk result (out.new.items ≡ out.old.items ++ quotient_text value count) }
{
    if is_negative(value) {
        return add_number(alloc, out, b"-", (u64::MAX - value + 1) / count);
    }
    add_number(alloc, out, b"", value / count)
}

/// Adds a value.
///
/// # Errors
///
/// `NoMemory` where memory runs out.
pub fn add_signed(alloc: Global, out: &mut Vec<u8>, value: u64) -> Result<(), NoMemory>
    ensures { OnOk result (out.new.items ≡ out.old.items ++ signed_number value) }
{
    add_quotient(alloc, out, value, 1)
}

/// Returns a value's text.
///
/// # Errors
///
/// `NoMemory` where memory runs out.
pub fn signed_number(alloc: Global, value: u64) -> Result<Vec<u8>, NoMemory>
    ensures { IfOk result (λ text. text.items ≡ signed_number value) }
{
    let mut text = Vec::new(alloc);
    add_signed(alloc, &mut text, value)?;
    Ok(text)
}
