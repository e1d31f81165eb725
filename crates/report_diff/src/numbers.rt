//! Numbers of two reports side by side.

ghost use Rattle.std.specs.Prelude.{◌≡◌, ◌++◌, IfOk, OnOk};
ghost use Rattle.report_diff.specs.Numbers.{change_of_numbers, change_of_values, change_percent, change_sign, change_text, columns_heading, columns_line, distance, numbers_row, signed_change, values_row};
ghost use Rattle.report_view.specs.Signed.{signed_number};

use crate::pieces::{add_column, add_decimal, decimal};
use pn_types::NoMemory;
use report_view::{add_signed, is_negative, percent};
use std::alloc::Global;

/// How far one number is from another.
#[derive(Clone, Copy, Drop)]
pub struct Change {
    /// It is below the other.
    pub negative: bool,
    /// The distance of the two.
    pub size: u64,
}

/// Returns how far a value is from 0.
fn distance(value: u64) -> u64
    ensures { result ≡ distance value }
{
    if is_negative(value) {
        u64::MAX - value + 1
    } else {
        value
    }
}

/// Returns the change from one number to another.
fn change_of_numbers(old: u64, new: u64) -> Change
    ensures { result ≡ change_of_numbers old new }
{
    Change {
        negative: new < old,
        size: new.abs_diff(old),
    }
}

/// Returns the change that a value of 64 bits is, of which the upper half are negative numbers.
fn signed_change(value: u64) -> Change
    ensures { result ≡ signed_change value }
{
    Change {
        negative: is_negative(value),
        size: distance(value),
    }
}

/// Returns the change from one value of 64 bits to another, modulo 2^64.
fn change_of_values(old: u64, new: u64) -> Change
    ensures { result ≡ change_of_values old new }
{
    signed_change(new.wrapping_sub(old))
}

/// Returns the sign of a change.
fn change_sign(change: Change) -> &'static [u8]
    ensures { result.now ≡ change_sign change }
{
    if change.size == 0 {
        b""
    } else if change.negative {
        b"-"
    } else {
        b"+"
    }
}

/// Returns a change's text.
fn change_text(alloc: Global, change: Change) -> Result<Vec<u8>, NoMemory>
    ensures { IfOk result (λ text. text.items ≡ change_text change) }
{
    let mut text = Vec::from_slice(alloc, change_sign(change))?;
    add_decimal(alloc, &mut text, change.size)?;
    Ok(text)
}

/// Returns a change for a hundred of what was there.
fn change_percent(alloc: Global, old: u64, change: Change) -> Result<Vec<u8>, NoMemory>
    ensures { IfOk result (λ text. text.items ≡ change_percent old change) }
{
    if old == 0 {
        return Vec::from_slice(alloc, b"-");
    }
    let share = percent(alloc, change.size, old)?;
    let mut text = Vec::from_slice(alloc, change_sign(change))?;
    text.extend_from_slice(&share)?;
    Ok(text)
}

/// Adds four columns and a label.
#[tactic(auto, unfolding(crate::specs::Numbers::columns_line))]
fn add_columns(
    out: &mut Vec<u8>,
    old: &[u8],
    new: &[u8],
    difference: &[u8],
    share: &[u8],
    label: &[u8],
) -> Result<(), NoMemory>
    ensures { OnOk result (out.new.items ≡ out.old.items ++ columns_line old.now new.now difference.now share.now label.now) }
{
    add_column(out, 15, old)?;
    add_column(out, 15, new)?;
    add_column(out, 15, difference)?;
    add_column(out, 8, share)?;
    out.extend_from_slice(b"  ")?;
    out.extend_from_slice(label)?;
    out.extend_from_slice(b"\n")
}

/// Adds what stands above the columns.
///
/// # Errors
///
/// `NoMemory` where memory runs out.
pub fn add_heading(out: &mut Vec<u8>, label: &[u8]) -> Result<(), NoMemory>
    ensures { OnOk result (out.new.items ≡ out.old.items ++ columns_heading label.now) }
{
    add_columns(out, b"old", b"new", b"difference", b"percent", label)
}

/// Adds two numbers and the change from the one to the other.
///
/// # Errors
///
/// `NoMemory` where memory runs out.
#[tactic(auto, unfolding(crate::specs::Numbers::numbers_row))]
pub fn add_numbers_row(
    alloc: Global,
    out: &mut Vec<u8>,
    old: u64,
    new: u64,
    label: &[u8],
) -> Result<(), NoMemory>
    ensures { OnOk result (out.new.items ≡ out.old.items ++ numbers_row old new label.now) }
{
    let change = change_of_numbers(old, new);
    let difference = change_text(alloc, change)?;
    let share = change_percent(alloc, old, change)?;
    let old = decimal(alloc, old)?;
    let new = decimal(alloc, new)?;
    add_columns(out, &old, &new, &difference, &share, label)
}

/// Returns a value's text.
fn signed_number(alloc: Global, value: u64) -> Result<Vec<u8>, NoMemory>
    ensures { IfOk result (λ text. text.items ≡ signed_number value) }
{
    let mut text = Vec::new(alloc);
    add_signed(alloc, &mut text, value)?;
    Ok(text)
}

/// Adds two values of 64 bits, of which the upper half are negative numbers, and the change from the one to the other.
///
/// # Errors
///
/// `NoMemory` where memory runs out.
#[tactic(auto, unfolding(crate::specs::Numbers::values_row))]
pub fn add_values_row(
    alloc: Global,
    out: &mut Vec<u8>,
    old: u64,
    new: u64,
    label: &[u8],
) -> Result<(), NoMemory>
    ensures { OnOk result (out.new.items ≡ out.old.items ++ values_row old new label.now) }
{
    let change = change_of_values(old, new);
    let difference = change_text(alloc, change)?;
    let share = change_percent(alloc, distance(old), change)?;
    let old = signed_number(alloc, old)?;
    let new = signed_number(alloc, new)?;
    add_columns(out, &old, &new, &difference, &share, label)
}
