//! Columns of a table.

ghost use Rattle.std.specs.Prelude.{◌≡◌, ◌++◌, IfOk, OnOk, replicate};
ghost use Rattle.std.specs.Fmt.{decimal};
ghost use Rattle.profile_text.specs.Columns.{columns, padded, per_mille, share_text, ticks_columns};

use pn_types::NoMemory;
use std::alloc::Global;

/// Adds so many blanks.
fn add_blanks(out: &mut Vec<u8>, count: usize) -> Result<(), NoMemory>
    ensures { OnOk result (out.new.items ≡ out.old.items ++ replicate count 32) }
{
    for _ in 0..count {
        out.push(b' ')?;
    }
    Ok(())
}

/// Adds a text with blanks in front, up to a width.
///
/// # Errors
///
/// `NoMemory` where memory runs out.
pub fn add_padded(out: &mut Vec<u8>, width: usize, text: &[u8]) -> Result<(), NoMemory>
    ensures { OnOk result (out.new.items ≡ out.old.items ++ padded width text.now) }
{
    add_blanks(out, width.saturating_sub(text.len()))?;
    out.extend_from_slice(text)
}

/// Returns n of so many, per mille, rounded down.
fn per_mille(n: u64, all: u64) -> u128
    ensures { result ≡ per_mille n all }
{
    if all == 0 {
        0
    } else {
        n as u128 * 1000 / all as u128
    }
}

/// Returns n of so many, in per cent, with one decimal.
///
/// # Errors
///
/// `NoMemory` where memory runs out.
pub fn share_text(alloc: Global, n: u64, all: u64) -> Result<Vec<u8>, NoMemory>
    ensures { IfOk result (λ text. text.items ≡ share_text n all) }
{
    let share = per_mille(n, all);
    let whole = share / 10;
    let tenth = share % 10;
    let mut text = Vec::new(alloc);
    text.extend_from_slice(format!(in alloc; "{whole}.{tenth}%")?.as_bytes())?;
    Ok(text)
}

/// Returns a number's text.
///
/// # Errors
///
/// `NoMemory` where memory runs out.
pub fn number_text(alloc: Global, number: u64) -> Result<Vec<u8>, NoMemory>
    ensures { IfOk result (λ text. text.items ≡ decimal number) }
{
    let mut text = Vec::new(alloc);
    text.extend_from_slice(format!(in alloc; "{number}")?.as_bytes())?;
    Ok(text)
}

/// Adds the columns in front of a name.
///
/// # Errors
///
/// `NoMemory` where memory runs out.
pub fn add_columns(
    out: &mut Vec<u8>,
    share: &[u8],
    ticks: &[u8],
    entered: &[u8],
) -> Result<(), NoMemory>
    ensures { OnOk result (out.new.items ≡ out.old.items ++ columns share.now ticks.now entered.now) }
{
    add_padded(out, 7, share)?;
    add_padded(out, 12, ticks)?;
    add_padded(out, 12, entered)?;
    out.extend_from_slice(b"  ")
}

/// Adds the columns of ticks out of so many.
///
/// # Errors
///
/// `NoMemory` where memory runs out.
pub fn add_ticks_columns(
    alloc: Global,
    out: &mut Vec<u8>,
    all: u64,
    ticks: u64,
    entered: &[u8],
) -> Result<(), NoMemory>
    ensures { OnOk result (out.new.items ≡ out.old.items ++ ticks_columns all ticks entered.now) }
{
    let share = share_text(alloc, ticks, all)?;
    let number = number_text(alloc, ticks)?;
    add_columns(out, &share, &number, entered)
}
