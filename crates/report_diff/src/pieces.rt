//! Pieces of lines.

ghost use Rattle.std.specs.Prelude.{◌≡◌, ◌++◌, IfOk, OnOk, replicate};
ghost use Rattle.std.specs.Fmt.{decimal};
ghost use Rattle.report_diff.specs.Numbers.{column};
ghost use Rattle.report_diff.specs.Runs.{bytes_text, only_in};
ghost use Rattle.report_view.specs.Harts.{amount_text};

use pn_types::NoMemory;
use std::alloc::Global;

/// Adds a number.
///
/// # Errors
///
/// `NoMemory` where memory runs out.
pub fn add_decimal(alloc: Global, out: &mut Vec<u8>, number: u64) -> Result<(), NoMemory>
    ensures { OnOk result (out.new.items ≡ out.old.items ++ decimal number) }
{
    out.extend_from_slice(format!(in alloc; "{number}")?.as_bytes())
}

/// Returns a number's text.
///
/// # Errors
///
/// `NoMemory` where memory runs out.
pub fn decimal(alloc: Global, number: u64) -> Result<Vec<u8>, NoMemory>
    ensures { IfOk result (λ text. text.items ≡ decimal number) }
{
    let mut text = Vec::new(alloc);
    add_decimal(alloc, &mut text, number)?;
    Ok(text)
}

/// Adds a number of things, of which one has a name and more have another.
///
/// # Errors
///
/// `NoMemory` where memory runs out.
pub fn add_amount(
    alloc: Global,
    out: &mut Vec<u8>,
    number: u64,
    one: &[u8],
    more: &[u8],
) -> Result<(), NoMemory>
    ensures { OnOk result (out.new.items ≡ out.old.items ++ amount_text number one.now more.now) }
{
    if number == 1 {
        out.extend_from_slice(b"1 ")?;
        return out.extend_from_slice(one);
    }
    add_decimal(alloc, out, number)?;
    out.extend_from_slice(b" ")?;
    out.extend_from_slice(more)
}

/// Adds a number of bytes.
///
/// # Errors
///
/// `NoMemory` where memory runs out.
pub fn add_byte_count(alloc: Global, out: &mut Vec<u8>, count: usize) -> Result<(), NoMemory>
    ensures { OnOk result (out.new.items ≡ out.old.items ++ bytes_text count) }
{
    add_amount(alloc, out, count as u64, b"byte", b"bytes")
}

/// Adds so many spaces.
fn add_spaces(out: &mut Vec<u8>, count: usize) -> Result<(), NoMemory>
    ensures { OnOk result (out.new.items ≡ out.old.items ++ replicate count 32) }
{
    for _ in 0..count {
        out.push(b' ')?;
    }
    Ok(())
}

/// Adds a text behind a space, at the right of a column.
///
/// # Errors
///
/// `NoMemory` where memory runs out.
pub fn add_column(out: &mut Vec<u8>, width: usize, text: &[u8]) -> Result<(), NoMemory>
    ensures { OnOk result (out.new.items ≡ out.old.items ++ column width text.now) }
{
    out.extend_from_slice(b" ")?;
    add_spaces(out, width.saturating_sub(text.len()))?;
    out.extend_from_slice(text)
}

/// Adds what a line on something begins with that stands in one report alone.
///
/// # Errors
///
/// `NoMemory` where memory runs out.
pub fn add_only_in(out: &mut Vec<u8>, report: &[u8]) -> Result<(), NoMemory>
    ensures { OnOk result (out.new.items ≡ out.old.items ++ only_in report.now) }
{
    out.extend_from_slice(b"only in ")?;
    out.extend_from_slice(report)?;
    out.extend_from_slice(b": ")
}
