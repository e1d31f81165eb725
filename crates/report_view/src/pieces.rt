//! Pieces of lines.

ghost use Rattle.std.specs.Prelude.{◌≡◌, ◌++◌, IfOk, OnOk, replicate};
ghost use Rattle.std.specs.Fmt.{decimal};
ghost use Rattle.report_view.specs.Harts.{amount_text, aligned};

use pn_types::NoMemory;
use std::alloc::Global;

/// Adds a label and a number.
///
/// # Errors
///
/// `NoMemory` where memory runs out.
pub fn add_number(
    alloc: Global,
    out: &mut Vec<u8>,
    label: &[u8],
    number: u64,
) -> Result<(), NoMemory>
    ensures { OnOk result (out.new.items ≡ out.old.items ++ label.now ++ decimal number) }
{
    out.extend_from_slice(label)?;
    out.extend_from_slice(format!(in alloc; "{number}")?.as_bytes())
}

/// Returns a number's text.
///
/// # Errors
///
/// `NoMemory` where memory runs out.
pub fn number_text(alloc: Global, number: u64) -> Result<Vec<u8>, NoMemory>
    ensures { IfOk result (λ text. text.items ≡ decimal number) }
{
    let mut text = Vec::new(alloc);
    text.extend_from_slice(format!(in alloc; "{number}")?.as_bytes())?;
    Ok(text)
}

/// Adds so many spaces.
fn add_spaces(out: &mut Vec<u8>, count: usize) -> Result<(), NoMemory>
    ensures { OnOk result (out.new.items ≡ out.old.items ++ replicate count 32) }
{
    for _ in 0..count {
        out.push(b' ')?;
    }
    Ok(())
}

/// Adds a text with spaces in front, up to a width.
///
/// # Errors
///
/// `NoMemory` where memory runs out.
pub fn add_padded(out: &mut Vec<u8>, width: usize, text: &[u8]) -> Result<(), NoMemory>
    ensures { OnOk result (out.new.items ≡ out.old.items ++ aligned width text.now) }
{
    add_spaces(out, width.saturating_sub(text.len()))?;
    out.extend_from_slice(text)
}

/// Adds a number of things, of which one has a name and more have another.
///
/// # Errors
///
/// `NoMemory` where memory runs out.
pub fn add_counted(
    alloc: Global,
    out: &mut Vec<u8>,
    number: u64,
    one: &[u8],
    more: &[u8],
) -> Result<(), NoMemory>
    ensures { OnOk result (out.new.items ≡ out.old.items ++ amount_text number one.now more.now) }
{
    if number == 1 {
        out.extend_from_slice(b"1 ")?;
        return out.extend_from_slice(one);
    }
    add_number(alloc, out, b"", number)?;
    out.extend_from_slice(b" ")?;
    out.extend_from_slice(more)
}
