//! Pieces of lines.

ghost use Rattle.std.specs.Prelude.{◌≡◌, ◌++◌, OnOk};
ghost use Rattle.std.specs.Fmt.{decimal};
ghost use Rattle.pn_types.specs.Texts.{address};

use pn_types::NoMemory;
use std::alloc::Global;

/// Adds a label and a number.
///
/// # Errors
///
/// `NoMemory` where memory runs out.
pub fn add_number(
    alloc: Global,
    out: &mut Vec<u8>,
    label: &[u8],
    number: u64,
) -> Result<(), NoMemory>
    ensures { OnOk result (out.new.items ≡ out.old.items ++ label.now ++ decimal number) }
{
    out.extend_from_slice(label)?;
    out.extend_from_slice(format!(in alloc; "{number}")?.as_bytes())
}

/// Adds a label and an address.
///
/// # Errors
///
/// `NoMemory` where memory runs out.
pub fn add_address(alloc: Global, out: &mut Vec<u8>, label: &[u8], at: u64) -> Result<(), NoMemory>
    ensures { OnOk result (out.new.items ≡ out.old.items ++ label.now ++ address at) }
{
    out.extend_from_slice(label)?;
    out.extend_from_slice(format!(in alloc; "0x{at:x}")?.as_bytes())
}
