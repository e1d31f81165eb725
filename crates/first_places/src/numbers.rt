//! Numbers by name.

ghost use Rattle.std.specs.Prelude.{OnOk, OnErr};
ghost use Rattle.first_places.specs.Numbers.{IsAdded, IsUnchanged};

use indexmap::IndexMap;
use pn_types::NoMemory;
use std::alloc::Global;

/// Appends a number to those of a name. A new name is put after the others.
///
/// # Errors
///
/// `NoMemory` if memory runs out. Then nothing has changed.
pub fn add_number(
    alloc: Global,
    numbers: &mut IndexMap<Vec<u8>, Vec<u32>>,
    name: &[u8],
    number: u32,
) -> Result<(), NoMemory>
    ensures added { OnOk result (IsAdded (λ key. key.items) (λ own. own.items) name.now number numbers.old.entries numbers.new.entries) }
    ensures err { OnErr result (IsUnchanged (λ key. key.items) (λ own. own.items) numbers.old.entries numbers.new.entries) }
{
    if let Some(own) = numbers.get_mut(name) {
        own.push(number)?;
        return Ok(());
    }
    let own = vec![in alloc; number]?;
    numbers.insert(Vec::from_slice(alloc, name)?, own)?;
    Ok(())
}
