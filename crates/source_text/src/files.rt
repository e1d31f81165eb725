//! The names of source files.

ghost use Rattle.std.specs.Prelude.{◌≡◌, ◌==◌, IfOk, map, option_map};
ghost use Rattle.std.specs.List.{find};
ghost use Rattle.std.specs.List.Sorted.{IsNonDecreasingBy};
ghost use Rattle.source_text.specs.Ordered.{ordered_by};

use line_table::{LineTable, UnitPaths};
use pn_types::NoMemory;
use std::alloc::Global;

/// What an ELF file says of its source lines.
#[derive(Drop)]
pub struct SourceLines<'a> {
    /// The file.
    pub elf: &'a [u8],
    /// The directories and files of its units.
    pub units: &'a [UnitPaths],
    /// Its line table.
    pub table: &'a LineTable,
}

/// Returns each unit.
fn each_unit(alloc: Global, units: &[UnitPaths]) -> Result<Vec<&UnitPaths>, NoMemory>
    ensures { IfOk result (λ found. map (λ u. u.now) found.items ≡ units.now) }
{
    let mut found = Vec::with_capacity(alloc, units.len())?;
    for unit in units {
        found.push(unit)?;
    }
    Ok(found)
}

/// Returns the units by ascending place of their headers, ties in their order.
///
/// # Errors
///
/// `NoMemory` where memory runs out.
pub fn units_by_place(alloc: Global, units: &[UnitPaths]) -> Result<Vec<&UnitPaths>, NoMemory>
    ensures units { IfOk result (λ found. map (λ u. u.now) found.items ≡ ordered_by (λ u. u.unit) units.now) }
    ensures order { IfOk result (λ found. IsNonDecreasingBy (λ u. u.now.unit) found.items) }
{
    let mut found = each_unit(alloc, units)?;
    found.sort_by_key(|unit| unit.unit)?;
    Ok(found)
}

/// Returns the first of the units, by ascending place, whose header is at a place.
pub fn unit_at<'a>(units: &[&'a UnitPaths], place: u64) -> Option<&'a UnitPaths>
    requires { IsNonDecreasingBy (λ u. u.now.unit) units.now }
    ensures { option_map (λ u. u.now) result ≡ find (λ u. place == u.unit) (map (λ u. u.now) units.now) }
{
    let first = units.partition_point(|unit| unit.unit < place);
    if first == units.len() {
        return None;
    }
    let unit = units[first];
    if unit.unit == place { Some(unit) } else { None }
}
