//! What a program's file says of its lines of source.

ghost use Rattle.std.specs.Prelude.{◌≡◌};
ghost use Rattle.commands.specs.Profiles.{line_parts, or_no_lines};
ghost use Rattle.line_table.specs.Meaning.{meaning_of, paths_meaning};
ghost use Rattle.refusals.specs.Refusals.{Comes};

use crate::loading::begins_elf;
use line_table::{LineError, LineTable, UnitPaths, read_line_table, read_paths};
use pn_types::Seq;
use refusals::{Fault, Refusal};
use std::alloc::Global;

/// The parts of a line table.
#[derive(Drop)]
pub struct LineParts {
    /// The rows.
    pub table: LineTable,
    /// The directories and files of its units.
    pub units: Seq<UnitPaths>,
}

/// Returns the rows of an ELF file's line table.
fn table_of(alloc: Global, elf: &[u8]) -> Result<LineTable, Refusal>
    ensures { Comes result (λ table. table ≡ or_no_lines (meaning_of elf.now)) }
{
    match read_line_table(alloc, elf) {
        Ok(Some(table)) => Ok(table),
        Ok(None) => Err(Refusal::Fault(Fault::NoLines)),
        Err(LineError::NoMemory) => Err(Refusal::NoMemory),
        Err(LineError::Fault(fault)) => Err(Refusal::Fault(Fault::BadLines(fault.place))),
    }
}

/// Returns the directories and files of an ELF file's units.
fn units_of(alloc: Global, elf: &[u8]) -> Result<Seq<UnitPaths>, Refusal>
    ensures { Comes result (λ units. units ≡ or_no_lines (paths_meaning elf.now)) }
{
    match read_paths(alloc, elf) {
        Ok(Some(units)) => Ok(units),
        Ok(None) => Err(Refusal::Fault(Fault::NoLines)),
        Err(LineError::NoMemory) => Err(Refusal::NoMemory),
        Err(LineError::Fault(fault)) => Err(Refusal::Fault(Fault::BadLines(fault.place))),
    }
}

/// Returns the parts of the line table in a program's bytes.
///
/// # Errors
///
/// `Refusal::NoMemory` where memory runs out; `NoLines` where the bytes have no line table, and `BadLines` where it is faulty.
pub fn line_parts(alloc: Global, bytes: &[u8]) -> Result<LineParts, Refusal>
    ensures { Comes result (λ parts. parts ≡ line_parts bytes.now) }
{
    if !begins_elf(bytes) {
        return Err(Refusal::Fault(Fault::NoLines));
    }
    let table = table_of(alloc, bytes)?;
    let units = units_of(alloc, bytes)?;
    Ok(LineParts { table, units })
}
