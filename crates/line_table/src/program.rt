//! The rows of a unit, and of all units.

ghost use Rattle.std.specs.Prelude.{◌≡◌, ◌++◌, length, OnOk, option_to_list};
ghost use Rattle.line_table.specs.Reading.{Means};
ghost use Rattle.line_table.specs.Programs.{program_rows};
ghost use Rattle.line_table.specs.Tables.{rows_of};
ghost use Rattle.line_table.specs.Checks.{Fits, Appends};

use crate::fault::LineError;
use crate::operations::step;
use crate::registers::{Registers, Row};
use crate::unit::{UnitHeader, header};
use pn_types::NoMemory;
use std::alloc::Global;

/// Appends a row, if there is one.
fn push_row(rows: &mut Vec<Row>, row: Option<Row>) -> Result<(), NoMemory>
    ensures { OnOk result (rows.new.items ≡ rows.old.items ++ option_to_list row) }
{
    if let Some(row) = row {
        rows.push(row)?;
    }
    Ok(())
}

/// Appends the rows of a unit's program. The bytes end as the unit does.
fn push_rows(header: &UnitHeader, bytes: &[u8], rows: &mut Vec<Row>) -> Result<(), LineError>
    requires { Fits (length bytes.now) header.now }
    ensures { Appends rows.old.items rows.new.items result (program_rows header.now bytes.now) }
{
    let mut registers = Registers::first();
    let mut at = header.program;
    while at < bytes.len() {
        let step = step(header, bytes, registers, at)?;
        push_row(rows, step.row)?;
        registers = step.registers;
        at = step.next;
    }
    Ok(())
}

/// Returns the rows of all units.
///
/// # Errors
///
/// Out of memory, or the first fault.
pub(crate) fn rows_of(alloc: Global, bytes: &[u8]) -> Result<Vec<Row>, LineError>
    ensures { Means (λ rows. rows.items) result (rows_of bytes.now) }
{
    let mut rows = Vec::new(alloc);
    let mut at = 0;
    while at < bytes.len() {
        let header = header(bytes, at)?;
        push_rows(&header, &bytes[..header.end], &mut rows)?;
        at = header.end;
    }
    Ok(rows)
}
