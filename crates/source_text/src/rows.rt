//! Which source line an address comes from.

ghost use Rattle.std.specs.Prelude.{◌≡◌, IfOk};
ghost use Rattle.std.specs.List.Sorted.{IsNonDecreasingBy};
ghost use Rattle.source_text.specs.Sources.{by_place, place_of, row_until, source_at, source_of};

use crate::source::Source;
use line_table::{LineTable, Row};
use pn_types::NoMemory;
use std::alloc::Global;

/// Returns a row's place: by its address, and at one address those that end a sequence come first.
fn place_of(row: &Row) -> u128
    ensures { result ≡ place_of row.now }
{
    2 * row.address as u128 + if row.is_end { 0 } else { 1 }
}

/// Returns the rows of a line table by ascending place, ties in their order.
///
/// # Errors
///
/// `NoMemory` where memory runs out.
pub fn rows_by_place(alloc: Global, table: &LineTable) -> Result<Vec<Row>, NoMemory>
    ensures rows { IfOk result (λ rows. rows.items ≡ by_place table.now.rows) }
    ensures order { IfOk result (λ rows. IsNonDecreasingBy (λ row. row.address) rows.items) }
{
    let mut rows = Vec::new(alloc);
    rows.extend_from_slice(table.rows.as_slice())?;
    rows.sort_by_key(|row| place_of(row))?;
    Ok(rows)
}

/// Returns the last of the rows whose address is `at` or below.
fn row_until(rows: &[Row], at: u64) -> Option<Row>
    requires { IsNonDecreasingBy (λ row. row.address) rows.now }
    ensures { result ≡ row_until rows.now at }
{
    let place = rows.partition_point(|row| row.address <= at);
    if place == 0 {
        return None;
    }
    Some(rows[place - 1])
}

/// Returns the source that a row speaks of, if any.
fn source_of(row: Row) -> Option<Source>
    ensures { result ≡ source_of row }
{
    if row.is_end || row.line == 0 {
        return None;
    }
    Some(Source {
        unit: row.unit,
        file: row.file,
        line: row.line,
    })
}

/// Returns the source of an address by rows by place.
pub fn source_at(rows: &[Row], at: u64) -> Option<Source>
    requires { IsNonDecreasingBy (λ row. row.address) rows.now }
    ensures { result ≡ source_at rows.now at }
{
    source_of(row_until(rows, at)?)
}
