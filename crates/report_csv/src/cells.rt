//! A row of the table.

ghost use Rattle.std.specs.Prelude.{◌≡◌, ◌++◌, ◌∷◌, [], IfOk, OnOk, map};
ghost use Rattle.std.specs.Fmt.{decimal};
ghost use Rattle.csv.specs.Writing.{default_writer, row_text};
ghost use Rattle.pn_types.specs.Texts.{cause_text};
ghost use Rattle.report_csv.specs.Cells.{line, optional, signed};
ghost use Rattle.report_csv.specs.Writers.{IsBetween, cell_bytes, cells_row, written};

use csv::Writer;
use pn_types::{NoMemory, PickCause};
use std::alloc::{AllocError, Global};

/// What a row has in the columns, in their order; a kind of rows has no use for some of them.
#[derive(Drop)]
pub(crate) struct Cells {
    pub(crate) kind: &'static [u8],
    pub(crate) number: Option<Vec<u8>>,
    pub(crate) name: Option<Vec<u8>>,
    pub(crate) focus: Option<Vec<u8>>,
    pub(crate) units: Option<Vec<u8>>,
    pub(crate) phase: Option<Vec<u8>>,
    pub(crate) parent: Option<Vec<u8>>,
    pub(crate) state: Option<Vec<u8>>,
    pub(crate) samples: Option<Vec<u8>>,
    pub(crate) from: Option<Vec<u8>>,
    pub(crate) to: Option<Vec<u8>>,
    pub(crate) value: Option<Vec<u8>>,
    pub(crate) ticks: Option<Vec<u8>>,
    pub(crate) pc: Option<Vec<u8>>,
    pub(crate) text: Option<Vec<u8>>,
}

/// A row with no cells.
pub(crate) const BLANK: Cells = Cells {
    kind: b"",
    number: None,
    name: None,
    focus: None,
    units: None,
    phase: None,
    parent: None,
    state: None,
    samples: None,
    from: None,
    to: None,
    value: None,
    ticks: None,
    pc: None,
    text: None,
};

/// Returns the bytes of a cell.
fn bytes(cell: &Option<Vec<u8>>) -> &[u8]
    ensures { result.now ≡ cell_bytes cell.now }
{
    match cell {
        None => b"",
        Some(bytes) => bytes,
    }
}

/// Adds a row of these cells. A write to memory fails only where this runs out, since all rows have as many cells.
#[tactic(auto, unfolding(crate::specs::Cells::line))]
pub(crate) fn add_line(out: &mut Writer<Vec<u8>>, cells: &[&[u8]]) -> Result<(), NoMemory>
    requires { IsBetween out.old }
    ensures between { OnOk result (IsBetween out.new) }
    ensures text { OnOk result (written out.new ≡ written out.old ++ line (map (λ cell. cell.now) cells.now)) }
{
    match out.write_fields(cells) {
        Ok(()) => Ok(()),
        Err(_) => Err(AllocError),
    }
}

/// Returns the kind of a row.
fn kind(cells: &Cells) -> &[u8]
    ensures { result.now ≡ cells.now.kind.now }
{
    cells.kind
}

/// Adds a row.
pub(crate) fn add_row(out: &mut Writer<Vec<u8>>, cells: &Cells) -> Result<(), NoMemory>
    requires { IsBetween out.old }
    ensures between { OnOk result (IsBetween out.new) }
    ensures text { OnOk result (written out.new ≡ written out.old ++ line (cells_row cells.now)) }
{
    add_line(
        out,
        &[
            kind(cells),
            bytes(&cells.number),
            bytes(&cells.name),
            bytes(&cells.focus),
            bytes(&cells.units),
            bytes(&cells.phase),
            bytes(&cells.parent),
            bytes(&cells.state),
            bytes(&cells.samples),
            bytes(&cells.from),
            bytes(&cells.to),
            bytes(&cells.value),
            bytes(&cells.ticks),
            bytes(&cells.pc),
            bytes(&cells.text),
        ],
    )
}

/// Returns the cell of bytes.
pub(crate) fn text(alloc: Global, bytes: &[u8]) -> Result<Option<Vec<u8>>, NoMemory>
    ensures { IfOk result (λ cell. cell_bytes cell ≡ bytes.now) }
{
    Ok(Some(Vec::from_slice(alloc, bytes)?))
}

/// Returns the cell of a number.
pub(crate) fn number(alloc: Global, number: u64) -> Result<Option<Vec<u8>>, NoMemory>
    ensures { IfOk result (λ cell. cell_bytes cell ≡ decimal number) }
{
    Ok(Some(format!(in alloc; "{number}")?.into_bytes()))
}

/// Returns the cell of a number that may be missing.
pub(crate) fn optional(alloc: Global, value: Option<u64>) -> Result<Option<Vec<u8>>, NoMemory>
    ensures { IfOk result (λ cell. cell_bytes cell ≡ optional value) }
{
    match value {
        None => Ok(None),
        Some(value) => number(alloc, value),
    }
}

/// Returns the cell of a value of 64 bits of which the upper half are negative numbers.
pub(crate) fn signed(alloc: Global, value: u64) -> Result<Option<Vec<u8>>, NoMemory>
    ensures { IfOk result (λ cell. cell_bytes cell ≡ signed value) }
{
    let value = value.cast_signed();
    Ok(Some(format!(in alloc; "{value}")?.into_bytes()))
}

/// Returns the cell of a cause.
pub(crate) fn cause(alloc: Global, cause: PickCause) -> Result<Option<Vec<u8>>, NoMemory>
    ensures { IfOk result (λ cell. cell_bytes cell ≡ cause_text cause) }
{
    Ok(Some(format!(in alloc; "{cause}")?.into_bytes()))
}
