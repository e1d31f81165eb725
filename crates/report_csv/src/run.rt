//! The rows of the run.

ghost use Rattle.std.specs.Prelude.{◌≡◌, ◌++◌, IfOk, OnOk};
ghost use Rattle.pn_types.specs.Texts.{stop_text};
ghost use Rattle.report_csv.specs.Cells.{line, lines, row};
ghost use Rattle.report_csv.specs.Report.{format_row, hart_row, hart_rows, output_row, run_rows, samples_row, skipped_row};
ghost use Rattle.report_csv.specs.Writers.{IsBetween, cell_bytes, written};

use crate::cells::{BLANK, Cells, add_row, number, optional, text};
use csv::Writer;
use pn_types::{NoMemory, StopText};
use report::{HartPart, ReportParts};
use report_json::stop_code;
use std::alloc::Global;

/// Adds the name and the number of the format.
fn add_format(alloc: Global, out: &mut Writer<Vec<u8>>) -> Result<(), NoMemory>
    requires { IsBetween out.old }
    ensures between { OnOk result (IsBetween out.new) }
    ensures text { OnOk result (written out.new ≡ written out.old ++ line (row format_row)) }
{
    add_row(
        out,
        &Cells {
            kind: b"format",
            number: text(alloc, b"1")?,
            name: text(alloc, b"paradyn report")?,
            ..BLANK
        },
    )
}

/// Adds how many function symbols are no procedures.
fn add_skipped(alloc: Global, out: &mut Writer<Vec<u8>>, skipped: u32) -> Result<(), NoMemory>
    requires { IsBetween out.old }
    ensures between { OnOk result (IsBetween out.new) }
    ensures text { OnOk result (written out.new ≡ written out.old ++ line (row (skipped_row skipped))) }
{
    add_row(
        out,
        &Cells {
            kind: b"skipped",
            value: number(alloc, skipped as u64)?,
            ..BLANK
        },
    )
}

/// Adds how many samples were taken.
fn add_samples(alloc: Global, out: &mut Writer<Vec<u8>>, samples: u64) -> Result<(), NoMemory>
    requires { IsBetween out.old }
    ensures between { OnOk result (IsBetween out.new) }
    ensures text { OnOk result (written out.new ≡ written out.old ++ line (row (samples_row samples))) }
{
    add_row(
        out,
        &Cells {
            kind: b"samples",
            samples: number(alloc, samples)?,
            ..BLANK
        },
    )
}

/// Returns the cell of how a hart ended.
fn stop(alloc: Global, stop: StopText) -> Result<Option<Vec<u8>>, NoMemory>
    ensures { IfOk result (λ cell. cell_bytes cell ≡ stop_text stop) }
{
    Ok(Some(format!(in alloc; "{stop}")?.into_bytes()))
}

/// Adds a hart.
fn add_hart(
    alloc: Global,
    out: &mut Writer<Vec<u8>>,
    at: usize,
    part: &HartPart,
) -> Result<(), NoMemory>
    requires { IsBetween out.old }
    ensures between { OnOk result (IsBetween out.new) }
    ensures text { OnOk result (written out.new ≡ written out.old ++ line (row (hart_row at part.now))) }
{
    add_row(
        out,
        &Cells {
            kind: b"hart",
            number: number(alloc, at as u64)?,
            state: stop(alloc, part.stop)?,
            value: optional(alloc, stop_code(part.stop))?,
            ticks: number(alloc, part.ticks)?,
            pc: number(alloc, part.pc)?,
            ..BLANK
        },
    )
}

/// Adds the harts, by number.
fn add_harts(alloc: Global, out: &mut Writer<Vec<u8>>, parts: &[HartPart]) -> Result<(), NoMemory>
    requires { IsBetween out.old }
    ensures between { OnOk result (IsBetween out.new) }
    ensures text { OnOk result (written out.new ≡ written out.old ++ lines (hart_rows 0 parts.now)) }
{
    for (number, part) in parts.iter().enumerate() {
        add_hart(alloc, out, number, part)?;
    }
    Ok(())
}

/// Adds what the program wrote.
fn add_output(alloc: Global, out: &mut Writer<Vec<u8>>, output: &[u8]) -> Result<(), NoMemory>
    requires { IsBetween out.old }
    ensures between { OnOk result (IsBetween out.new) }
    ensures text { OnOk result (written out.new ≡ written out.old ++ line (row (output_row output.now))) }
{
    add_row(
        out,
        &Cells {
            kind: b"output",
            text: text(alloc, output)?,
            ..BLANK
        },
    )
}

/// Adds the rows of the run.
pub(crate) fn add_run(
    alloc: Global,
    out: &mut Writer<Vec<u8>>,
    skipped: u32,
    parts: &ReportParts,
) -> Result<(), NoMemory>
    requires { IsBetween out.old }
    ensures between { OnOk result (IsBetween out.new) }
    ensures text { OnOk result (written out.new ≡ written out.old ++ lines (run_rows skipped parts.now)) }
{
    add_format(alloc, out)?;
    add_skipped(alloc, out, skipped)?;
    add_samples(alloc, out, parts.samples)?;
    add_harts(alloc, out, parts.harts.as_slice())?;
    add_output(alloc, out, parts.output.bytes())
}
