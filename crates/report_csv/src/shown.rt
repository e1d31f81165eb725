//! The rows of wishes that were refused, and of what was shown.

ghost use Rattle.std.specs.Prelude.{◌≡◌, ◌++◌, ◌∷◌, if◌then◌else◌, OnOk, codes};
ghost use Rattle.report_csv.specs.Cells.{line, lines, row};
ghost use Rattle.report_csv.specs.Report.{bin_row, bin_rows, refused_row, refused_rows, shown_row, shown_rows};
ghost use Rattle.report_csv.specs.Writers.{IsBetween, written};

use crate::cells::{BLANK, Cells, add_row, cause, number, optional, signed, text};
use csv::Writer;
use fold_hist::Bin;
use pn_types::NoMemory;
use report::{RefusedPart, ShownPart};
use std::alloc::Global;

/// Returns what was wished.
fn wish(show: bool) -> &'static [u8]
    ensures { result.now ≡ (if show then codes "show" else codes "drop") }
{
    if show { b"show" } else { b"drop" }
}

/// Adds a wish that was refused.
fn add_refused(
    alloc: Global,
    out: &mut Writer<Vec<u8>>,
    at: usize,
    part: &RefusedPart,
) -> Result<(), NoMemory>
    requires { IsBetween out.old }
    ensures between { OnOk result (IsBetween out.new) }
    ensures text { OnOk result (written out.new ≡ written out.old ++ line (row (refused_row at part.now))) }
{
    add_row(
        out,
        &Cells {
            kind: b"refused",
            number: number(alloc, at as u64)?,
            name: text(alloc, part.metric.bytes())?,
            focus: text(alloc, part.focus.bytes())?,
            state: text(alloc, wish(part.show))?,
            from: number(alloc, part.at)?,
            text: cause(alloc, part.cause)?,
            ..BLANK
        },
    )
}

/// Adds the wishes that were refused, in order.
pub(crate) fn add_all_refused(
    alloc: Global,
    out: &mut Writer<Vec<u8>>,
    parts: &[RefusedPart],
) -> Result<(), NoMemory>
    requires { IsBetween out.old }
    ensures between { OnOk result (IsBetween out.new) }
    ensures text { OnOk result (written out.new ≡ written out.old ++ lines (refused_rows 0 parts.now)) }
{
    for (number, part) in parts.iter().enumerate() {
        add_refused(alloc, out, number, part)?;
    }
    Ok(())
}

/// Adds a bin of a histogram.
fn add_bin(
    alloc: Global,
    out: &mut Writer<Vec<u8>>,
    histogram: usize,
    at: usize,
    bin: &Bin,
) -> Result<(), NoMemory>
    requires { IsBetween out.old }
    ensures between { OnOk result (IsBetween out.new) }
    ensures text { OnOk result (written out.new ≡ written out.old ++ line (row (bin_row histogram at bin.now))) }
{
    add_row(
        out,
        &Cells {
            kind: b"bin",
            number: number(alloc, at as u64)?,
            parent: number(alloc, histogram as u64)?,
            from: number(alloc, bin.from)?,
            to: number(alloc, bin.to)?,
            value: signed(alloc, bin.sum)?,
            ..BLANK
        },
    )
}

/// Adds the bins of a histogram, by number.
fn add_bins(
    alloc: Global,
    out: &mut Writer<Vec<u8>>,
    histogram: usize,
    bins: &[Bin],
) -> Result<(), NoMemory>
    requires { IsBetween out.old }
    ensures between { OnOk result (IsBetween out.new) }
    ensures text { OnOk result (written out.new ≡ written out.old ++ lines (bin_rows histogram 0 bins.now)) }
{
    for (number, bin) in bins.iter().enumerate() {
        add_bin(alloc, out, histogram, number, bin)?;
    }
    Ok(())
}

/// Adds a histogram.
fn add_histogram(
    alloc: Global,
    out: &mut Writer<Vec<u8>>,
    at: usize,
    part: &ShownPart,
) -> Result<(), NoMemory>
    requires { IsBetween out.old }
    ensures between { OnOk result (IsBetween out.new) }
    ensures text { OnOk result (written out.new ≡ written out.old ++ line (row (shown_row at part.now))) }
{
    add_row(
        out,
        &Cells {
            kind: b"shown",
            number: number(alloc, at as u64)?,
            name: text(alloc, part.metric.bytes())?,
            focus: text(alloc, part.focus.bytes())?,
            units: text(alloc, part.units.bytes())?,
            samples: number(alloc, part.width)?,
            from: optional(alloc, part.from)?,
            ..BLANK
        },
    )
}

/// Adds a histogram and its bins.
fn add_shown(
    alloc: Global,
    out: &mut Writer<Vec<u8>>,
    at: usize,
    part: &ShownPart,
) -> Result<(), NoMemory>
    requires { IsBetween out.old }
    ensures between { OnOk result (IsBetween out.new) }
    ensures text { OnOk result (written out.new ≡ written out.old ++ lines (row (shown_row at part.now) ∷ bin_rows at 0 part.now.bins)) }
{
    add_histogram(alloc, out, at, part)?;
    add_bins(alloc, out, at, part.bins.as_slice())
}

/// Adds all that was shown, in the order of the admissions.
pub(crate) fn add_all_shown(
    alloc: Global,
    out: &mut Writer<Vec<u8>>,
    parts: &[ShownPart],
) -> Result<(), NoMemory>
    requires { IsBetween out.old }
    ensures between { OnOk result (IsBetween out.new) }
    ensures text { OnOk result (written out.new ≡ written out.old ++ lines (shown_rows 0 parts.now)) }
{
    for (number, part) in parts.iter().enumerate() {
        add_shown(alloc, out, number, part)?;
    }
    Ok(())
}
