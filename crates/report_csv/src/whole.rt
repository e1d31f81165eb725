//! The whole table.

ghost use Rattle.std.specs.Prelude.{◌≡◌, ◌++◌, IfOk, OnOk};
ghost use Rattle.report_csv.specs.Cells.{line, lines, names};
ghost use Rattle.report_csv.specs.Report.{report_csv, report_rows};
ghost use Rattle.report_csv.specs.Writers.{IsBetween, written};

use crate::cells::add_line;
use crate::run::add_run;
use crate::search::add_search;
use crate::shown::{add_all_refused, add_all_shown};
use csv::Writer;
use pn_types::NoMemory;
use report::ReportParts;
use std::alloc::{AllocError, Global};

/// Adds the names of the columns.
fn add_names(out: &mut Writer<Vec<u8>>) -> Result<(), NoMemory>
    requires { IsBetween out.old }
    ensures between { OnOk result (IsBetween out.new) }
    ensures text { OnOk result (written out.new ≡ written out.old ++ line names) }
{
    add_line(
        out,
        &[
            b"record", b"number", b"name", b"focus", b"units", b"phase", b"parent", b"state",
            b"samples", b"from", b"to", b"value", b"ticks", b"pc", b"text",
        ],
    )
}

/// Adds all rows.
fn add_rows(
    alloc: Global,
    out: &mut Writer<Vec<u8>>,
    skipped: u32,
    parts: &ReportParts,
) -> Result<(), NoMemory>
    requires { IsBetween out.old }
    ensures between { OnOk result (IsBetween out.new) }
    ensures text { OnOk result (written out.new ≡ written out.old ++ lines (report_rows skipped parts.now)) }
{
    add_names(out)?;
    add_run(alloc, out, skipped, parts)?;
    add_all_refused(alloc, out, parts.refused.as_slice())?;
    add_all_shown(alloc, out, parts.shown.as_slice())?;
    add_search(alloc, out, &parts.search)
}

/// Returns what a writer has written.
fn text_of(out: Writer<Vec<u8>>) -> Result<Vec<u8>, NoMemory>
    ensures { IfOk result (λ text. text.items ≡ written out) }
{
    match out.into_inner() {
        Ok(text) => Ok(text),
        Err(_) => Err(AllocError),
    }
}

/// Returns a report as one table of csv, with the names of the columns in its first line. Each other line is a record of the
/// kind that its first cell names; cells that a kind has no use for are empty. Bytes that a program or a configuration wrote
/// stand as they are, in quotes where a comma, a quote or a line's end is among them. Numbers below 2^64 are decimal; the sums
/// of bins are signed ones of 64 bits. The number `skipped` is that of the function symbols that are no procedures.
///
/// # Errors
///
/// `NoMemory` where memory runs out.
#[tactic(auto, unfolding(crate::specs::Report::report_csv))]
pub fn report_csv(alloc: Global, skipped: u32, parts: &ReportParts) -> Result<Vec<u8>, NoMemory>
    ensures { IfOk result (λ text. text.items ≡ report_csv skipped parts.now) }
{
    let mut out = Writer::from_writer(Vec::new(alloc));
    add_rows(alloc, &mut out, skipped, parts)?;
    text_of(out)
}
